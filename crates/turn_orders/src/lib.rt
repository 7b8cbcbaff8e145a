//! The orders of turns that two masters can take.
#![tactic(auto)]

mod orders;

pub use orders::{MOST_ORDERS, OrdersRefusal, orders_of};
