//! How a target ends whatever goes wrong and whichever of its two masters makes the next call: it is explored by one order of
//! their turns after another.
#![tactic(auto)]

mod choosing;
mod exploring;
mod totals;

pub use choosing::{ChosenOrders, choose_orders};
pub use exploring::{OrderAudience, OrderSearch, explore_orders};
pub use totals::{Ends, OrderedLeast, OrderedMost, OrderedRun, Totals};
