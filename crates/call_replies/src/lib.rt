//! What an edge of a plan tells apart: the reply that an answer is, and the replies that a call can have.
#![tactic(auto)]

mod answering;
mod listing;

pub use answering::reply_to;
pub use listing::{
    all_replies, failed_replies, other_replies, plain_replies, plain_reply, replies_of, replies_to,
};
