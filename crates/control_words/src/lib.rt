//! Control words: what an operator asks of a master, a line each, by the names of Unicorn's signals.
#![tactic(auto)]

mod asking;
mod reading;
mod refusal;
mod words;

pub use asking::target_of;
pub use reading::read;
pub use refusal::WordRefusal;
pub use words::Word;
