//! Numbers as decimal texts, read and written, texts cut in two and into lines, and what texts are put into.
#![tactic(auto)]

mod cuts;
mod line;
mod lines;
mod number_text;
mod sink;

pub use cuts::{after_prefix, around, cut};
pub use line::{LINE_BYTES, Line};
pub use lines::first_line;
pub use number_text::{number_within, read_count, read_number, read_number64, write_number};
pub use sink::Sink;
