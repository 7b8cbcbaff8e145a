//! What `explain`, `--why` and `check` say: the pages of codes, answers and outcomes, and what is said of faults and files
//! for people.
#![tactic(auto)]

mod asking;
mod checking;
mod codes;
mod finding;
mod keys;
mod lines;
mod places;
mod programs;
mod why;

pub use asking::is_asked;
pub use checking::{check_file, check_text};
pub use codes::explain;
use finding::meaning_of;
pub use places::Evidence;
pub use programs::tell_program;
pub use why::{has_why, tell, tell_declined, tell_refusals, tell_usage};
