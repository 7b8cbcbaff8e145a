//! What each code, answer and outcome means, and what to do about it. The sentences are here and nowhere else.
#![tactic(auto)]

// The sentences are in three lists, since the prover takes too long over one of all. A function that names a list has all its
// sentences in its code: one function does.

mod allowed;
mod answers;
mod codes;
mod explanation;
mod faults;
mod like;
mod names;

pub use allowed::allowed_for;
pub use answers::answer_pages;
pub use codes::word_pages;
pub use explanation::{Explanation, explanation_of};
pub use faults::fault_pages;
pub use like::explanation_like;
pub use names::name_pages;
