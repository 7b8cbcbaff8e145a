//! What holds of a whole life: of blocks that are certified one after another, which addresses were open in each table,
//! the fewest ready workers that each had, and which words fell short and were healed.
#![tactic(auto)]

mod certifying;
mod following;
mod life;
mod opened;
mod shorts;

pub use certifying::{CertifiedLife, certify_life};
pub use life::Life;
pub use opened::{LeastReady, OpenAddress, TablePlace};
pub use shorts::ShortWord;
