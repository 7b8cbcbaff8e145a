//! A master on the modelled kernel: started by files and options, it carries words out, certifies blocks, explores what a word
//! comes to, and plans what a word would do.
#![tactic(auto)]

mod beginning;
mod certifying;
mod dying;
mod enacting;
mod exploring;
mod goals;
mod instead;
mod living;
mod planning;
mod rehearsal;
mod start;
mod summing;

pub use beginning::begin;
pub use certifying::certify_all;
pub use dying::{DeathTrials, DeathsExplored, death_summary};
pub use enacting::{rehearse, show_state};
pub use exploring::{Explored, Trials};
pub use goals::read_goals;
pub use instead::line_instead;
pub use living::certify_with_life;
pub use planning::{Form, Outlook, look_ahead, told};
pub use rehearsal::Rehearsal;
pub use start::{Start, StartSetup};
pub use summing::{Demands, summary};
