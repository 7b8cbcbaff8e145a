//! Generations.
ghost use Rattle.std.specs.Prelude.{◌≡◌, ◌≤◌, ◌++◌, length, Some, IfOk};
ghost use Rattle.plain_text.specs.Kept.{kept};
ghost use Rattle.listener_set.specs.GenerationText.{generation_text};

use plain_text::{Sink, write_number};
use std::fmt;

/// What a worker runs, by the numbers of its master's executable and configuration. Its text is
/// the two numbers, joined by a dot: `1.1`.
#[derive(Clone, Copy, Debug, PartialEq, Eq)]
pub struct Generation {
    /// The executable: one more after each upgrade.
    pub image: u32,
    /// The configuration: one more after each reload and each upgrade.
    pub config: u32,
}

impl Generation {
    /// Puts its text behind what was written.
    #[tactic(auto, using(plain_text::proofs::KeptTexts::kept_on))]
    pub fn write<S: Sink>(self, out: &mut S) -> Result<(), S::Refusal>
        ensures text { IfOk result (λ _. S.text out.new ≡ kept S.most (S.text out.old ++ generation_text self)) }
        ensures short { IfOk result (λ _. length (generation_text self) ≤ 41) }
    {
        write_number(out, u64::from(self.image))?;
        out.put(b".")?;
        write_number(out, u64::from(self.config))
    }
}

impl fmt::Display for Generation {
    ghost output = { λ g. Some (generation_text g) };

    fn fmt<W: fmt::Write>(&self, f: &mut fmt::Formatter<W>) -> fmt::Result {
        write!(f, "{}.{}", self.image, self.config)
    }
}
