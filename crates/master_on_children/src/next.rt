//! The settings of the next configuration.
ghost use Rattle.std.specs.Prelude.{⊤, Result};
ghost use Rattle.vocabulary.specs.Settings.{Settings as Said};
ghost use Rattle.master_on_children.specs.declared.next.NextRefusal.{NextRefusal as Refusal};

use vocabulary::Settings;
use word_runner::CodeText;

/// Why there are no next settings.
#[derive(Drop)]
pub enum NextRefusal {
    /// Memory was refused.
    Memory,
    /// The configuration cannot be read. The word is refused as W4.
    Unreadable,
    /// The configuration is refused. The word is refused with this code.
    Refused(CodeText),
}

/// What reads the settings of the next configuration, anew for each word that asks for them.
pub trait NextSettings {
    /// What a reading says: of the reader before, what it gave, and the reader afterwards.
    ghost reads: { Self → Result Said Refusal → Self → Type 0 } = { λ _ _ _. ⊤ };

    /// Reads them anew.
    fn read(&mut self) -> Result<Settings, NextRefusal>
        ensures { reads self.old result self.new };
}
