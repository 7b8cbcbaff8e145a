//! Why a table stays as it was.
ghost use Rattle.std.specs.Prelude.{◌≡◌};

use std::error::Error;
use std::fmt;

/// Why a call leaves the table as it was.
#[derive(Clone, Copy, Debug, PartialEq, Eq)]
pub enum TableRefusal {
    /// T1: the worker is in the table already.
    Taken,
    /// T2: the number is above 1023.
    TooHigh,
    /// T3: no such worker is in the table.
    NoSuch,
    /// T4: the moment is before the worker's last beat.
    Backwards,
}

impl TableRefusal {
    ghost use Rattle.worker_table.specs.Codes.{table_code};

    /// The code of the refusal, as it is printed.
    pub fn code(&self) -> &'static str
        ensures { result.now ≡ table_code self.now }
    {
        match self {
            TableRefusal::Taken => "T1",
            TableRefusal::TooHigh => "T2",
            TableRefusal::NoSuch => "T3",
            TableRefusal::Backwards => "T4",
        }
    }
}

/// Printed as its code.
impl fmt::Display for TableRefusal {
    ghost use Rattle.std.specs.Prelude.{Some};
    ghost use Rattle.worker_table.specs.Codes.{table_code};

    ghost output = { λ refusal. Some (table_code refusal) };

    fn fmt<W: fmt::Write>(&self, f: &mut fmt::Formatter<W>) -> fmt::Result {
        f.write_str(self.code())
    }
}

impl Error for TableRefusal {}
