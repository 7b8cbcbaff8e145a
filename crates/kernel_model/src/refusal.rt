//! Why a kernel stays as it was.
ghost use Rattle.std.specs.Prelude.{◌≡◌};

use std::error::Error;
use std::fmt;

/// Why no room is made.
#[derive(Clone, Copy, Debug, PartialEq, Eq)]
pub enum ReserveRefusal {
    /// B3: too few process or socket numbers are left.
    NoNumbers,
    /// Memory was refused.
    Memory,
}

impl ReserveRefusal {
    ghost use Rattle.kernel_model.specs.Codes.{reserve_code};

    /// The code of the refusal, as it is printed; of want of memory `memory`.
    pub fn code(&self) -> &'static str
        ensures { result.now ≡ reserve_code self.now }
    {
        match self {
            ReserveRefusal::NoNumbers => "B3",
            ReserveRefusal::Memory => "memory",
        }
    }
}

/// Printed as its code.
impl fmt::Display for ReserveRefusal {
    ghost use Rattle.std.specs.Prelude.{Some};
    ghost use Rattle.kernel_model.specs.Codes.{reserve_code};

    ghost output = { λ refusal. Some (reserve_code refusal) };

    fn fmt<W: fmt::Write>(&self, f: &mut fmt::Formatter<W>) -> fmt::Result {
        f.write_str(self.code())
    }
}

impl Error for ReserveRefusal {}

/// Why no process of somebody else is added.
#[derive(Clone, Copy, Debug, PartialEq, Eq)]
pub enum ForeignRefusal {
    /// B2: somebody holds the address.
    Held,
    /// B3: no process or socket number is left.
    NoNumbers,
    /// Memory was refused.
    Memory,
}

impl ForeignRefusal {
    ghost use Rattle.kernel_model.specs.Codes.{foreign_code};

    /// The code of the refusal, as it is printed; of want of memory `memory`.
    pub fn code(&self) -> &'static str
        ensures { result.now ≡ foreign_code self.now }
    {
        match self {
            ForeignRefusal::Held => "B2",
            ForeignRefusal::NoNumbers => "B3",
            ForeignRefusal::Memory => "memory",
        }
    }
}

/// Printed as its code.
impl fmt::Display for ForeignRefusal {
    ghost use Rattle.std.specs.Prelude.{Some};
    ghost use Rattle.kernel_model.specs.Codes.{foreign_code};

    ghost output = { λ refusal. Some (foreign_code refusal) };

    fn fmt<W: fmt::Write>(&self, f: &mut fmt::Formatter<W>) -> fmt::Result {
        f.write_str(self.code())
    }
}

impl Error for ForeignRefusal {}
