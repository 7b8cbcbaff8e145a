//! Why a text of lines is refused.
use std::alloc::AllocError;
use std::error::Error;
use std::fmt;

/// Why a text is refused: its first faulty line, counted from 1. It is printed as its code and the
/// line's number, as in `X1 3`, or as `memory`.
#[derive(Clone, Copy, Debug, PartialEq, Eq)]
pub enum TextRefusal {
    /// X1: the line has no form that it could have.
    Line(usize),
    /// X2: the line cannot stand in its place.
    Order(usize),
    /// Memory was refused.
    Memory,
}

impl TextRefusal {
    ghost use Rattle.std.specs.Prelude.{◌≡◌};
    ghost use Rattle.lines_text.specs.Codes.{refusal_code};

    /// The code of the rule, as it is printed, without the line's number.
    pub fn code(&self) -> &'static str
        ensures { result.now ≡ refusal_code self.now }
    {
        match self {
            TextRefusal::Line(_) => "X1",
            TextRefusal::Order(_) => "X2",
            TextRefusal::Memory => "memory",
        }
    }
}

impl fmt::Display for TextRefusal {
    ghost use Rattle.std.specs.Prelude.{Some};
    ghost use Rattle.lines_text.specs.Codes.{refusal_text};

    ghost output = { λ refusal. Some (refusal_text refusal) };

    fn fmt<W: fmt::Write>(&self, f: &mut fmt::Formatter<W>) -> fmt::Result {
        match self {
            TextRefusal::Line(number) => write!(f, "{} {number}", self.code()),
            TextRefusal::Order(number) => write!(f, "{} {number}", self.code()),
            TextRefusal::Memory => f.write_str(self.code()),
        }
    }
}

impl Error for TextRefusal {}

impl From<AllocError> for TextRefusal {
    ghost use Rattle.std.specs.Prelude.{◌≡◌};
    ghost use Rattle.lines_text.specs.declared.refusal.TextRefusal.TheVariants.{Memory};

    ghost from_gives = { λ e r. r ≡ Memory };

    fn from(_error: AllocError) -> Self {
        TextRefusal::Memory
    }
}
