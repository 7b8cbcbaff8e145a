//! What a program on pipes does at each line.
use plain_text::Line;

/// What a program does at a line.
#[derive(Clone, Copy, Debug, PartialEq, Eq)]
pub enum Reaction {
    /// It says nothing.
    Quiet,
    /// It says its answer.
    Says,
    /// It says its answer, and ends with status 0.
    Leaves,
    /// It ends with status 1.
    Fails,
}

/// A program that hears lines.
pub trait Hears {
    ghost use Rattle.std.specs.Prelude.{ℕ, List};
    ghost use Rattle.child_programs.specs.Response.{Response, response_of, HasRoom};

    /// A line led from one state to another, and to this response.
    ghost hears: { Self → List ℕ → Self → Response → Type 0 };

    /// Hears a line, without its newline. An answer is put into `answer`.
    fn hear(&mut self, line: &[u8], answer: &mut Line) -> Reaction
        ensures heard { hears self.old line.now self.new (response_of result answer.new) }
        ensures room { HasRoom (response_of result answer.new) };
}
