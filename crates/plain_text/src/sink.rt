//! What texts are put into.
use std::alloc::AllocError;

/// What takes texts, one behind another, so that one writer serves them all: a vector, which grows,
/// or a line, which takes no memory.
pub trait Sink {
    ghost use Rattle.std.specs.Prelude.{◌≡◌, ◌++◌, ℕ, List, Option, IfOk};
    ghost use Rattle.plain_text.specs.Kept.{kept};

    /// Why it may take no more.
    type Refusal;

    // how many bytes it keeps at most, if it has an end
    ghost most: { Option ℕ };

    // what it holds
    ghost text: { Self → List ℕ };

    /// Puts bytes behind what it holds. What stands past its end is not kept.
    fn put(&mut self, bytes: &[u8]) -> Result<(), Self::Refusal>
        ensures { IfOk result (λ _. text self.new ≡ kept most (text self.old ++ bytes.now)) };
}

/// The only refusal is want of memory.
impl Sink for Vec<u8> {
    ghost use Rattle.std.specs.Prelude.{None};

    type Refusal = AllocError;

    ghost most = { None };

    ghost text = { λ bytes. bytes.items };

    fn put(&mut self, bytes: &[u8]) -> Result<(), AllocError> {
        self.extend_from_slice(bytes)
    }
}
