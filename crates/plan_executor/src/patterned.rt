//! The modelled kernel, called under a pattern.
ghost use Rattle.std.specs.Prelude.{◌≡◌, ◌+◌, ◌<◌, ◌^◌};

use kernel_model::{Kernel, Pattern};
use plan_walk::Calls;
use vocabulary::{Actor, Answer, Call};

/// A kernel whose calls come with the moments of a pattern, the first with moment 1, and are each handed a text.
#[derive(Drop)]
pub(crate) struct Patterned<'a> {
    kernel: &'a mut Kernel,
    pattern: &'a Pattern,
    text: &'a [u8],
    number: u32,
    ghost countable: { number + kernel.now.room < 2 ^ 32 },
}

impl<'a> Patterned<'a> {
    /// A kernel before the first moment of a pattern, whose calls are each handed the text.
    pub(crate) fn new(kernel: &'a mut Kernel, pattern: &'a Pattern, text: &'a [u8]) -> Patterned<'a>
        ensures same_kernel { result.kernel.ghost_name ≡ kernel.entry.ghost_name }
        ensures kernel { result.kernel.now ≡ kernel.old }
        ensures pattern { result.pattern.now ≡ pattern.now }
        ensures text { result.text.now ≡ text.now }
        ensures number { result.number ≡ 0 }
    {
        // Only a reading tells that the room is a number of 32 bits.
        let _ = kernel.room();
        Patterned {
            kernel,
            pattern,
            text,
            number: 0,
        }
    }
}

impl Calls for Patterned<'_> {
    ghost use Rattle.plan_executor.specs.Patterned.{CallsLed, CallsLed-none};

    ghost room = { λ p. p.kernel.now.room };

    ghost follows = { CallsLed };

    ghost follows_none = { CallsLed-none };

    fn room(&self) -> u32 {
        self.kernel.room()
    }

    fn make(&mut self, by: Actor, call: &Call) -> Answer {
        self.number += 1;
        let pattern = self.pattern;
        let moment = pattern.moment(self.number);
        self.kernel.call(by, call, self.text, &moment)
    }
}
