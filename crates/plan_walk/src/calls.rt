//! What makes the calls of a plan.
ghost use Rattle.std.specs.Prelude.{◌≡◌, ℕ, ◌+◌, ◌≤◌, List, [], ◌∷◌, ◌++◌, IsTrue};
ghost use Rattle.call_replies.specs.Replies.{is_listed};
ghost use Rattle.vocabulary.specs.declared.reports.Entry.{Entry};

use vocabulary::{Actor, Answer, Call};

/// Makes calls, and says how those that it made led from one of its states to another.
///
/// That law ties what an executor writes down to what was really done, on the modelled kernel and on
/// real children alike. What makes the calls needs no list of its own for it; one that keeps a list
/// says so in `follows`.
pub trait Calls {
    /// For how many calls there is room.
    ghost room: { Self → ℕ };

    /// What makes the calls came from one state to another by these calls.
    ghost follows: { Self → List Entry → Self → Type 0 };

    /// For how many calls there is room.
    fn room(&self) -> u32
        ensures { result ≡ room self.now };

    /// Makes a call for a master, by its image, and gives one of the answers that the call can be given.
    fn make(&mut self, by: Actor, call: &Call) -> Answer
        requires { 1 ≤ room self.old }
        ensures room { room self.old ≤ room self.new + 1 }
        ensures falls { room self.new ≤ room self.old }
        ensures listed { IsTrue (is_listed call.now result) }
        ensures follows { (first : Self) (entries : List Entry) → follows first entries self.old → follows first (entries ++ (record { by = by; call = call.now; answer = result }) ∷ []) self.new };

    /// Where no call was made, nothing changed.
    ghost follows_none: { (calls : Self) → follows calls [] calls };
}
