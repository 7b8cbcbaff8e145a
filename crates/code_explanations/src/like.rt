//! Explanations whose code is written in other letters.
ghost use Rattle.std.specs.Prelude.{◌≡◌};
ghost use Rattle.std.specs.List.{find};
ghost use Rattle.std.specs.Str.{str_eq_ignore_ascii_case};

use crate::Explanation;

/// The first of these explanations that has the code in large or small letters; none where no one has it.
pub fn explanation_like(explanations: &[Explanation], code: &str) -> Option<Explanation>
    ensures { result ≡ find (λ explanation. str_eq_ignore_ascii_case explanation.code.now code.now) explanations.now }
{
    explanations
        .iter()
        .copied()
        .find(|explanation| explanation.code.eq_ignore_ascii_case(code))
}
