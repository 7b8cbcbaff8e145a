//! Explanations of codes, answers and outcomes.
ghost use Rattle.std.specs.Prelude.{◌≡◌, bytes_eq};
ghost use Rattle.std.specs.List.{find};

/// What a code, an answer or an outcome means, and what to do about it.
#[derive(Clone, Copy, Debug)]
pub struct Explanation {
    /// The code as it is printed, without what follows it: `Y1`, `usage`, `again`.
    pub code: &'static str,
    /// What was found: half a line of at most 68 columns, which follows the code.
    pub meaning: &'static str,
    /// Why it comes, what is allowed and what to do, in lines of at most 76 columns, since `--why` indents them.
    pub remedy: &'static str,
}

/// The first of these explanations that has the code; none where no one has it.
pub fn explanation_of(explanations: &[Explanation], code: &str) -> Option<Explanation>
    ensures { result ≡ find (λ explanation. bytes_eq explanation.code.now code.now) explanations.now }
{
    explanations
        .iter()
        .copied()
        .find(|explanation| explanation.code == code)
}
