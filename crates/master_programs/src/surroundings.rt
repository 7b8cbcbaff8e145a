//! What the program runs in.

/// What the program runs in.
#[derive(Clone, Copy)]
pub struct Surroundings {
    /// The number of its own process.
    pub number: u32,
    /// Standard input and standard error are a terminal: somebody is to be told what is waited for.
    pub asks: bool,
    /// Standard error is a terminal: more is said of faults, as with `--why`.
    pub explains: bool,
}
