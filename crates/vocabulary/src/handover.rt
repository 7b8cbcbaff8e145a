//! The versions of a handover's text, and why one is refused.
use thiserror::Error;

/// Which form a handover's text has.
#[derive(Clone, Copy, Debug, PartialEq, Eq)]
pub enum HandoverVersion {
    /// `handover 1`: all addresses, and then how many workers. It tells of one group, is read, and is written no more.
    One,
    /// `handover 2`: of each group how many workers, and then its addresses.
    Two,
}

/// The first rule for handovers that a text breaks. Lines are counted from 1.
#[derive(Clone, Copy, Debug, PartialEq, Eq, Error)]
pub enum HandoverRefusal {
    /// H1: the first line is neither `handover 1` nor `handover 2`.
    #[error("H1 the first line is neither `handover 1` nor `handover 2`")]
    Version,
    /// H2: the line cannot stand in its place, or a value of it is out of range.
    #[error("H2 line {0} cannot stand there, or has a value out of range")]
    Line(u32),
    /// H3: the line's descriptor is not above the one before.
    #[error("H3 the descriptor of line {0} is not above the one before")]
    OutOfOrder(u32),
    /// H4: the text ends before the line `end`.
    #[error("H4 the text is cut")]
    Cut,
    /// H5: something follows the line `end`.
    #[error("H5 something follows the end")]
    Trailing,
}
