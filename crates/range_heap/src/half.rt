//! The halves of the tokens.

/// One half of the tokens of a heap.
#[derive(Clone, Copy, Debug, PartialEq, Eq)]
pub enum Half {
    /// The tokens below half their number, rounded down.
    Lower,
    /// As many tokens more.
    Upper,
}
