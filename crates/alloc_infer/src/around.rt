//! What stands around an expression.

/// What an expression, perhaps in parentheses, is to what stands around it.
#[derive(Clone, Copy, Debug, PartialEq, Eq)]
pub enum Around {
    /// Neither of the others.
    Nothing,
    /// The operand of the cast with this number.
    Cast(u32),
    /// Converted as by assignment: the outermost expression has this number.
    Converted(u32),
}
