//! Sites and marks.

use c_types::TypeId;
use tok_base::Span;

/// An allocation function (ISO/IEC 9899:2018, 7.22.3).
#[derive(Clone, Copy, Debug, PartialEq, Eq)]
pub enum Callee {
    Malloc,
    Calloc,
    Realloc,
}

/// A call that takes a token.
#[derive(Clone, Copy, Debug)]
pub struct Site {
    /// The number of the call's node.
    pub node: u32,
    /// The called name.
    pub name: Span,
    /// The closing parenthesis.
    pub close: Span,
    pub callee: Callee,
    /// The type that it allocates for, as far as the call tells.
    pub inferred: Option<TypeId>,
}

/// A builtin that gives a token.
#[derive(Clone, Copy, Debug)]
pub struct Mark {
    /// The number of its node.
    pub node: u32,
    pub span: Span,
    pub inferred: Option<TypeId>,
}
