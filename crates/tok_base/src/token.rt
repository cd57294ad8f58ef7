//! Tokens of a C text, and places in it.

use crate::list::Bytes;

/// What sort of token it is (ISO/IEC 9899:2018, 6.4).
#[derive(Clone, Copy, Debug, PartialEq, Eq)]
pub enum Kind {
    /// An identifier that is no keyword.
    Name,
    /// A keyword.
    Word,
    /// An integer constant.
    Number,
    /// A character constant.
    Char,
    /// A string literal.
    Text,
    /// A punctuator.
    Mark,
}

/// The bytes of a text from `start` up to, and not with, `end`.
#[derive(Clone, Copy, Debug, PartialEq, Eq)]
pub struct Span {
    pub start: u32,
    pub end: u32,
}

/// A token where it stands in its text.
#[derive(Debug, Drop)]
pub struct Token {
    pub kind: Kind,
    pub span: Span,
    pub text: Bytes,
}

/// A token apart from any place.
#[derive(Debug, Drop)]
pub struct Lexeme {
    pub kind: Kind,
    pub text: Bytes,
}
