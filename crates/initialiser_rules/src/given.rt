//! An initialiser with what is known of its expressions.

use c_tree::At;
use c_types::TypeId;
use expression_rules::Typed;

/// A part of an initialiser; the parts stand in the order of the text.
#[derive(Clone, Copy)]
pub enum Entry {
    /// An expression, with its node.
    One(At, Typed),
    /// Braces around so many initialisers, which come next.
    Many(u64),
}

/// An expression with the type of the part that it initialises.
#[derive(Clone, Copy)]
pub struct Fitted {
    pub at: At,
    pub typed: Typed,
    pub ty: TypeId,
}
