//! Expressions, declarators and lists of their parts that stand outside of other trees while a unit is read, each
//! in a struct that contracts see as the tree itself, and that lets the tree go by a `Drop` of its own.
#![tactic(auto)]

mod expression;
mod list;

pub use expression::{Declarator, DeclaratorBox, Expr, ExprBox, TypeName, TypeNameBox};
pub use list::{
    Arguments, Attributes, Declarators, Entries, Enumerators, Exprs, Fields, Params, Specs,
};
