//! What a token does at a place in an expression.
#![tactic(auto)]

mod on_expression;

pub use on_expression::expr_next;
