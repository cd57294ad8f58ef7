//! The parts of the tree, each put together from its own parts, with what it is seen as.
#![tactic(auto)]

pub mod expression;
mod raw;
pub mod specifier;
pub mod statement;
