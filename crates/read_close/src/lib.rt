//! What ends with the last token of an expression: its operators, and the statement's part that it is.
#![tactic(auto)]

mod operators;
mod statement_part;

pub use operators::{Reduced, reduce};
pub use statement_part::close_part;
