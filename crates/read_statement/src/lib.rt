//! What a token does among statements.
#![tactic(auto)]

mod on_statement;

pub use on_statement::stmt_mode_next;
