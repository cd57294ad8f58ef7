//! What a token does in declarators.
#![tactic(auto)]

mod on_declarator;

pub use on_declarator::{declarator_next, opened_next, star_next};
