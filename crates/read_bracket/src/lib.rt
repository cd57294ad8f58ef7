//! What begins inside of brackets: the length of an array, a parameter, an initialiser.
#![tactic(auto)]

mod on_bracket;
mod on_init;

pub use on_bracket::{array_next, params_next};
pub use on_init::init_begin;
