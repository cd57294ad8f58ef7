//! The end of a declarator, where the next token has no part in it. A declarator without a name ends where it
//! begins, so the first token of one stands here too.
#![tactic(auto)]

mod begin;
mod declarator;

pub use begin::declarator_begin;
pub use declarator::end_declarator;
