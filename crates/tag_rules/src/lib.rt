//! A checked unit rewritten so that each allocation call carries its token, as definitions, in every mode of
//! Clang's manual on allocation tokens and for both forms of entry points.
//!
//! `specs/Tokens` says which token each call and each builtin has, `EntryPoints` what is called in place of
//! the library's functions, and `Tagged` what the unit becomes; `Renumbered` gives its nodes their numbers, each once
//! and in the order in which they end (`numbers_law`).
//! `Refusals` says which units are not rewritten. `Edits` has the places at which the text changes, and
//! `Lines` what is told of each call. `crates/tag_examples` computes them over small units.
#![tactic(auto)]

mod abi;
mod laws;

pub use abi::Abi;
pub use laws::numbers_law;
