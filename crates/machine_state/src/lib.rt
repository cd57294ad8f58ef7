//! The state of a run in memory: the memory, and what is kept beside it.
//!
//! `specs/State.antt` says which state of the run it is (`state_in`), and what holds of it between steps
//! (`IsSound`): where each block stands (`specs/Stands.antt`), that the log is the histories of the ranges, and
//! that locals name blocks that were given. The proofs say what each change of the blocks keeps.
#![tactic(auto)]

mod ledger;

pub use ledger::{Ledger, Machine, Spot};
