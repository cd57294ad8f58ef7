//! How far a run has come, by its log: `specs/Reached.antt` says what holds between a run, its log so far and
//! what is still to do, and that each request, its answer and each release keep it.
#![tactic(auto)]

mod laws;

pub use laws::{runs_advance, runs_begin};
