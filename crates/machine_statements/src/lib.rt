//! The steps of statements: one begins, the expressions that it waits for have values, and it is told how the
//! statements in it ended. What each leads to is `machine_steps`' definition of the same name; making objects and
//! ending them is left to the caller, as what a step leads to.
#![tactic(auto)]

mod begin;
mod blocks;
mod flows;
mod initial;
mod loops;
mod values;

pub use begin::beginning;
pub use blocks::{block_begins, next_listed};
pub use flows::told;
pub use initial::{next_item, zero_first};
pub use loops::{branching, looping, testing, testing_next, turn_ended};
pub use values::given;
