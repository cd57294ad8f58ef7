//! The core of a unit, as definitions: what each form of a checked unit becomes in the small language that a run
//! is defined over (ISO/IEC 9899:2018, 6.2.4 to 6.9).
//!
//! `specs/Units` has `core_of`, the program of a unit; `Expressions` has a line for each form of expression, and
//! `Operators` and `Values` the words of these lines; `Statements` and `Initialisers` have the rest of a
//! function. Nothing is counted on the way: each number is a place in a list that is made before (`Numbered`,
//! `FixedThings`). Where a part does not give what is asked of it a zero stands in (`Lowered`), so that each
//! expression gives what it says, and the core of a unit with a `main` is well-formed (`Sorts`, `Formed`).
#![tactic(auto)]

mod laws;

pub use laws::{every_core_is_well_formed, every_expression_gives_what_it_says};
