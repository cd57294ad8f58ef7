//! Prints a unit of C: a line for each external declaration, which is its tokens with one space between two.
//!
//! The call is `print_unit`. It gives `unit_text` of the tree's definitions, and of a well-formed unit the text
//! reads as that unit.
#![tactic(auto)]

mod printer;

pub use printer::print_unit;
