//! The machine that reads the tokens of a C unit: a stack of what is open (specs/Inside.antt), and one step
//! for each token (specs/Machine.antt), over trees without places. The laws: what a well-formed unit spells is
//! read as that unit, two units do not spell the same (`unique_law`), and the machine's answer is the unit that
//! the tokens spell, or the place where they go wrong (`reading_law`), and the least depth of a unit that begins
//! with the tokens is told by what is open (`depth_law`).
//!
//! And the same machine over trees with places and numbers (specs/Reader.antt), which also counts depth and stops
//! where no flat unit begins with the tokens: without them it is the machine (`erased_law`), and the nodes of a unit
//! that it answers have the places and numbers that they should have (`marked_law`). Both together: what the reader
//! answers about tokens of C (`answer_law`).
#![tactic(auto)]

mod places;
mod promises;

pub use places::{answer_law, erased_law, marked_law, some_places};
pub use promises::{depth_law, reading_law, some_examples, unique_law};
