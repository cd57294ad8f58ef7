//! Rules 10, 11 and 23 of an initialiser, and what is noted of its expressions (ISO/IEC 9899:2018, 6.7.9). An
//! initialiser is a list of its parts in the order of the text, with what is known of its expressions;
//! `reads` of specs/Entries says which tree it is. Rule 10 finds which expression initialises which part of
//! the type (`fit`); the other rules and the notes go over what it found.
#![tactic(auto)]

mod fitting;
mod given;
mod judging;
mod parts;
mod rules;

pub use fitting::fit;
pub use given::{Entry, Fitted};
pub use judging::judge_given;
pub use rules::{all_convert, are_fixed, note_constants, note_targets};
