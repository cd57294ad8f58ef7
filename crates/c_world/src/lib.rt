//! What is known at a point of a unit, as code: the names and tags in scope, the types, records and
//! enumerations, and what was found of the nodes so far. `World` is the state; `seen` of specs/Seen says
//! what it is in the words of the rules' definitions, where types are trees and not numbers.
#![tactic(auto)]

mod end;
mod names;
mod sets;
mod state;
mod tags;

pub use end::{CheckEnd, keep};
pub use names::{Bound, NameEntry};
pub use sets::NameSet;
pub use state::{Findings, FunctionEntry, ObjectEntry, World};
pub use tags::TagEntry;
