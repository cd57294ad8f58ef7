//! The free storage of one range: its holes.
//!
//! `Holes` is seen as the list of its units of 16 bytes, each free or not. `take` serves the lowest
//! run of free units that is long enough and answers None exactly where there is none, `give` makes
//! units free again, and `count` is the number of maximal runs (specs/Units). Each of them takes time that
//! grows with the logarithm of the range (specs/Tags). Only `new` takes memory. `HoleList` does the same over
//! a list of holes, slowly.
#![tactic(auto)]

mod gap;
mod list;
mod tags;

pub use list::HoleList;
pub use tags::Holes;
