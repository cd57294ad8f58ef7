//! The places of names in a list, found by an index: `NamePlaces::note` gives a name its place unless
//! it has one, and `find` tells it. `placed` of specs/Placed.antt is what is noted, and `place_of` the
//! place of a name in a list.
#![tactic(auto)]

mod places;

pub use places::NamePlaces;
