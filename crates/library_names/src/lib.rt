//! The functions of the library and the entry points of allocation tokens, by their names: their numbers,
//! and the types that rule 34 asks of them where the unit has no body for them (ISO/IEC 9899:2018, 7.21 to
//! 7.24).
#![tactic(auto)]

mod entries;
mod library;
mod signature;
mod texts;

pub use entries::signature_of;
pub use library::{Library, library_named, library_number};
pub use signature::{Parameters, Part, Signature};
