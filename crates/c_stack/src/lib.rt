//! What is open while a unit of C is read: the reader's stack, its places, and where the reader is.
#![tactic(auto)]

pub mod around;
pub mod inside;
pub mod levels;
pub mod place;
pub mod specs_read;
