//! Where the reader is, as a value that lets what was read go by a `Drop` of its own: a crate that owns one
//! has no destructor of the modes to prove.
#![tactic(auto)]

mod height;
mod held;

pub use held::HeldMode;
