//! The values of integer constant expressions and of address constants, as the rules of the language define
//! them (ISO/IEC 9899:2018, 6.6): each operator's result is exactly the definition's, for constants that
//! vary, are undefined or have a value, and an address stays within its object or is none.
#![tactic(auto)]

mod address;
mod constant;
mod integers;
mod operators;

pub use address::{Address, constant_value};
pub use constant::Constant;
