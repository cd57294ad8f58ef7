//! The values of integer constants, character constants and string literals, by their spelling
//! (ISO/IEC 9899:2018, 6.4.4.1, 6.4.4.4 and 6.4.5).
//!
//! The calls are `constant_of`, `char_value` and `literal_bytes`; they meet specs/Integers.antt and
//! specs/Literals.antt, and the laws say that these are the values of the grammar's constants and
//! literals. They ask nothing of their text: what is no constant or literal has a value too.
#![tactic(auto)]

mod integers;
mod laws;
mod literals;

pub use integers::constant_of;
pub use laws::{integers_law, literals_law, some_examples};
pub use literals::{char_value, literal_bytes};
