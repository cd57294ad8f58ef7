//! The integers of C in the LP64 data model: twelve kinds, their conversions, arithmetic, shifts and
//! comparisons. `arith` and its kin give exactly what `specs/Arithmetic.antt` defines: the exact result
//! over the whole numbers without bound, then that result where its kind holds it, wrapped modulo
//! 2^width where the kind is unsigned, or undefined with its cause (ISO/IEC 9899:2018, 6.3.1 and 6.5).
//! Nothing here takes memory.
#![tactic(auto)]

mod arithmetic;
mod constants;
mod conversions;
mod kinds;
mod numbers;
mod rows;
mod shifts;

pub use arithmetic::{Op, Undefined, arith};
pub use constants::{Base, Length, constant_kind};
pub use conversions::{common, convert, promote};
pub use kinds::{IntKind, greatest, is_signed, least, width};
pub use numbers::Int;
pub use rows::some_examples;
pub use shifts::{Cmp, compare, shift};
