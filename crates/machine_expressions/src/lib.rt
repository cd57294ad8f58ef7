//! The steps of expressions: one begins, and its parts have values. What each leads to is `machine_steps`'
//! definition of the same name.
#![tactic(auto)]

mod acts;
mod begin;
mod first;
mod given;
mod numbers;
mod parts;
mod pointers;
mod second;
mod whole;

pub use acts::{acted, gives, judged};
pub use begin::{begin_part, begin_second};
pub use first::first_given;
pub use given::expr_given;
pub use parts::{first_part, second_part};
pub use second::{second_given, second_of};
pub use whole::evaluating;
