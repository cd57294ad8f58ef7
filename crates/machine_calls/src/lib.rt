//! Arguments and calls: the next argument of a call is evaluated, or the call is made. What a call leads to is
//! `machine_steps`' definition of the same name: the body of a function, a library function, or a trap.
#![tactic(auto)]

mod arguments;
mod call;
mod loaded;

pub use arguments::{expr_at, next_argument};
pub use call::{Manner, calling, calling_now};
pub use loaded::{Loaded, function_address};
