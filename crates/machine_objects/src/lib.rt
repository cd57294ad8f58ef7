//! Objects of a run are made and end (ISO/IEC 9899:2018, 6.2.4): locals, parameters and fixed objects.
//!
//! What each does is `machine_steps`'s definition of the same name. An object stands behind the one that was made
//! before it and still lives, below the ranges of the heap; where no address is left there, the answer is want
//! of memory.
#![tactic(auto)]

mod ending;
mod fixed;
mod locals;
mod parameters;
mod placing;
mod rooms;

pub use ending::{end_locals, end_parameters, local_block};
pub use fixed::make_fixed;
pub use locals::{make_local, make_locals};
pub use parameters::make_parameters;
pub use placing::place;
pub use rooms::{give_bytes, give_room, take_bytes, take_room};
