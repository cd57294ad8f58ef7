//! The stacks of the machine, in memory: what it is about to do, and what waits.
//!
//! A frame is a part of a tree and a number, and owns nothing: the values of left operands and of arguments
//! stand on a stack of their own, and so do the locals. `specs/Views.antt` says what of `machine_steps` each is,
//! `specs/Held.antt` which pointers they hold.
#![tactic(auto)]

mod frames;
mod stacks;
mod state;

pub use frames::{Control, Entering, ExprWait, Frame, Leaving, LibraryCall, StmtWait, Turned};
pub use stacks::Stacks;
pub use state::Rest;
