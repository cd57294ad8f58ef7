//! Accesses of a run to its storage, each with the span of what traps, over any memory.
//!
//! What each does is `c_meaning`'s definition of the same name; `specs/Acts.antt` says what a result in memory
//! is as a step. Nothing here takes memory.
#![tactic(auto)]

mod access;
mod bytes;
mod records;

pub use access::{Assignment, copied, load_at, modify, store_at};
pub use bytes::{copy_bytes, set_bytes, zeroed};
pub use records::{RecordCopy, copy_record};
