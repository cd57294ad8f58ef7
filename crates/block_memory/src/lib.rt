//! Storage by numbered blocks: what a run loads and stores, and where its blocks stand.
//!
//! `Memory` says what each call does, by the definitions of access (ISO/IEC 9899:2018, 6.2.4, 6.2.6 and
//! 6.5) on the list of all blocks: the value or the first fault, and the blocks afterwards. `CellMemory`
//! is the plain form, a list of cells for each block. Only `place` and the constructors take memory.
//! `access` and `scalar` are what every form stands on: an access's faults, and values as cells.
#![tactic(auto)]

pub mod access;
mod cell_memory;
mod memory;
mod rooms;
pub mod scalar;

pub use cell_memory::CellMemory;
pub use memory::{BlockInfo, Memory};
pub use rooms::room;
