//! Storage by numbered blocks in nine bytes for each address: the packed form of `Memory`.
//!
//! All blocks stand in one row of cells, each live block where it was placed. A cell is one byte and one
//! word of 64 bits, which says what the byte is. A dead block keeps an entry of twelve bytes and no cells.
//! Only `place` and `new` take memory.
#![tactic(auto)]

mod cells;
mod memory;

pub use memory::PackedMemory;
