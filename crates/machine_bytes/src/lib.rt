//! What the library functions read and copy of storage, over any memory: comparisons and texts (ISO/IEC 9899:2018,
//! 7.24.4.1, 7.24.6.3), and the contents of a block that gets another size (7.22.3.5).
//!
//! Each is `c_meaning`'s definition of the same name. Copies and fills of bytes stand in `machine_access`.
#![tactic(auto)]

mod reading;
mod texts;

pub use texts::{compare_bytes, resized, string_length};
