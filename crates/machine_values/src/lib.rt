//! Values and operators of a run, by the rules of the meaning (ISO/IEC 9899:2018, 6.3 and 6.5): integers by
//! `num_ops`, pointers by their blocks and offsets. Nothing here takes memory.
#![tactic(auto)]

mod numbers;
mod pointers;

pub use numbers::{
    arith, as_kind, byte_in, compare_int, convert, exit_code, holds, natural_in, no_value, shift,
    truth_value,
};
pub use pointers::{compare_ptr, is_dangling, modified, ptr_add, ptr_diff, same_pointer, truth};
