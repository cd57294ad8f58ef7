//! The rules on expressions, as questions: what a node demands of its parts, and the types that it makes
//! (ISO/IEC 9899:2018, 6.5). Each function gives the answer of the definition of its name in
//! `specs/Expressions`, `specs/Types` or `specs/Forms` of `c_rules`. `specs/Typed` says what is known of an
//! expression by the number of its type, and `specs/Steps` cuts the rules' forms where types are made.
#![tactic(auto)]

mod conversion;
mod making;
mod pointers;
mod questions;
mod rules;
mod typed;

pub use conversion::{can_be_cast, converts};
pub use making::{
    assigned_type, common_type, decayed, difference_type, is_null_type, joined, settled, sum_type,
    with_qualifiers,
};
pub use pointers::{
    are_alike, are_integers, can_be_followed, is_beside_null, is_complete_pointer,
    is_function_pointer, is_null_constant, is_object_pointer, is_void_pointer, moved_back,
    moved_by, pointed, step_size,
};
pub use questions::{
    element, is_array, is_bool, is_char, is_function, is_integer, is_pointer, is_record, is_scalar,
    is_void, keeps_qualifiers, kind_of, outer_qualifiers, pointee,
};
pub use rules::{
    can_be_added, can_be_chosen, can_be_equal, can_be_indexed, can_be_ordered, can_be_subtracted,
    can_step, has_address, is_modifiable,
};
pub use typed::{Argument, Typed};
