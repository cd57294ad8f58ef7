//! The rules on members, structs, unions, enumerations, attributes and parameters, tried at their nodes
//! (ISO/IEC 9899:2018, 6.7.2.1, 6.7.2.2, 6.7.6.3). Each `judge` function gives what `specs/Walk` of `c_rules`
//! defines for a node whose parts are judged already.
#![tactic(auto)]

mod attributes;
mod enums;
mod layers;
mod members;
mod parameters;
mod records;
mod sizes;
mod types;

pub use attributes::judge_attribute;
pub use enums::{judge_enum, judge_enum_tag, tagged_enum};
pub use layers::end_function;
pub use members::judge_member;
pub use parameters::{is_lone_void, judge_param_or_void, parameter_number};
pub use records::{judge_record, judge_record_tag, tagged_record};
pub use sizes::is_small;
pub use types::{judge_named_type, name_type};
