//! Rule 3: which specifiers stand together, and the type that they write (ISO/IEC 9899:2018, 6.7.1 to
//! 6.7.4). `Specified` gathers the specifiers of one declaration, field, parameter or type name.
#![tactic(auto)]

mod counts;
mod rules;
mod specified;
mod words;
mod written;

pub use rules::{are_specifiers, judge_part, may_hold};
pub use specified::{Specified, base_type};
pub use words::{has_extern, has_static, has_typedef};
