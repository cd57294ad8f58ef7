//! What a token does among specifiers, in records and in enumerations.
#![tactic(auto)]

mod on_specifier;

pub use on_specifier::{enumerator_begin, enumerator_next, field_begin, specs_next, tag_next};
