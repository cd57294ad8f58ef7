//! What a function takes and gives is read from the spelling of its type (`c_core`), and types are spelled
//! by `c_types`: laws that the two agree, as functions whose contracts state them. `specs/Laws.antt` has
//! the laws, `specs/Told.antt` what a type takes and gives, and `specs/Named.antt` their premise, that the
//! names of records and enumerations are identifiers or the words for a type without a name.
#![tactic(auto)]

mod laws;
mod rows;

pub use laws::{every_signature_is_read, signature_is_read, types_are_named, unnamed_is_name};
pub use rows::some_examples;
