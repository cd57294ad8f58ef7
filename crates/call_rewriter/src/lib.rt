//! Rewrites a unit of C so that each allocation call carries its token: a direct call of `malloc`, `calloc` or `realloc`
//! (ISO/IEC 9899:2018, 7.22.3) becomes a call of its entry point, `__alloc_token_malloc` and so on, with the token as
//! last argument (Clang's manual, "Allocation Tokens").
//!
//! The call is `tagged_unit`. `specs/Tagged.antt` says what the rewritten unit is, and `specs/Laws.antt` what holds of it.
#![tactic(auto)]

mod copy;
mod laws;
mod made;
mod plan;
mod prototypes;
mod site;
mod survey;
mod tag;
mod tag_unit;
mod tagged;

pub use laws::{tagging_examples, tagging_laws};
pub use tagged::tagged_unit;
