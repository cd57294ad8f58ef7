//! The calls of a checked unit that take an allocation token, and the builtins that give one, each with the type
//! that the allocation is for, as Clang's manual on allocation tokens infers it from the call. The calls are
//! `sites` and `marks`; `specs/Inferred` says which type that is, `specs/Sites` which calls and builtins
//! count, `specs/Untagged` which functions are left as they are.
#![tactic(auto)]

mod around;
mod find_marks;
mod find_sites;
mod inferred;
mod site;
mod untagged;

pub use around::Around;
pub use find_marks::marks;
pub use find_sites::sites;
pub use inferred::has_pointer;
pub use site::{Callee, Mark, Site};
