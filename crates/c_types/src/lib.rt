//! Types of C: a table in which each type has a number, with all that is asked of it kept beside it. The main
//! call is `TypeTable::add`; `specs/` has types as trees (`CTypes`), their sizes (`Layout`), the pointer test
//! (`Pointers`), const (`Consts`), records (`Records`), what stands behind typedef names (`Plain`) and the
//! table (`Table`), which the calls on `TypeTable` meet; `same` and `compatible` compare canonical types
//! (`Canonical`, `Compatible`), and `spelling` writes a type's name (`Spelling`). No call recurses by the
//! depth of types.
#![tactic(auto)]

mod facts;
mod keys;
mod laws;
mod numbers;
mod pieces;
mod records;
mod rows;
mod table;
mod terms;

pub use laws::{records_law, same_numbers_law};
pub use records::Member;
pub use rows::some_examples;
pub use table::TypeTable;
pub use terms::{Term, TypeEnd, TypeId};
