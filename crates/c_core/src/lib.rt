//! The core language: the tree that a C unit is lowered to, the values and cells of its runs, and what an
//! access to storage does. `specs/Tree.antt` has the tree as plain data, `specs/View.antt` says which one
//! a tree in memory is, form by form (`specs/Forms.antt`). `specs/Values.antt` and
//! `specs/Blocks.antt` define how values stand in cells, and which fault an access has first
//! (ISO/IEC 9899:2018, 6.2.6 and 6.5). Blocks have numbers and no addresses.
//! `specs/WellFormed.antt` says which programs are well formed: every number names a thing that is there, and
//! every part is of the sort that its form takes (`specs/Sorts.antt`), a call's by the spelling of its type
//! (`specs/Signatures.antt`) or by the library's (`specs/Library.antt`).
#![tactic(auto)]

mod rows;
mod tree;
mod values;

pub use rows::{each_form_is_seen, signature_examples, some_examples};
pub use tree::{Core, Expr, FixedObject, Form, Func, LibMark, ModifyOp, Place, Stmt};
pub use values::{
    BlockKind, Cell, End, Fault, Pointer, Scalar, Value, kind_of, reason_of, size_of,
};
