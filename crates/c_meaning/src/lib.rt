//! What a core program means: the runs of the language. `specs/Meaning.antt` gives each form its meaning
//! by structure, `run_of` the run of a program as a tree of what it asks the heap for, and `meaning` the
//! output, the end and the requests for a list of answers. `specs/Log.antt` says which logs of the heap are
//! logs of a run, over the legal histories of `range_heap`. `specs/Sorted.antt` says that a well-formed
//! program's expressions give values of their sorts. The functions here are laws of these
//! definitions, and worked examples by computation.
#![tactic(auto)]

mod examples;
mod laws;
mod log;
mod operands;

pub use examples::{
    allocation_examples, call_examples, end_examples, more_traps, operand_examples,
    request_examples, run_examples, sort_examples, text_examples, trap_examples,
    well_formed_examples,
};
pub use laws::{answer_law, depth_law, one_run, sort_law};
pub use log::{Flow, LogEntry};
pub use operands::{is_null, number_in, pointer_in};
