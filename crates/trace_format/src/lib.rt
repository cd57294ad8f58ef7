//! Traces of allocations: their text, and what a well-formed one says.
//!
//! A trace is lines: four of a header, then one for each event. `read_trace` gives the trace of a text, or the
//! first line that breaks a rule with the first rule that it breaks (specs/Reading). `write_trace` gives the text
//! of a trace, which is read as that trace (specs/Laws), and `phases` cuts its events into runs in which no two
//! workers touch one name (specs/Phases). Time and memory grow with the text.
#![tactic(auto)]

mod laws;
mod lines;
mod phase;
mod reader;
mod trace;
mod writer;

pub use laws::{texts_are_read_back, trace_examples};
pub use phase::{Phase, phases};
pub use reader::read_trace;
pub use trace::{Event, Trace, TraceEnd};
pub use writer::write_trace;
