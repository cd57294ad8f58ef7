//! What every layer stands on: places in a text, tokens, lists, the status that a program ends with, and
//! the outside (sources, sinks and files) as traits with a written meaning and a count of faults, each with
//! an implementation in memory and one over the real thing. Beside them stand the words that take the place
//! of chance, and the gate at which a worker can be held up.
#![tactic(auto)]

mod files;
mod gate;
mod list;
mod memory;
mod real;
mod reason;
mod sink;
mod source;
mod status;
mod token;
mod words;

pub use files::{Files, ReadEnd};
pub use gate::{Gate, NoGate};
pub use list::{Bytes, Failed, NoMemory, Reserved, give_up};
pub use memory::{MemFiles, MemSink, MemSource};
pub use real::{RealFiles, RealSink, RealSource};
pub use reason::Reason;
pub use sink::{Sink, WriteEnd, write_whole};
pub use source::{Source, read_whole};
pub use sqlite_items::{Boxed, Items};
pub use status::{Status, TraceRule, UnitFault, Which};
pub use token::{Kind, Lexeme, Span, Token};
pub use words::{FixedWords, Words};
