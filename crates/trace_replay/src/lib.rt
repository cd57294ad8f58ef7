//! Replays of traces: what the heap answers to the events of a trace, and the report of it.
//!
//! `replay_alone` makes the events of a trace in their order, on one heap for each range, and gives the history of
//! each range: legal, and just what the events of the trace ask for (specs/Due, specs/Replayed). `report_text` writes
//! the report of histories (specs/Report), which determines them (specs/Laws). Time grows with the trace, and with
//! what the heap takes for each of its events.
#![tactic(auto)]

mod counts;
mod histories;
mod laws;
mod replay;
mod report;
mod tables;

pub use histories::Histories;
pub use laws::{a_trace_has_one_replay, reports_determine_histories};
pub use replay::replay_alone;
pub use report::report_text;
