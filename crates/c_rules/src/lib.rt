//! The rules of the language, as definitions: what each node of a unit is tried for, in which order, and
//! what is known of it (ISO/IEC 9899:2018, 6.5 to 6.9).
//!
//! `specs/Unit` has `trials`, the list of all trials of a unit; `Trials` says what it is to keep all rules
//! and which broken rule is the first. `Expressions`, `Specifiers`, `Declarators`, `Names`, `Initialisers`
//! and `Attributes` have the rules, a line each; `Forms`, `Walk` and `Unit` say at which node each is tried.
//! The laws: the trials stand in the order of the nodes' ends (`order_law`), and a verdict is what it says
//! (`verdict_law`).
#![tactic(auto)]

mod known;
mod laws;

pub use known::{Binding, ConstantValue, Declares, Holder, Sort, TagSort};
pub use laws::{order_law, verdict_law};
