//! A unit that keeps all rules, with what is known of it: its types by number, what each node has (types,
//! conversions, bindings, constants), its objects and its functions. `specs/Found` says what is kept and how
//! it is seen in the words of the rules, `specs/Told` what is known of a node, an object or a function.
#![tactic(auto)]

mod checked;
mod notes;

pub use checked::Checked;
pub use notes::Notes;
