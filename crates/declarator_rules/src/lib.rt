//! Rules 4, 5, 6 and 8: the layers of a declarator, and the type that they make (ISO/IEC 9899:2018, 6.7.6).
//! A declarator that breaks 4 or 5 makes no type; `Built` says so, and which of the two it breaks.
#![tactic(auto)]

mod arrays;
mod built;
mod judging;
mod layering;
mod layers;
mod lengths;
mod making;
mod members;
mod used;

pub use built::{Built, Made, Oversized};
pub use judging::{declares, judge_built, judge_type, makes_function, note_nameless};
pub use layering::build;
pub use layers::{Laid, Layer};
pub use lengths::sized;
pub use members::{all_differ, ends_well, is_open_struct};
pub use used::build_used;
