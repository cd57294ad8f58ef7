//! The machine that runs core programs, as definitions: its stacks (`specs/Frames.antt`), its steps
//! (`specs/Steps.antt`), what is still to do as the stacks say it (`specs/Rests.antt`), and the laws that a
//! step does what the meaning of a program says (`specs/Laws.antt`).
#![tactic(auto)]

mod laws;

pub use laws::{steps_agree, steps_fall};
