//! Laws of what a core program means, over the definitions of `c_meaning`: functions whose contracts state
//! them, each under a name in `specs/`. `specs/Exists.antt`: every program has a run. `specs/Numbers.antt`:
//! numbers of functions stay those of the program. `specs/Retag.antt` has the core of a program whose
//! allocation sites are tagged, and `specs/Tagged.antt` says that tags change nothing in a run;
//! `specs/Told.antt` says what of a run decides its log, and `specs/Spans.antt` that places in the text
//! change nothing but the place of a trap.
#![tactic(auto)]

mod laws;

pub use laws::{
    numbers_stay, places_change_nothing, run_exists, tags_change_nothing, tokens_decide,
};
