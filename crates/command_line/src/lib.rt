//! The command line of `alloctoken`: the words that its process is given, what they ask for, and the exit status.
//! `specs/Options.antt` says which lists of words the program takes, as a function of all lists; the call is
//! `options_of`.
#![tactic(auto)]

mod arguments;
mod options;

pub use arguments::{exit_of, words_of};
pub use options::{Options, option_examples, options_of};
