//! Modes by their names, and the token of site 7, whose random word is 35.
//!
//! The tokens that are wanted come from hashes by a Python program after SipHash's publication: under the key `int`
//! has fae3834633719dfe, and `node *` has d98d784c886ac815.

use crate::hashes::KEY;
use std::alloc::{AllocError, Global};
use token_modes::{Mode, Plan, token_of};

/// The mode of the name, and its name again.
pub fn named(alloc: Global, given: &str) -> Result<String, AllocError> {
    match Mode::from_name(given.as_bytes()) {
        Some(mode) => {
            let name = mode.name();
            format!(in alloc; "{mode:?} {name}")
        }
        None => String::from_str(alloc, "none"),
    }
}

/// The token under a plan of so many tokens, with this fallback.
fn planned(
    alloc: Global,
    mode: Mode,
    max: u32,
    fallback: u32,
    given: &str,
) -> Result<String, AllocError> {
    if max < 1 || 65536 < max || max <= fallback {
        return String::from_str(alloc, "no plan");
    }
    let plan = Plan {
        mode,
        max,
        fallback,
        key: KEY,
        seed: 0,
    };
    let typed = match given.split_once(' ') {
        Some(("pointer", name)) => Some((name.as_bytes(), true)),
        Some((_, name)) => Some((name.as_bytes(), false)),
        None => None,
    };
    let token = token_of(&plan, 7, 35, typed);
    format!(in alloc; "{token}")
}

/// `MODE MAX FALLBACK none`, or with `plain TYPE` or `pointer TYPE` in the place of `none`.
pub fn token(alloc: Global, given: &str) -> Result<String, AllocError> {
    let (name, rest) = given.split_once(' ').unwrap_or((given, ""));
    let (max, rest) = rest.split_once(' ').unwrap_or((rest, ""));
    let (fallback, rest) = rest.split_once(' ').unwrap_or((rest, ""));
    let Some(mode) = Mode::from_name(name.as_bytes()) else {
        return String::from_str(alloc, "none");
    };
    let max = max.parse::<u32>().unwrap_or(0);
    let fallback = fallback.parse::<u32>().unwrap_or(0);
    planned(alloc, mode, max, fallback, rest)
}
