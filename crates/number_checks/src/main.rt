//! Cases of integers, hashes and tokens: each line of standard input is a call, and its line of standard output is
//! the answer that is wanted.
//!
//! `hash` and `cut` ask for hashes (src/hashes), `token` and `mode` for the tokens of sites (src/modes), `laws`
//! calls the laws of both, and all others ask for sums, shifts and kinds (src/integers). A line that begins with
//! `#` is a title, and is printed as it stands.
#![tactic(auto)]

mod hashes;
mod integers;
mod modes;

use sip24::published_values;
use std::alloc::{AllocError, Global};
use std::io;
use token_modes::typed_sites_keep_their_half;

/// The laws of hashes and tokens can be called.
fn laws(alloc: Global) -> Result<String, AllocError> {
    published_values();
    typed_sites_keep_their_half();
    String::from_str(alloc, "called")
}

/// What stands on the line of a case: the name of the call, and what it is given.
fn answer(alloc: Global, line: &str) -> Result<String, AllocError> {
    if line.starts_with('#') {
        return String::from_str(alloc, line);
    }
    let (call, given) = line.split_once(' ').unwrap_or((line, ""));
    match call {
        "hash" => hashes::of_count(alloc, given),
        "cut" => hashes::of_two(alloc, given),
        "mode" => modes::named(alloc, given),
        "token" => modes::token(alloc, given),
        "laws" => laws(alloc),
        _ => integers::answer(alloc, call, given),
    }
}

fn main(rt: HostRuntime) -> io::Result<()> {
    let alloc = rt.alloc();
    for line in rt.lines(alloc) {
        let text = answer(alloc, line?.as_str())?;
        println!(rt; "{text}")?;
    }
    Ok(())
}
