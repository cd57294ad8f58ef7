//! Cases of the reader: each line of standard input is a C text, and its line of standard output is what the text
//! is. `tokens TEXT` gives the kind and the span of each token; `unit TEXT` gives the count of the tokens that the
//! unit spells and its text as it is printed. A text that is none gives its refusal, with its place. In a TEXT
//! `\n`, `\\` and `\xHH` stand for a byte, and `\*200(` for a byte so many times. A line that begins with `#` is a
//! title, and is printed as it stands.
#![tactic(auto)]

mod answers;
mod bytes;

use answers::{tokens_of, unit_of};
use bytes::bytes_of;
use std::alloc::{AllocError, Global};
use std::io;

/// What stands on the line of a case.
fn answer(alloc: Global, line: &str) -> Result<String, AllocError> {
    if line.starts_with('#') {
        String::from_str(alloc, line)
    } else if let Some(text) = line.strip_prefix("tokens ") {
        tokens_of(alloc, bytes_of(alloc, text)?.as_slice())
    } else if let Some(text) = line.strip_prefix("unit ") {
        unit_of(alloc, bytes_of(alloc, text)?.as_slice())
    } else {
        String::from_str(alloc, "no case")
    }
}

fn main(rt: HostRuntime) -> io::Result<()> {
    let alloc = rt.alloc();
    for line in rt.lines(alloc) {
        let text = answer(alloc, line?.as_str())?;
        println!(rt; "{text}")?;
    }
    Ok(())
}
