//! Cases of the heap: each line of standard input is a call, and its line of standard output is the answer.
//!
//! Lines that begin with `ranges` ask the ranges of all tokens (src/ranges), those with `holes` the holes of one
//! range (src/holes). `alike` compares the two forms of holes, and `alone` asks one range by itself. A line
//! that begins with `#` is a title, and is printed as it stands.
#![tactic(auto)]

mod alike;
mod alone;
mod holes;
mod listed;
mod mix;
mod noted;
mod numbers;
mod ranges;

use alike::alike;
use alone::alone;
use holes::holes_answer;
use noted::Noted;
use numbers::numbers_of;
use range_heap::Ranges;
use ranges::ranges_answer;
use std::alloc::Global;
use std::io;
use tok_base::NoMemory;

/// A number, or `none`.
fn shown(alloc: Global, answer: Option<u64>) -> Result<String, NoMemory> {
    match answer {
        Some(number) => Ok(format!(in alloc; "{number}")?),
        None => Ok(String::from_str(alloc, "none")?),
    }
}

/// What stands on the line of a call.
fn answer(
    alloc: Global,
    ranges: &mut Ranges,
    holes: &mut Noted,
    line: &str,
) -> Result<String, NoMemory> {
    let mut words = line.split(' ');
    let subject = words.next().unwrap_or("");
    let command = words.next().unwrap_or("");
    let numbers = numbers_of(words.next(), words.next(), words.next());
    match subject {
        "ranges" => shown(alloc, ranges_answer(alloc, ranges, command, &numbers)?),
        "holes" => shown(alloc, holes_answer(alloc, holes, command, &numbers)?),
        "alike" => shown(alloc, Some(alike(alloc)?)),
        "alone" => alone(alloc),
        _ => Ok(String::from_str(alloc, line)?),
    }
}

fn no_memory(_: NoMemory) -> io::Error {
    io::Error::from(io::ErrorKind::OutOfMemory)
}

fn main(rt: HostRuntime) -> io::Result<()> {
    let alloc = rt.alloc();
    let mut ranges = Ranges::new(alloc, 1, 16).map_err(no_memory)?;
    let mut holes = Noted::new(alloc, 16).map_err(no_memory)?;
    for line in rt.lines(alloc) {
        let line = line?;
        let text = answer(alloc, &mut ranges, &mut holes, line.as_str()).map_err(no_memory)?;
        println!(rt; "{text}")?;
    }
    Ok(())
}
