//! Cases of traces: each line of standard input is a text, and its line of standard output is what it comes to.
//!
//! In a text `|` stands for a line end, `~` for a carriage return and `^` for a byte 0. A broken trace is answered by
//! its first broken line and the rule; a whole one by its text as it is written again, its phases and the report of
//! its replay. A line `repeat!N!FRONT!PIECE` is the text of FRONT and N times PIECE, and `names!N` that of N
//! allocations; of these only the numbers of events, phases and bytes of the report are told. A line that begins
//! with `#` is a title, and is printed as it stands.
#![tactic(auto)]

mod told;

use std::alloc::Global;
use std::io;
use tok_base::NoMemory;
use told::{long, whole};

/// The byte that a byte of a line stands for.
fn meant(b: u8) -> u8 {
    match b {
        b'|' => b'\n',
        b'~' => b'\r',
        b'^' => 0,
        other => other,
    }
}

/// The bytes of a text.
fn text_of(alloc: Global, line: &str) -> Result<Vec<u8>, NoMemory> {
    let mut text = Vec::new(alloc);
    for b in line.as_bytes() {
        text.extend_from_slice(&[meant(*b)])?;
    }
    Ok(text)
}

/// A front and a piece so many times.
fn repeated(alloc: Global, count: u64, front: &str, piece: &str) -> Result<Vec<u8>, NoMemory> {
    let mut text = text_of(alloc, front)?;
    let piece = text_of(alloc, piece)?;
    for _ in 0..count {
        text.extend_from_slice(piece.as_slice())?;
    }
    Ok(text)
}

/// So many allocations of 16 bytes.
fn names(alloc: Global, count: u64) -> Result<Vec<u8>, NoMemory> {
    let mut text = Vec::from_slice(
        alloc,
        b"alloctoken-trace 1\nranges 1 1048576\nmode random\nworkers 1\n",
    )?;
    for name in 0..count {
        let line = format!(in alloc; "a 0 {name} 0 16\n")?;
        text.extend_from_slice(line.as_bytes())?;
    }
    Ok(text)
}

/// What stands on the line of a case.
fn answer(alloc: Global, line: &str) -> Result<String, NoMemory> {
    if line.starts_with('#') {
        return Ok(String::from_str(alloc, line)?);
    }
    let mut words = line.split('!');
    match words.next().unwrap_or("") {
        "names" => {
            let count = words.next().unwrap_or("").parse().unwrap_or(0);
            long(alloc, names(alloc, count)?.as_slice())
        }
        "repeat" => {
            let count = words.next().unwrap_or("").parse().unwrap_or(0);
            let front = words.next().unwrap_or("");
            let piece = words.next().unwrap_or("");
            long(alloc, repeated(alloc, count, front, piece)?.as_slice())
        }
        _ => whole(alloc, text_of(alloc, line)?.as_slice()),
    }
}

fn no_memory(_: NoMemory) -> io::Error {
    io::Error::from(io::ErrorKind::OutOfMemory)
}

fn main(rt: HostRuntime) -> io::Result<()> {
    let alloc = rt.alloc();
    for line in rt.lines(alloc) {
        let line = line?;
        let text = answer(alloc, line.as_str()).map_err(no_memory)?;
        println!(rt; "{text}")?;
    }
    Ok(())
}
