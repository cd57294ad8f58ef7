//! Asks both forms of memory, call by call. Each line of standard input is a call, and its line of standard
//! output has the answer that the definitions of access give by hand; where the forms answer differently,
//! it says so. The line `random` makes 100,000 calls drawn at random. A line that begins with `#` is a title.
#![tactic(auto)]

mod ask;
mod call;
mod draw;
mod forms;
mod given;
mod words;

use draw::draw;
use forms::Forms;
use std::alloc::Global;
use std::io;
use tok_base::NoMemory;
use words::call_of;

fn answer(alloc: Global, forms: &mut Forms, line: &str) -> Result<String, NoMemory> {
    let mut rest = line.split(' ');
    let words = [
        rest.next().unwrap_or(""),
        rest.next().unwrap_or(""),
        rest.next().unwrap_or(""),
        rest.next().unwrap_or(""),
        rest.next().unwrap_or(""),
        rest.next().unwrap_or(""),
        rest.next().unwrap_or(""),
        rest.next().unwrap_or(""),
    ];
    match call_of(&words) {
        Some(call) => match forms.ask(call) {
            Some(answer) => Ok(format!(in alloc; "{line}: {answer:?}")?),
            None => Ok(format!(in alloc; "{line}: the forms differ")?),
        },
        None => Ok(String::from_str(alloc, line)?),
    }
}

fn drawn(alloc: Global) -> Result<String, NoMemory> {
    let tally = draw(alloc)?;
    let many = tally.made >= 50000;
    Ok(format!(in alloc;
        "random: {} of {} calls alike, at least half of them made: {}",
        tally.alike, tally.calls, many
    )?)
}

fn no_memory(_: NoMemory) -> io::Error {
    io::Error::from(io::ErrorKind::OutOfMemory)
}

fn main(rt: HostRuntime) -> io::Result<()> {
    let alloc = rt.alloc();
    let mut forms = Forms::new(alloc).map_err(no_memory)?;
    for line in rt.lines(alloc) {
        let line = line?;
        let text = match line.as_str() {
            "random" => drawn(alloc).map_err(no_memory)?,
            other => answer(alloc, &mut forms, other).map_err(no_memory)?,
        };
        println!(rt; "{text}")?;
    }
    Ok(())
}
