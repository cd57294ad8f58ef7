//! Checks the table of types on the lines of standard input: each is a case, whose words make types on a
//! stack and ask of them what is printed, in one line. A word is a name, and for some a colon and an
//! argument; words between `repeat:N` and `;` are done so many times.
#![tactic(auto)]

mod ask;
mod machine;
mod make;
mod premises;
mod records;

use std::io;

fn main(rt: HostRuntime) -> io::Result<()> {
    for line in rt.lines(rt.alloc()) {
        let text = machine::answer(rt.alloc(), line?.as_str())?;
        println!(rt; "{text}")?;
    }
    Ok(())
}
