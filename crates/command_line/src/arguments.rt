//! From the arguments of the process to the words of the program, and from its status to the exit status.

ghost use Rattle.std.specs.Prelude.{◌≡◌, drop, map, string_bytes, IfOk};
ghost use Rattle.std.specs.Process.{exit_status};
ghost use Rattle.std.specs.Vec.Iter.{into_iter_items};
ghost use Rattle.tok_base.specs.Status.{code_of};
ghost use Rattle.command_line.specs.Arguments.{GivesWords};

use std::alloc::Global;
use std::env::Args;
use std::io;
use std::io::ErrorKind;
use std::process::ExitCode;
use tok_base::{Bytes, Items, NoMemory, Status};

/// The bytes of each argument but the first.
fn behind_name(alloc: Global, args: Args) -> Result<Items<Bytes>, NoMemory>
    ensures { IfOk result (λ words. words ≡ map string_bytes (drop 1 (into_iter_items args))) }
{
    let mut args = args;
    let mut words = Items::new(alloc);
    if args.next().is_none() {
        return Ok(words);
    }
    for arg in args {
        let word = Items::from_slice(alloc, arg.as_bytes())?;
        words.push(word)?;
    }
    Ok(words)
}

/// The words that the program is run on, where `args` is what the process was given: the bytes of each argument
/// behind the first, which is the program's name, in their order. There are none where an argument is not UTF-8.
pub fn words_of(alloc: Global, args: io::Result<Args>) -> Result<Items<Bytes>, NoMemory>
    ensures { IfOk result (GivesWords args) }
{
    match args {
        Ok(args) => behind_name(alloc, args),
        Err(error) => {
            if error.kind() == ErrorKind::OutOfMemory {
                Err(NoMemory)
            } else {
                Ok(Items::new(alloc))
            }
        }
    }
}

/// The exit status of a program that ended so: its number, whole.
pub fn exit_of(status: &Status) -> ExitCode
    ensures { exit_status result ≡ code_of status.now }
{
    ExitCode::from(status.code())
}
