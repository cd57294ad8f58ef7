//! The program `tokenreplay`: it replays a trace of allocations on the heap of ranges, and writes what came of it.
//! Its top call is `replay_main`, over files and sinks that it is handed; `specs/Course.antt` says what it does.
//! `exit_code` is what `main` does with the arguments and the streams of the process.
#![tactic(auto)]

mod course;
mod exit;
mod run;

pub use exit::exit_code;
pub use run::replay_main;
use std::env;
use std::process::ExitCode;
use tok_base::{NoGate, RealFiles, RealSink};

#[cfg(test)]
mod tests;

fn main(rt: HostRuntime) -> ExitCode {
    let mut files = RealFiles::new(&rt);
    let mut out = RealSink::new(rt.stdout());
    let mut report = RealSink::new(rt.stderr());
    exit_code(
        &rt,
        rt.alloc(),
        env::args(&rt),
        &mut files,
        &mut out,
        &mut report,
        &NoGate,
    )
}
