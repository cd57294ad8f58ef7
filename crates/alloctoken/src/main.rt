//! The program `alloctoken`: it rewrites C text so that each allocation call carries its token. Its top call is
//! `alloctoken_main`, over files and sinks that it is handed; `specs/Course.antt` says what it does. `exit_code` is
//! what `main` does with the arguments and the streams of the process.
#![tactic(auto)]

mod course;
mod exit;
mod run;

pub use exit::exit_code;
pub use run::alloctoken_main;
use std::env;
use std::process::ExitCode;
use tok_base::{RealFiles, RealSink};

#[cfg(test)]
mod tests;

fn main(rt: HostRuntime) -> ExitCode {
    let mut files = RealFiles::new(&rt);
    let mut out = RealSink::new(rt.stdout());
    let mut report = RealSink::new(rt.stderr());
    exit_code(
        rt.alloc(),
        env::args(&rt),
        &mut files,
        &mut out,
        &mut report,
    )
}
