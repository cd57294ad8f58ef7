//! Laws of the log: empty functions whose contracts state them.

ghost use Rattle.machine_log.specs.Reached.{BeginsReached, RunsAdvance};

/// A run that begins has reached itself.
pub fn runs_begin()
    ensures { BeginsReached }
{}

/// How far a run has come, after each thing that it does; its log at the end, and before it.
pub fn runs_advance()
    ensures { RunsAdvance }
{}
