//! Laws of the machine: empty functions whose contracts state them.

ghost use Rattle.machine_steps.specs.Laws.{StartsAgree, StepsAgree};
ghost use Rattle.machine_steps.specs.Measure.{StepsFall, TicksFall};

/// Each step of the machine does what the meaning says, and so does its beginning.
pub fn steps_agree()
    ensures step { StepsAgree }
    ensures start { StartsAgree }
{}

/// The machine comes to an end: what is left to do becomes less with each step, and ticks don't become more.
pub fn steps_fall()
    ensures less { StepsFall }
    ensures ticks { TicksFall }
{}
