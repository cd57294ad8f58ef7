//! Worked examples, by computation.

ghost use Rattle.c_meaning.specs.Examples.{AllocationExamples, CallExamples, EndExamples, OperandRows, TrapExamples};
ghost use Rattle.c_meaning.specs.MoreExamples.{MoreAreFormed, MoreTraps, RequestExamples, RunExamples, TextExamples};
ghost use Rattle.c_meaning.specs.Formed.{CallSortExamples, NameExamples, OperandExamples, StatementExamples, ValueExamples, WorkedExamplesAreFormed};

/// Operands of both sorts.
pub fn operand_examples()
    ensures { OperandRows }
{}

/// Runs that ask for storage.
pub fn allocation_examples()
    ensures { AllocationExamples }
{}

/// Requests for zeroed and for resized storage.
pub fn request_examples()
    ensures { RequestExamples }
{}

/// Runs that read and copy bytes.
pub fn text_examples()
    ensures { TextExamples }
{}

/// Traps that the other examples don't have.
pub fn more_traps()
    ensures { MoreTraps }
{}

/// Whole runs, with their logs.
pub fn run_examples()
    ensures { RunExamples }
{}

/// Runs that use up their ticks, and runs that just don't.
pub fn end_examples()
    ensures { EndExamples }
{}

/// Runs that trap.
pub fn trap_examples()
    ensures { TrapExamples }
{}

/// Calls, and the names of the library.
pub fn call_examples()
    ensures { CallExamples }
{}

/// The programs of the other examples are well formed.
pub fn well_formed_examples()
    ensures examples { WorkedExamplesAreFormed }
    ensures more { MoreAreFormed }
{}

/// Programs that are well formed, each beside some that differ from it in one part and are not.
pub fn sort_examples()
    ensures operands { OperandExamples }
    ensures values { ValueExamples }
    ensures calls { CallSortExamples }
    ensures statements { StatementExamples }
    ensures names { NameExamples }
{}
