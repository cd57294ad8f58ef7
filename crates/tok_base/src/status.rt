//! How a program ends.

ghost use Rattle.std.specs.Prelude.{◌≡◌};
ghost use Rattle.tok_base.specs.Status.{code_of, code_of_fault, status_of};

use crate::reason::Reason;
use crate::token::Span;

/// What is too long.
#[derive(Clone, Copy, Debug, PartialEq, Eq)]
pub enum Which {
    /// The text of a unit, which has at most 1,048,576 bytes, or a trace, which has at most 67,108,864.
    Unit,
    /// What a program that is run may read, at most 16,777,216 bytes.
    Input,
}

/// The rule that a line of a trace breaks. They are tried in this order.
#[derive(Clone, Copy, Debug, PartialEq, Eq)]
pub enum TraceRule {
    /// There are too many events.
    Many,
    /// The line has not the shape that its place asks for.
    Form,
    /// A number of the line is outside the range that it may have.
    Range,
    /// An allocation's name is not the number of allocations before it.
    Name,
    /// What is freed was never allocated, or was freed before.
    Freed,
}

/// Why one of several units is refused. Each stands for the status of that name.
#[derive(Clone, Copy, Debug, PartialEq, Eq)]
pub enum UnitFault {
    /// The text of the unit is too long.
    TooLong,
    /// The text has neither a token nor a separator at this byte.
    Lex(u32),
    /// So many of the tokens begin a unit, and with the next they begin none.
    Syntax(u32),
    /// The nodes of the unit nest more than 200 deep.
    TooDeep,
    /// The unit breaks the rule of this number there.
    Check(u32, Span),
    /// A name that is kept for the rewritten text is declared there.
    ReservedName(Span),
    /// A token is asked for there, in a mode in which a token depends on what came before.
    Stateful(Span),
}

/// What a run of a program came to. Each has a number, the exit status.
#[derive(Clone, Copy, Debug, PartialEq, Eq)]
pub enum Status {
    /// All that was asked for is done.
    Done,
    /// The words of the command line are none that the program takes.
    Usage,
    /// A file could not be read.
    FileFault,
    /// The input could not be read.
    ReadFault,
    /// A write failed.
    WriteFault,
    /// The text of the unit, or the input, is too long.
    TooLong(Which),
    /// The text has neither a token nor a separator at this byte.
    Lex(u32),
    /// The tokens are no unit's. So many of them begin one, and with the next they begin none.
    Syntax(u32),
    /// The unit breaks the rule of this number there.
    Check(u32, Span),
    /// There was no memory.
    NoMemory,
    /// The program that was run did there what has no defined meaning.
    Trap(Reason, Span),
    /// The program that was run used up its steps.
    Spent,
    /// The objects of the program that was run found no room.
    StackFull,
    /// The program that was run wrote more than it may.
    OutputFull,
    /// The nodes of the unit nest more than 200 deep.
    TooDeep,
    /// A name that is kept for the rewritten text is declared there.
    ReservedName(Span),
    /// A token is asked for there, in a mode in which a token depends on what came before.
    Stateful(Span),
    /// The line of this number, from 1, breaks a rule of traces, and this is the first that it breaks.
    BadTrace(u32, TraceRule),
    /// The unit of this number, from 0, is refused so.
    InUnit(u32, UnitFault),
    /// The unit of this number, from 0, gives a name there that does not agree with an earlier unit's.
    Clash(u32, Span),
    /// No unit has the function that a program begins with.
    NoMain,
    /// A store begins in no live block.
    NoBlock,
}

impl UnitFault {
    /// The status of a unit that is refused so on its own.
    pub fn status(&self) -> Status
        ensures { result ≡ status_of self.now }
    {
        match self {
            UnitFault::TooLong => Status::TooLong(Which::Unit),
            UnitFault::Lex(place) => Status::Lex(*place),
            UnitFault::Syntax(place) => Status::Syntax(*place),
            UnitFault::TooDeep => Status::TooDeep,
            UnitFault::Check(rule, span) => Status::Check(*rule, *span),
            UnitFault::ReservedName(span) => Status::ReservedName(*span),
            UnitFault::Stateful(span) => Status::Stateful(*span),
        }
    }

    /// The exit status: that of a unit that is refused so on its own.
    pub fn code(&self) -> u8
        ensures value { result ≡ code_of_fault self.now }
        ensures same { result ≡ code_of (status_of self.now) }
    {
        match self {
            UnitFault::TooLong => 6,
            UnitFault::Lex(_) => 7,
            UnitFault::Syntax(_) => 8,
            UnitFault::Check(_, _) => 9,
            UnitFault::TooDeep => 15,
            UnitFault::ReservedName(_) => 16,
            UnitFault::Stateful(_) => 17,
        }
    }
}

impl Status {
    /// The exit status.
    pub fn code(&self) -> u8
        ensures { result ≡ code_of self.now }
    {
        match self {
            Status::Done => 0,
            Status::Usage => 2,
            Status::FileFault => 3,
            Status::ReadFault => 4,
            Status::WriteFault => 5,
            Status::TooLong(_) => 6,
            Status::Lex(_) => 7,
            Status::Syntax(_) => 8,
            Status::Check(_, _) => 9,
            Status::NoMemory => 10,
            Status::Trap(_, _) => 11,
            Status::Spent => 12,
            Status::StackFull => 13,
            Status::OutputFull => 14,
            Status::TooDeep => 15,
            Status::ReservedName(_) => 16,
            Status::Stateful(_) => 17,
            Status::BadTrace(_, _) => 18,
            Status::InUnit(_, fault) => fault.code(),
            Status::Clash(_, _) => 21,
            Status::NoMain => 22,
            Status::NoBlock => 23,
        }
    }
}
