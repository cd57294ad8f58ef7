//! What the machine does next, and what waits.

use c_core::{End, Expr, LibMark, Stmt, Value};
use c_meaning::Flow;
use tok_base::Span;

/// What the machine is about to do.
#[derive(Clone, Copy)]
pub enum Control<'a> {
    /// An expression is evaluated.
    Eval(&'a Expr),
    /// A value is given to what waits for it.
    Give(Value),
    /// A statement begins.
    Begin(&'a Stmt),
    /// What waits is told how a statement ended.
    Went(Flow),
}

/// For which value a part of an expression waits.
#[derive(Clone, Copy, Debug, PartialEq, Eq)]
pub enum ExprWait {
    /// For that of its first part.
    First,
    /// For that of its second part; the topmost value is that of the first.
    Second,
    /// For the argument with this number; those before it are the topmost values.
    Argument(u32),
}

/// For what a part of a statement waits.
#[derive(Clone, Copy, Debug, PartialEq, Eq)]
pub enum StmtWait {
    /// For the item of an initialiser with this number.
    Item(u32),
    /// For the condition of an `if`.
    Branch,
    /// For the condition of a loop.
    Test,
    /// For the end of its body.
    Turn,
    /// For the value of its third clause.
    Step,
    /// For the end of the statement of a block with this number.
    Listed(u32),
}

/// A function that runs: the sizes of its parameters, whether it is `main`, whether its value is used, the span
/// of its call, and where the caller's locals begin.
#[derive(Clone, Copy)]
pub struct Leaving<'a> {
    pub params: &'a [u32],
    pub is_main: bool,
    pub used: bool,
    pub span: Span,
    pub base: u32,
}

/// What waits, with the tree that it is a part of.
#[derive(Clone, Copy)]
pub enum Frame<'a> {
    OfExpr(&'a Expr, ExprWait),
    OfStmt(&'a Stmt, StmtWait),
    /// For the value whose truth is the value of the whole.
    AsTruth,
    /// For the value of an expression statement.
    Done,
    /// For the value that a `return` gives.
    GiveBack,
    /// For the end of a function's body.
    Leave(Leaving<'a>),
}

/// A call of a library function; its arguments are the topmost values.
#[derive(Clone, Copy, Debug, PartialEq, Eq)]
pub struct LibraryCall {
    /// Its number.
    pub function: u32,
    pub span: Span,
    pub mark: LibMark,
    /// How many arguments there are.
    pub args: u32,
    /// Whether the called value stands below them.
    pub through: bool,
}

/// A call of a function with a body; its arguments are the topmost values.
#[derive(Clone, Copy)]
pub struct Entering<'a> {
    pub body: &'a Stmt,
    /// The sizes of the parameters.
    pub params: &'a [u32],
    pub is_main: bool,
    /// Whether the value of the call is used.
    pub used: bool,
    pub span: Span,
    /// How many arguments there are.
    pub args: u32,
    /// Whether the called value stands below them.
    pub through: bool,
}

/// What a step leads to.
#[derive(Clone, Copy)]
pub enum Turned<'a> {
    /// The machine goes on.
    On(Control<'a>),
    /// The run is over.
    Over(End),
    /// A library function is called, and its value goes to what waits. The arguments are still on the stack.
    Library(LibraryCall),
    /// A function's parameters are made, and its body begins. The arguments are still on the stack.
    Enter(Entering<'a>),
    /// The objects of a block are made, and its first statement begins; without one they die, and the block ends.
    Open(&'a [(u32, u64)], Option<&'a Stmt>),
    /// The objects of a block die, and what waits is told how it ended.
    Close(&'a [(u32, u64)], Flow),
    /// A function's parameters die, the caller's locals are there again, and what waits is given the function's value.
    Leave(Leaving<'a>, Flow),
}
