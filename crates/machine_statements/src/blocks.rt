//! The statements of a block.

ghost use Rattle.std.specs.Prelude.{◌≡◌, ℕ, suc, List, IfOk};
ghost use Rattle.c_core.specs.Tree as t;
ghost use Rattle.c_core.specs.Tree.{Program};
ghost use Rattle.c_core.specs.View.{maybe_stmt_of, stmt_of, stmts_of};
ghost use Rattle.c_meaning.specs.World.{State};
ghost use Rattle.machine_frames.specs.Held.{IsGivenFlow, IsGivenTurned};
ghost use Rattle.machine_frames.specs.Views.{next_of, stacks_of};
ghost use Rattle.machine_frames.specs.declared.state.Rest as a_rest;
ghost use Rattle.machine_steps.specs.Frames as machine;
ghost use Rattle.machine_steps.specs.Steps as steps;
ghost use Rattle.std.specs.Option.{option_copied};

use c_core::{End, Stmt};
use c_meaning::Flow;
use machine_frames::{Control, Frame, Stacks, StmtWait, Turned};
use tok_base::NoMemory;

/// A block begins: its objects are made, and its first statement begins.
pub fn block_begins<'a>(
    x: &'a Stmt,
    objects: &'a [(u32, u64)],
    statements: &'a [Stmt],
    stacks: &mut Stacks<'a>,
) -> Result<Turned<'a>, NoMemory>
    requires { stmt_of x.now ≡ t.Block objects.now (stmts_of statements.now) }
    ensures run { IfOk result (λ t. (c : Program) (marks : ℕ → ℕ) (r : a_rest.Rest) (s : State) → next_of t (stacks_of stacks.new.frames.items stacks.new.values.items r) s ≡ steps.beginning c marks (stmt_of x.entry.now) (stacks_of stacks.old.frames.items stacks.old.values.items r) s) }
    ensures given { IfOk result (λ t. (sizes : List ℕ) → IsGivenTurned sizes t) }
    ensures values { stacks.new.values.items ≡ stacks.old.values.items }
{
    match statements.first() {
        Some(statement) => {
            stacks.wait(Frame::OfStmt(x, StmtWait::Listed(0)))?;
            Ok(Turned::Open(objects, Some(statement)))
        }
        None => Ok(Turned::Open(objects, None)),
    }
}

/// The statement of a list with a number, where there is one.
fn stmt_at(list: &[Stmt], number: u32) -> Option<&Stmt>
    ensures { maybe_stmt_of (option_copied result) ≡ machine.stmt_at number (stmts_of list.now) }
{
    list.get(number as usize)
}

/// The statement of a block with a number begins, or the block ends, where there is none.
pub fn next_listed<'a>(
    x: &'a Stmt,
    objects: &'a [(u32, u64)],
    statements: &'a [Stmt],
    number: u32,
    stacks: &mut Stacks<'a>,
) -> Result<Turned<'a>, NoMemory>
    requires { stmt_of x.now ≡ t.Block objects.now (stmts_of statements.now) }
    ensures run { IfOk result (λ t. (c : Program) (marks : ℕ → ℕ) (r : a_rest.Rest) (s : State) → next_of t (stacks_of stacks.new.frames.items stacks.new.values.items r) s ≡ steps.next_listed c marks (stmt_of x.entry.now) number (stacks_of stacks.old.frames.items stacks.old.values.items r) s) }
    ensures given { IfOk result (λ t. (sizes : List ℕ) → IsGivenTurned sizes t) }
    ensures values { stacks.new.values.items ≡ stacks.old.values.items }
{
    match stmt_at(statements, number) {
        Some(statement) => {
            stacks.wait(Frame::OfStmt(x, StmtWait::Listed(number)))?;
            Ok(Turned::On(Control::Begin(statement)))
        }
        None => Ok(Turned::Close(objects, Flow::Next)),
    }
}

/// A statement of a block ended.
#[tactic(auto, using(crate::proofs::Listed::stmt_views))]
pub fn listed_ended<'a>(
    x: &'a Stmt,
    number: u32,
    flow: Flow,
    stacks: &mut Stacks<'a>,
) -> Result<Turned<'a>, NoMemory>
    ensures run { IfOk result (λ t. (c : Program) (marks : ℕ → ℕ) (r : a_rest.Rest) (s : State) → next_of t (stacks_of stacks.new.frames.items stacks.new.values.items r) s ≡ steps.listed_ended c marks (stmt_of x.entry.now) number flow (stacks_of stacks.old.frames.items stacks.old.values.items r) s) }
    ensures given { IfOk result (λ t. (sizes : List ℕ) → IsGivenFlow sizes flow → IsGivenTurned sizes t) }
    ensures values { stacks.new.values.items ≡ stacks.old.values.items }
{
    match x {
        Stmt::Block(objects, statements) => {
            list_goes_on(
                x,
                objects.as_slice(),
                statements.as_slice(),
                number,
                flow,
                stacks,
            )
        }
        Stmt::Expr(_) | Stmt::Init(_, _, _) | Stmt::If(_, _, _) | Stmt::Loop(_, _, _, _) => {
            Ok(Turned::Over(End::Spent))
        }
        Stmt::Break | Stmt::Continue | Stmt::Return(_) => Ok(Turned::Over(End::Spent)),
    }
}

/// What follows a statement of a block.
fn list_goes_on<'a>(
    x: &'a Stmt,
    objects: &'a [(u32, u64)],
    statements: &'a [Stmt],
    number: u32,
    flow: Flow,
    stacks: &mut Stacks<'a>,
) -> Result<Turned<'a>, NoMemory>
    requires { stmt_of x.now ≡ t.Block objects.now (stmts_of statements.now) }
    ensures run { IfOk result (λ t. (c : Program) (marks : ℕ → ℕ) (r : a_rest.Rest) (s : State) → next_of t (stacks_of stacks.new.frames.items stacks.new.values.items r) s ≡ steps.listed_ended c marks (stmt_of x.entry.now) number flow (stacks_of stacks.old.frames.items stacks.old.values.items r) s) }
    ensures given { IfOk result (λ t. (sizes : List ℕ) → IsGivenFlow sizes flow → IsGivenTurned sizes t) }
    ensures values { stacks.new.values.items ≡ stacks.old.values.items }
{
    match flow {
        Flow::Next => { next_behind(x, objects, statements, number, stacks) }
        Flow::Broke => Ok(Turned::Close(objects, Flow::Broke)),
        Flow::Continued => Ok(Turned::Close(objects, Flow::Continued)),
        Flow::Returned(value) => Ok(Turned::Close(objects, Flow::Returned(value))),
    }
}

/// The statement of a block behind the one with a number.
fn next_behind<'a>(
    x: &'a Stmt,
    objects: &'a [(u32, u64)],
    statements: &'a [Stmt],
    number: u32,
    stacks: &mut Stacks<'a>,
) -> Result<Turned<'a>, NoMemory>
    requires { stmt_of x.now ≡ t.Block objects.now (stmts_of statements.now) }
    ensures run { IfOk result (λ t. (c : Program) (marks : ℕ → ℕ) (r : a_rest.Rest) (s : State) → next_of t (stacks_of stacks.new.frames.items stacks.new.values.items r) s ≡ steps.next_listed c marks (stmt_of x.entry.now) (suc number) (stacks_of stacks.old.frames.items stacks.old.values.items r) s) }
    ensures given { IfOk result (λ t. (sizes : List ℕ) → IsGivenTurned sizes t) }
    ensures values { stacks.new.values.items ≡ stacks.old.values.items }
{
    match number.checked_add(1) {
        Some(next) => { next_listed(x, objects, statements, next, stacks) }
        None => Err(NoMemory),
    }
}
