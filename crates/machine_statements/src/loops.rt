//! Choices and loops.

ghost use Rattle.std.specs.Prelude.{◌≡◌, ◌≤◌, ℕ, List, if◌then◌else◌, IfOk};
ghost use Rattle.c_core.specs.Blocks.{Blocks};
ghost use Rattle.c_core.specs.Tree.{Program};
ghost use Rattle.c_core.specs.View.{expr_of, maybe_expr_of, maybe_stmt_of, stmt_of};
ghost use Rattle.c_meaning.specs.Rules as rules;
ghost use Rattle.c_meaning.specs.declared.log.Flow.TheVariants as AFlow;
ghost use Rattle.c_meaning.specs.World.{State};
ghost use Rattle.machine_frames.specs.Held.{IsGivenFlow, IsGivenTurned};
ghost use Rattle.machine_frames.specs.Views.{next_of, stacks_of, state_of};
ghost use Rattle.machine_frames.specs.declared.state.Rest as a_rest;
ghost use Rattle.machine_steps.specs.Frames as machine;
ghost use Rattle.machine_steps.specs.Frames.{with_frame};
ghost use Rattle.machine_steps.specs.Steps as steps;
ghost use Rattle.std.specs.Option.{option_copied};

use c_core::{End, Expr, Stmt, Value};
use c_meaning::Flow;
use machine_frames::{Control, Frame, Rest, Stacks, StmtWait, Turned};
use machine_values::holds;
use tok_base::{Boxed, NoMemory};

/// The condition of an `if` has a value (6.8.4.1).
#[tactic(auto, using(crate::proofs::Listed::stmt_views))]
pub fn branching<'a>(x: &'a Stmt, value: Value) -> Turned<'a>
    ensures run { (c : Program) (marks : ℕ → ℕ) (st : machine.Stacks) (s : State) → next_of result st s ≡ steps.branching c marks (stmt_of x.entry.now) value st s }
    ensures given { (sizes : List ℕ) → IsGivenTurned sizes result }
{
    match x {
        Stmt::If(_, yes, no) => {
            if holds(value) {
                Turned::On(Control::Begin(yes.get()))
            } else {
                other(no)
            }
        }
        Stmt::Block(_, _) | Stmt::Expr(_) | Stmt::Init(_, _, _) | Stmt::Loop(_, _, _, _) => {
            Turned::Over(End::Spent)
        }
        Stmt::Break | Stmt::Continue | Stmt::Return(_) => Turned::Over(End::Spent),
    }
}

/// The other branch of an `if`.
#[inline]
fn other<'a>(no: &'a Option<Boxed<Stmt>>) -> Turned<'a>
    ensures run { (c : Program) (marks : ℕ → ℕ) (st : machine.Stacks) (s : State) → next_of result st s ≡ steps.other c marks (maybe_stmt_of no.entry.now) st s }
    ensures given { (sizes : List ℕ) → IsGivenTurned sizes result }
{
    match no {
        Some(no) => Turned::On(Control::Begin(no.get())),
        None => Turned::On(Control::Went(Flow::Next)),
    }
}

/// A turn of a loop, with its tick (6.8.5).
fn turning<'a>(
    x: &'a Stmt,
    body: &'a Stmt,
    stacks: &mut Stacks<'a>,
    rest: &mut Rest,
) -> Result<Turned<'a>, NoMemory>
    ensures run { IfOk result (λ t. (c : Program) (marks : ℕ → ℕ) (bs : Blocks) → next_of t (stacks_of stacks.new.frames.items stacks.new.values.items rest.new) (state_of bs rest.new) ≡ steps.turning c marks (stmt_of x.entry.now) (stmt_of body.entry.now) (stacks_of stacks.old.frames.items stacks.old.values.items rest.old) (state_of bs rest.old)) }
    ensures given { IfOk result (λ t. (sizes : List ℕ) → IsGivenTurned sizes t) }
    ensures values { stacks.new.values.items ≡ stacks.old.values.items }
    ensures kept { rest.new ≡ record rest.old { ticks = rest.new.ticks } }
    ensures less { rest.new.ticks ≤ rest.old.ticks }
{
    if rest.pay() {
        stacks.wait(Frame::OfStmt(x, StmtWait::Turn))?;
        Ok(Turned::On(Control::Begin(body)))
    } else {
        Ok(Turned::Over(End::Spent))
    }
}

/// The condition of a loop is evaluated.
#[inline]
fn test<'a>(
    x: &'a Stmt,
    condition: &'a Expr,
    stacks: &mut Stacks<'a>,
) -> Result<Turned<'a>, NoMemory>
    ensures run { IfOk result (λ t. (r : a_rest.Rest) (s : State) → next_of t (stacks_of stacks.new.frames.items stacks.new.values.items r) s ≡ machine.On (machine.Eval (expr_of condition.entry.now)) (with_frame (machine.Test (stmt_of x.entry.now)) (stacks_of stacks.old.frames.items stacks.old.values.items r)) s) }
    ensures given { IfOk result (λ t. (sizes : List ℕ) → IsGivenTurned sizes t) }
    ensures values { stacks.new.values.items ≡ stacks.old.values.items }
{
    stacks.wait(Frame::OfStmt(x, StmtWait::Test))?;
    Ok(Turned::On(Control::Eval(condition)))
}

/// A loop begins: with its condition, or with its body (6.8.5.1, 6.8.5.2).
pub fn looping<'a>(
    x: &'a Stmt,
    test_first: bool,
    condition: &'a Expr,
    body: &'a Stmt,
    stacks: &mut Stacks<'a>,
    rest: &mut Rest,
) -> Result<Turned<'a>, NoMemory>
    ensures run { IfOk result (λ t. (c : Program) (marks : ℕ → ℕ) (bs : Blocks) → next_of t (stacks_of stacks.new.frames.items stacks.new.values.items rest.new) (state_of bs rest.new) ≡ steps.looping c marks test_first (stmt_of x.entry.now) (expr_of condition.entry.now) (stmt_of body.entry.now) (stacks_of stacks.old.frames.items stacks.old.values.items rest.old) (state_of bs rest.old)) }
    ensures given { IfOk result (λ t. (sizes : List ℕ) → IsGivenTurned sizes t) }
    ensures values { stacks.new.values.items ≡ stacks.old.values.items }
    ensures kept { rest.new ≡ record rest.old { ticks = rest.new.ticks } }
    ensures less { rest.new.ticks ≤ rest.old.ticks }
{
    if test_first {
        test(x, condition, stacks)
    } else {
        turning(x, body, stacks, rest)
    }
}

/// The condition of a loop has a value.
#[tactic(auto, using(crate::proofs::Listed::stmt_views))]
pub fn testing<'a>(
    x: &'a Stmt,
    value: Value,
    stacks: &mut Stacks<'a>,
    rest: &mut Rest,
) -> Result<Turned<'a>, NoMemory>
    ensures run { IfOk result (λ t. (c : Program) (marks : ℕ → ℕ) (bs : Blocks) → next_of t (stacks_of stacks.new.frames.items stacks.new.values.items rest.new) (state_of bs rest.new) ≡ steps.testing c marks (stmt_of x.entry.now) value (stacks_of stacks.old.frames.items stacks.old.values.items rest.old) (state_of bs rest.old)) }
    ensures given { IfOk result (λ t. (sizes : List ℕ) → IsGivenTurned sizes t) }
    ensures values { stacks.new.values.items ≡ stacks.old.values.items }
    ensures kept { rest.new ≡ record rest.old { ticks = rest.new.ticks } }
    ensures less { rest.new.ticks ≤ rest.old.ticks }
{
    match x {
        Stmt::Loop(_, _, _, body) => { tested(x, body.get(), value, stacks, rest) }
        Stmt::Block(_, _) | Stmt::Expr(_) | Stmt::Init(_, _, _) | Stmt::If(_, _, _) => {
            Ok(Turned::Over(End::Spent))
        }
        Stmt::Break | Stmt::Continue | Stmt::Return(_) => Ok(Turned::Over(End::Spent)),
    }
}

/// A turn, where the condition holds.
#[inline]
fn tested<'a>(
    x: &'a Stmt,
    body: &'a Stmt,
    value: Value,
    stacks: &mut Stacks<'a>,
    rest: &mut Rest,
) -> Result<Turned<'a>, NoMemory>
    ensures run { IfOk result (λ t. (c : Program) (marks : ℕ → ℕ) (bs : Blocks) → next_of t (stacks_of stacks.new.frames.items stacks.new.values.items rest.new) (state_of bs rest.new) ≡ (if rules.holds value then steps.turning c marks (stmt_of x.entry.now) (stmt_of body.entry.now) (stacks_of stacks.old.frames.items stacks.old.values.items rest.old) (state_of bs rest.old) else machine.On (machine.Went AFlow.Next) (stacks_of stacks.old.frames.items stacks.old.values.items rest.old) (state_of bs rest.old))) }
    ensures given { IfOk result (λ t. (sizes : List ℕ) → IsGivenTurned sizes t) }
    ensures values { stacks.new.values.items ≡ stacks.old.values.items }
    ensures kept { rest.new ≡ record rest.old { ticks = rest.new.ticks } }
    ensures less { rest.new.ticks ≤ rest.old.ticks }
{
    if holds(value) {
        turning(x, body, stacks, rest)
    } else {
        Ok(Turned::On(Control::Went(Flow::Next)))
    }
}

/// The third clause of a `for` has a value (6.8.5.3).
#[tactic(auto, using(crate::proofs::Listed::stmt_views))]
pub fn testing_next<'a>(x: &'a Stmt, stacks: &mut Stacks<'a>) -> Result<Turned<'a>, NoMemory>
    ensures run { IfOk result (λ t. (c : Program) (marks : ℕ → ℕ) (r : a_rest.Rest) (s : State) → next_of t (stacks_of stacks.new.frames.items stacks.new.values.items r) s ≡ steps.testing_next c marks (stmt_of x.entry.now) (stacks_of stacks.old.frames.items stacks.old.values.items r) s) }
    ensures given { IfOk result (λ t. (sizes : List ℕ) → IsGivenTurned sizes t) }
    ensures values { stacks.new.values.items ≡ stacks.old.values.items }
{
    match x {
        Stmt::Loop(_, condition, _, _) => { test(x, condition, stacks) }
        Stmt::Block(_, _) | Stmt::Expr(_) | Stmt::Init(_, _, _) | Stmt::If(_, _, _) => {
            Ok(Turned::Over(End::Spent))
        }
        Stmt::Break | Stmt::Continue | Stmt::Return(_) => Ok(Turned::Over(End::Spent)),
    }
}

/// The third clause of a loop is evaluated, or the condition, where there is none.
#[inline]
fn stepping<'a>(
    x: &'a Stmt,
    step: Option<&'a Expr>,
    condition: &'a Expr,
    stacks: &mut Stacks<'a>,
) -> Result<Turned<'a>, NoMemory>
    ensures run { IfOk result (λ t. (c : Program) (marks : ℕ → ℕ) (r : a_rest.Rest) (s : State) → next_of t (stacks_of stacks.new.frames.items stacks.new.values.items r) s ≡ steps.stepping c marks (maybe_expr_of (option_copied step.entry)) (expr_of condition.entry.now) (stmt_of x.entry.now) (stacks_of stacks.old.frames.items stacks.old.values.items r) s) }
    ensures given { IfOk result (λ t. (sizes : List ℕ) → IsGivenTurned sizes t) }
    ensures values { stacks.new.values.items ≡ stacks.old.values.items }
{
    match step {
        Some(step) => {
            stacks.wait(Frame::OfStmt(x, StmtWait::Step))?;
            Ok(Turned::On(Control::Eval(step)))
        }
        None => { test(x, condition, stacks) }
    }
}

/// What follows the body of a loop (6.8.6.2, 6.8.6.3).
#[inline]
fn turned<'a>(
    x: &'a Stmt,
    flow: Flow,
    step: Option<&'a Expr>,
    condition: &'a Expr,
    stacks: &mut Stacks<'a>,
) -> Result<Turned<'a>, NoMemory>
    ensures run { IfOk result (λ t. (c : Program) (marks : ℕ → ℕ) (r : a_rest.Rest) (s : State) → next_of t (stacks_of stacks.new.frames.items stacks.new.values.items r) s ≡ steps.turned c marks flow (maybe_expr_of (option_copied step.entry)) (expr_of condition.entry.now) (stmt_of x.entry.now) (stacks_of stacks.old.frames.items stacks.old.values.items r) s) }
    ensures given { IfOk result (λ t. (sizes : List ℕ) → IsGivenFlow sizes flow → IsGivenTurned sizes t) }
    ensures values { stacks.new.values.items ≡ stacks.old.values.items }
{
    match flow {
        Flow::Next => { stepping(x, step, condition, stacks) }
        Flow::Continued => { stepping(x, step, condition, stacks) }
        Flow::Broke => Ok(Turned::On(Control::Went(Flow::Next))),
        Flow::Returned(value) => Ok(Turned::On(Control::Went(Flow::Returned(value)))),
    }
}

/// The body of a loop ended.
#[tactic(auto, using(crate::proofs::Listed::stmt_views))]
pub fn turn_ended<'a>(
    x: &'a Stmt,
    flow: Flow,
    stacks: &mut Stacks<'a>,
) -> Result<Turned<'a>, NoMemory>
    ensures run { IfOk result (λ t. (c : Program) (marks : ℕ → ℕ) (r : a_rest.Rest) (s : State) → next_of t (stacks_of stacks.new.frames.items stacks.new.values.items r) s ≡ steps.turn_ended c marks (stmt_of x.entry.now) flow (stacks_of stacks.old.frames.items stacks.old.values.items r) s) }
    ensures given { IfOk result (λ t. (sizes : List ℕ) → IsGivenFlow sizes flow → IsGivenTurned sizes t) }
    ensures values { stacks.new.values.items ≡ stacks.old.values.items }
{
    match x {
        Stmt::Loop(_, condition, step, _) => { turned(x, flow, step.as_ref(), condition, stacks) }
        Stmt::Block(_, _) | Stmt::Expr(_) | Stmt::Init(_, _, _) | Stmt::If(_, _, _) => {
            Ok(Turned::Over(End::Spent))
        }
        Stmt::Break | Stmt::Continue | Stmt::Return(_) => Ok(Turned::Over(End::Spent)),
    }
}
