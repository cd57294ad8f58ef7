//! A statement begins.

ghost use Rattle.std.specs.Prelude.{◌≡◌, ◌≤◌, ℕ, List, IfOk};
ghost use Rattle.c_core.specs.Tree.{Program};
ghost use Rattle.c_core.specs.View.{maybe_expr_of, stmt_of};
ghost use Rattle.c_meaning.specs.World.{State};
ghost use Rattle.machine_frames.specs.Held.{AreGivenLocals, IsGivenTurned};
ghost use Rattle.machine_frames.specs.Views.{next_of, stacks_of, state_of};
ghost use Rattle.machine_frames.specs.declared.state.Rest as a_rest;
ghost use Rattle.machine_steps.specs.Steps as steps;
ghost use Rattle.std.specs.Option.{option_copied};

use crate::blocks::block_begins;
use crate::initial::initial;
use crate::loops::looping;
use block_memory::Memory;
use c_core::{Expr, Stmt};
use c_meaning::Flow;
use machine_frames::{Control, Frame, Rest, Stacks, StmtWait, Turned};
use tok_base::NoMemory;

/// `return` (6.8.6.4).
#[inline]
fn returning<'a>(value: Option<&'a Expr>, stacks: &mut Stacks<'a>) -> Result<Turned<'a>, NoMemory>
    ensures run { IfOk result (λ t. (c : Program) (marks : ℕ → ℕ) (r : a_rest.Rest) (s : State) → next_of t (stacks_of stacks.new.frames.items stacks.new.values.items r) s ≡ steps.returning c marks (maybe_expr_of (option_copied value.entry)) (stacks_of stacks.old.frames.items stacks.old.values.items r) s) }
    ensures given { IfOk result (λ t. (sizes : List ℕ) → IsGivenTurned sizes t) }
    ensures values { stacks.new.values.items ≡ stacks.old.values.items }
{
    match value {
        Some(value) => {
            stacks.wait(Frame::GiveBack)?;
            Ok(Turned::On(Control::Eval(value)))
        }
        None => Ok(Turned::On(Control::Went(Flow::Returned(None)))),
    }
}

/// A statement begins whose tick is paid.
pub fn beginning<'a, M: Memory>(
    x: &'a Stmt,
    stacks: &mut Stacks<'a>,
    rest: &mut Rest,
    memory: &mut M,
) -> Result<Turned<'a>, NoMemory>
    requires { AreGivenLocals (M.sizes memory.old) rest.old.locals.items }
    ensures run { IfOk result (λ t. (c : Program) (marks : ℕ → ℕ) → next_of t (stacks_of stacks.new.frames.items stacks.new.values.items rest.new) (state_of (M.blocks memory.new) rest.new) ≡ steps.beginning c marks (stmt_of x.entry.now) (stacks_of stacks.old.frames.items stacks.old.values.items rest.old) (state_of (M.blocks memory.old) rest.old)) }
    ensures given { IfOk result (λ t. (sizes : List ℕ) → IsGivenTurned sizes t) }
    ensures values { stacks.new.values.items ≡ stacks.old.values.items }
    ensures kept { rest.new ≡ record rest.old { ticks = rest.new.ticks } }
    ensures less { rest.new.ticks ≤ rest.old.ticks }
    ensures sizes { M.sizes memory.new ≡ M.sizes memory.old }
    ensures starts { M.starts memory.new ≡ M.starts memory.old }
    ensures top { M.top memory.new ≡ M.top memory.old }
{
    match x {
        Stmt::Block(objects, statements) => {
            block_begins(x, objects.as_slice(), statements.as_slice(), stacks)
        }
        Stmt::Expr(e) => {
            stacks.wait(Frame::Done)?;
            Ok(Turned::On(Control::Eval(e)))
        }
        Stmt::Init(local, zeros, _) => { initial(x, *zeros, *local, stacks, rest, memory) }
        Stmt::If(condition, _, _) => {
            stacks.wait(Frame::OfStmt(x, StmtWait::Branch))?;
            Ok(Turned::On(Control::Eval(condition)))
        }
        Stmt::Loop(test_first, condition, _, body) => {
            looping(x, *test_first, condition, body.get(), stacks, rest)
        }
        Stmt::Break => Ok(Turned::On(Control::Went(Flow::Broke))),
        Stmt::Continue => Ok(Turned::On(Control::Went(Flow::Continued))),
        Stmt::Return(value) => { returning(value.as_ref(), stacks) }
    }
}
