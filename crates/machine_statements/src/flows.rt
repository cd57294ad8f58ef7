//! What waits is told how a statement ended.

ghost use Rattle.std.specs.Prelude.{◌≡◌, ℕ, List, IfOk};
ghost use Rattle.c_core.specs.Tree.{Program};
ghost use Rattle.c_core.specs.View.{stmt_of};
ghost use Rattle.c_meaning.specs.World.{State};
ghost use Rattle.machine_frames.specs.Held.{IsGivenFlow, IsGivenTurned};
ghost use Rattle.machine_frames.specs.Views.{frame_of, next_of, stacks_of, stmt_frame};
ghost use Rattle.machine_frames.specs.declared.state.Rest as a_rest;
ghost use Rattle.machine_steps.specs.Steps as steps;

use crate::blocks::listed_ended;
use crate::loops::turn_ended;
use c_core::{End, Stmt};
use c_meaning::Flow;
use machine_frames::{Frame, Stacks, StmtWait, Turned};
use tok_base::NoMemory;

/// A statement in another one ended.
fn stmt_told<'a>(
    x: &'a Stmt,
    wait: StmtWait,
    flow: Flow,
    stacks: &mut Stacks<'a>,
) -> Result<Turned<'a>, NoMemory>
    ensures run { IfOk result (λ t. (c : Program) (marks : ℕ → ℕ) (r : a_rest.Rest) (s : State) → next_of t (stacks_of stacks.new.frames.items stacks.new.values.items r) s ≡ steps.told c marks (stmt_frame (stmt_of x.entry.now) wait) flow (stacks_of stacks.old.frames.items stacks.old.values.items r) s) }
    ensures given { IfOk result (λ t. (sizes : List ℕ) → IsGivenFlow sizes flow → IsGivenTurned sizes t) }
    ensures values { stacks.new.values.items ≡ stacks.old.values.items }
{
    match wait {
        StmtWait::Turn => { turn_ended(x, flow, stacks) }
        StmtWait::Listed(number) => { listed_ended(x, number, flow, stacks) }
        StmtWait::Item(_) | StmtWait::Branch => Ok(Turned::Over(End::Spent)),
        StmtWait::Test | StmtWait::Step => Ok(Turned::Over(End::Spent)),
    }
}

/// A frame is told how a statement ended.
pub fn told<'a>(
    frame: Frame<'a>,
    flow: Flow,
    stacks: &mut Stacks<'a>,
) -> Result<Turned<'a>, NoMemory>
    ensures run { IfOk result (λ t. (c : Program) (marks : ℕ → ℕ) (r : a_rest.Rest) (s : State) → next_of t (stacks_of stacks.new.frames.items stacks.new.values.items r) s ≡ steps.told c marks (frame_of frame.entry) flow (stacks_of stacks.old.frames.items stacks.old.values.items r) s) }
    ensures given { IfOk result (λ t. (sizes : List ℕ) → IsGivenFlow sizes flow → IsGivenTurned sizes t) }
    ensures values { stacks.new.values.items ≡ stacks.old.values.items }
{
    match frame {
        Frame::OfStmt(x, wait) => { stmt_told(x, wait, flow, stacks) }
        Frame::Leave(leaving) => Ok(Turned::Leave(leaving, flow)),
        Frame::OfExpr(_, _) => Ok(Turned::Over(End::Spent)),
        Frame::AsTruth | Frame::Done | Frame::GiveBack => Ok(Turned::Over(End::Spent)),
    }
}
