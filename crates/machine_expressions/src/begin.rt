//! A part of an expression is evaluated, and the whole waits for it.

ghost use Rattle.std.specs.Prelude.{◌≡◌, ℕ, List, ◌∷◌, IfOk};
ghost use Rattle.c_core.specs.View.{expr_of, form_of};
ghost use Rattle.c_core.specs.Tree.{Program, TheExpr};
ghost use Rattle.c_meaning.specs.World.{State};
ghost use Rattle.machine_expressions.specs.Parting as parting;
ghost use Rattle.machine_frames.specs.Held.{IsGivenTurned};
ghost use Rattle.machine_frames.specs.Views.{next_of, stacks_of, values_of};
ghost use Rattle.machine_frames.specs.declared.state.Rest as rest;
ghost use Rattle.machine_steps.specs.Steps as steps;

use c_core::{Expr, Value};
use machine_frames::{Control, ExprWait, Frame, Stacks, Turned};
use tok_base::NoMemory;

/// The first part of an expression is evaluated, and the whole waits for it.
#[inline]
#[tactic(auto, using(crate::proofs::Parted::first_parted))]
pub fn begin_part<'a>(
    e: &'a Expr,
    part: &'a Expr,
    stacks: &mut Stacks<'a>,
) -> Result<Turned<'a>, NoMemory>
    requires { parting.first_part (form_of e.now.form) ≡ TheExpr (expr_of part.now) }
    ensures run { IfOk result (λ t. (c : Program) (marks : ℕ → ℕ) (r : rest.Rest) (s : State) → next_of t (stacks_of stacks.new.frames.items stacks.new.values.items r) s ≡ steps.evaluating c marks e.entry.now.span (form_of e.entry.now.form) (stacks_of stacks.old.frames.items stacks.old.values.items r) s) }
    ensures given { IfOk result (λ t. (sizes : List ℕ) → IsGivenTurned sizes t) }
    ensures values { stacks.new.values.items ≡ stacks.old.values.items }
{
    stacks.wait(Frame::OfExpr(e, ExprWait::First))?;
    Ok(Turned::On(Control::Eval(part)))
}

/// The second part of an expression is evaluated, and the whole waits for it; the value of the first part is kept.
#[inline]
#[tactic(auto, using(crate::proofs::Parted::second_parted))]
pub fn begin_second<'a>(
    e: &'a Expr,
    part: &'a Expr,
    value: Value,
    stacks: &mut Stacks<'a>,
) -> Result<Turned<'a>, NoMemory>
    requires { parting.second_part (form_of e.now.form) ≡ TheExpr (expr_of part.now) }
    ensures run { IfOk result (λ t. (c : Program) (marks : ℕ → ℕ) (r : rest.Rest) (s : State) → next_of t (stacks_of stacks.new.frames.items stacks.new.values.items r) s ≡ steps.first_given c marks e.entry.now.span (form_of e.entry.now.form) value (stacks_of stacks.old.frames.items stacks.old.values.items r) s) }
    ensures given { IfOk result (λ t. (sizes : List ℕ) → IsGivenTurned sizes t) }
    ensures values { IfOk result (λ t. values_of stacks.new.values.items ≡ value ∷ values_of stacks.old.values.items) }
{
    stacks.keep(value)?;
    stacks.wait(Frame::OfExpr(e, ExprWait::Second))?;
    Ok(Turned::On(Control::Eval(part)))
}
