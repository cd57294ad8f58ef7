//! The parts of an expression that are evaluated before its own step.

ghost use Rattle.std.specs.Prelude.{◌≡◌};
ghost use Rattle.c_core.specs.View.{form_of};
ghost use Rattle.machine_expressions.specs.Parting as parts;
ghost use Rattle.c_core.specs.View.{maybe_expr_of};
ghost use Rattle.std.specs.Option.{option_copied};

use c_core::{Expr, Form};

/// The part of an expression that is evaluated first.
#[inline]
pub fn first_part(e: &Expr) -> Option<&Expr>
    ensures { maybe_expr_of (option_copied result) ≡ parts.first_part (form_of e.now.form) }
{
    match &e.form {
        Form::Load(p, _) => Some(p.get()),
        Form::Store(p, _, _, _) => Some(p.get()),
        Form::CopyRecord(p, _, _, _, _) => Some(p.get()),
        Form::Convert(_, p) => Some(p.get()),
        Form::Truth(p, _) => Some(p.get()),
        Form::Arith(_, p, _) => Some(p.get()),
        Form::ShiftBits(_, p, _) => Some(p.get()),
        Form::CompareInt(_, p, _) => Some(p.get()),
        Form::PtrAdd(p, _, _, _) => Some(p.get()),
        Form::PtrDiff(p, _, _) => Some(p.get()),
        Form::ComparePtr(_, p, _) => Some(p.get()),
        Form::Both(p, _) => Some(p.get()),
        Form::Either(p, _) => Some(p.get()),
        Form::Choose(p, _, _) => Some(p.get()),
        Form::Then(p, _) => Some(p.get()),
        Form::Modify(p, _, _, _, _, _, _) => Some(p.get()),
        Form::Call(p, _, _, _) => Some(p.get()),
        Form::Const(_) | Form::Text(_) | Form::Func(_) | Form::Object(_) => None,
        Form::LibCall(_, _, _) | Form::Mark(_) => None,
    }
}

/// The part that is evaluated behind the first one, whatever its value is.
#[inline]
pub fn second_part(e: &Expr) -> Option<&Expr>
    ensures { maybe_expr_of (option_copied result) ≡ parts.second_part (form_of e.now.form) }
{
    match &e.form {
        Form::Store(_, _, _, q) => Some(q.get()),
        Form::CopyRecord(_, _, q, _, _) => Some(q.get()),
        Form::Arith(_, _, q) => Some(q.get()),
        Form::ShiftBits(_, _, q) => Some(q.get()),
        Form::CompareInt(_, _, q) => Some(q.get()),
        Form::PtrAdd(_, q, _, _) => Some(q.get()),
        Form::PtrDiff(_, q, _) => Some(q.get()),
        Form::ComparePtr(_, _, q) => Some(q.get()),
        Form::Modify(_, _, _, _, q, _, _) => Some(q.get()),
        Form::Load(_, _) => None,
        Form::Convert(_, _) => None,
        Form::Truth(_, _) => None,
        Form::Both(_, _) => None,
        Form::Either(_, _) => None,
        Form::Choose(_, _, _) => None,
        Form::Then(_, _) => None,
        Form::Call(_, _, _, _) => None,
        Form::Const(_) | Form::Text(_) | Form::Func(_) | Form::Object(_) => None,
        Form::LibCall(_, _, _) | Form::Mark(_) => None,
    }
}
