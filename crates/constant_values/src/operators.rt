//! The operators of integer constant expressions (ISO/IEC 9899:2018, 6.6).

ghost use Rattle.std.specs.Prelude.{◌≡◌, pos, not, if◌then◌else◌};
ghost use Rattle.num_ops.specs.Arithmetic.{arithmetic, shifted, compared};
ghost use Rattle.num_ops.specs.Conversions.{converted, promoted, is_zero};
ghost use Rattle.c_tree.specs.View.{view_op};
ghost use Rattle.c_rules.specs.Typed.{is, varies, undefined};
ghost use Rattle.c_types.specs.CTypes.{Int};
ghost use Rattle.c_rules.specs.Forms.{binary_value};
ghost use Rattle.c_rules.specs.Constants as constants;
ghost use Rattle.c_rules.specs.Constants.{constant_from, truth};
ghost use Rattle.constant_values.specs.Constants.{IsBounded};

use crate::constant::{Constant, State};
use crate::integers::{
    arithmetic_at, comparison_at, complement_at, converted, is_zero, minus_at, of_truth, shift_at,
};
use c_tree::BinaryOp;
use num_ops::{Cmp, IntKind, Op, common, promote};

impl Constant {
    /// `a o b`, of operands of the kinds `p` and `q`.
    pub fn binary(o: BinaryOp, p: IntKind, q: IntKind, a: Constant, b: Constant) -> Constant
        ensures { result ≡ binary_value (view_op o) (Int p) (Int q) a b }
    {
        match o {
            BinaryOp::Add => Constant::arithmetic(Op::Add, p, q, a, b),
            BinaryOp::Sub => Constant::arithmetic(Op::Sub, p, q, a, b),
            BinaryOp::Mul => Constant::arithmetic(Op::Mul, p, q, a, b),
            BinaryOp::Div => Constant::arithmetic(Op::Div, p, q, a, b),
            BinaryOp::Rem => Constant::arithmetic(Op::Rem, p, q, a, b),
            BinaryOp::BitAnd => Constant::arithmetic(Op::BitAnd, p, q, a, b),
            BinaryOp::BitXor => Constant::arithmetic(Op::BitXor, p, q, a, b),
            BinaryOp::BitOr => Constant::arithmetic(Op::BitOr, p, q, a, b),
            BinaryOp::Shl => Constant::shift(true, p, q, a, b),
            BinaryOp::Shr => Constant::shift(false, p, q, a, b),
            BinaryOp::Lt => Constant::comparison(Cmp::Lt, p, q, a, b),
            BinaryOp::Gt => Constant::comparison(Cmp::Gt, p, q, a, b),
            BinaryOp::Le => Constant::comparison(Cmp::Le, p, q, a, b),
            BinaryOp::Ge => Constant::comparison(Cmp::Ge, p, q, a, b),
            BinaryOp::Eq => Constant::comparison(Cmp::Eq, p, q, a, b),
            BinaryOp::Ne => Constant::comparison(Cmp::Ne, p, q, a, b),
            BinaryOp::And => Constant::and(a, b),
            BinaryOp::Or => Constant::or(a, b),
        }
    }

    /// `a op b` after the usual arithmetic conversions from the kinds `p` and `q` (6.5.5, 6.5.6,
    /// 6.5.10 to 6.5.12).
    pub fn arithmetic(op: Op, p: IntKind, q: IntKind, a: Constant, b: Constant) -> Constant
        ensures { result ≡ constants.arithmetic_of op p q a b }
    {
        match (a.state(), b.state()) {
            (State::Is(x), State::Is(y)) => arithmetic_at(op, common(p, q), x, y),
            (State::Is(_), State::Undefined) => Constant::undefined(),
            (State::Undefined, State::Is(_)) => Constant::undefined(),
            (State::Undefined, State::Undefined) => Constant::undefined(),
            (State::Varies, _) => Constant::varies(),
            (State::Is(_), State::Varies) => Constant::varies(),
            (State::Undefined, State::Varies) => Constant::varies(),
        }
    }

    /// `a << b` where `left` is true, else `a >> b`, of operands of the kinds `p` and `q`, each promoted (6.5.7).
    pub fn shift(left: bool, p: IntKind, q: IntKind, a: Constant, b: Constant) -> Constant
        ensures { result ≡ constants.shift_of left p q a b }
    {
        match (a.state(), b.state()) {
            (State::Is(x), State::Is(y)) => shift_at(left, promote(p), x, y),
            (State::Is(_), State::Undefined) => Constant::undefined(),
            (State::Undefined, State::Is(_)) => Constant::undefined(),
            (State::Undefined, State::Undefined) => Constant::undefined(),
            (State::Varies, _) => Constant::varies(),
            (State::Is(_), State::Varies) => Constant::varies(),
            (State::Undefined, State::Varies) => Constant::varies(),
        }
    }

    /// `a cmp b` after the usual arithmetic conversions from the kinds `p` and `q` (6.5.8, 6.5.9).
    pub fn comparison(cmp: Cmp, p: IntKind, q: IntKind, a: Constant, b: Constant) -> Constant
        ensures { result ≡ constants.comparison_of cmp p q a b }
    {
        match (a.state(), b.state()) {
            (State::Is(x), State::Is(y)) => comparison_at(cmp, common(p, q), x, y),
            (State::Is(_), State::Undefined) => Constant::undefined(),
            (State::Undefined, State::Is(_)) => Constant::undefined(),
            (State::Undefined, State::Undefined) => Constant::undefined(),
            (State::Varies, _) => Constant::varies(),
            (State::Is(_), State::Varies) => Constant::varies(),
            (State::Undefined, State::Varies) => Constant::varies(),
        }
    }

    /// `a && b` (6.5.13).
    pub fn and(a: Constant, b: Constant) -> Constant
        ensures { result ≡ constants.and_of a b }
    {
        match a.state() {
            State::Is(x) => and_at(x, b),
            State::Undefined => b.unless_varies(Constant::undefined()),
            State::Varies => Constant::varies(),
        }
    }

    /// `a || b` (6.5.14).
    pub fn or(a: Constant, b: Constant) -> Constant
        ensures { result ≡ constants.or_of a b }
    {
        match a.state() {
            State::Is(x) => or_at(x, b),
            State::Undefined => b.unless_varies(Constant::undefined()),
            State::Varies => Constant::varies(),
        }
    }

    /// `c ? a : b`, converted to the branches' common kind (6.5.15).
    pub fn cond(kind: IntKind, c: Constant, a: Constant, b: Constant) -> Constant
        ensures { result ≡ constants.cond_of kind c a b }
    {
        match c.state() {
            State::Is(x) => a.unless_varies(b.unless_varies(chosen(kind, x, a, b))),
            State::Undefined => a.unless_varies(b.unless_varies(Constant::undefined())),
            State::Varies => Constant::varies(),
        }
    }

    /// `-a`, of an operand of a kind (6.5.3.3).
    pub fn minus(kind: IntKind, a: Constant) -> Constant
        ensures { result ≡ constants.minus_of kind a }
    {
        match a.state() {
            State::Is(x) => minus_at(promote(kind), x),
            State::Undefined => Constant::undefined(),
            State::Varies => Constant::varies(),
        }
    }

    /// `~a`, of an operand of a kind (6.5.3.3).
    pub fn complement(kind: IntKind, a: Constant) -> Constant
        ensures { result ≡ constants.complement_of kind a }
    {
        match a.state() {
            State::Is(x) => complement_at(kind, x),
            State::Undefined => Constant::undefined(),
            State::Varies => Constant::varies(),
        }
    }

    /// `!a` (6.5.3.3).
    pub fn not(a: Constant) -> Constant
        ensures { result ≡ constants.not_of a }
    {
        match a.state() {
            State::Is(x) => of_truth(is_zero(x)),
            State::Undefined => Constant::undefined(),
            State::Varies => Constant::varies(),
        }
    }

    /// A cast to an integer kind (6.5.4).
    pub fn cast(kind: IntKind, a: Constant) -> Constant
        ensures { result ≡ constants.cast_of kind a }
    {
        match a.state() {
            State::Is(x) => Constant::of_int(converted(kind, x)),
            State::Undefined => Constant::undefined(),
            State::Varies => Constant::varies(),
        }
    }

    /// What isn't evaluated is a constant expression too.
    fn unless_varies(self, value: Constant) -> Constant
        ensures { result ≡ constants.unless_varies self value }
    {
        match self.state() {
            State::Is(_) => value,
            State::Undefined => value,
            State::Varies => Constant::varies(),
        }
    }

    /// 1 where it isn't 0.
    fn as_truth(self) -> Constant
        ensures { result ≡ constants.as_truth self }
    {
        match self.state() {
            State::Is(x) => of_truth(!is_zero(x)),
            State::Undefined => Constant::undefined(),
            State::Varies => Constant::varies(),
        }
    }
}

fn and_at(a: i128, b: Constant) -> Constant
    ensures { result ≡ constants.and_of (is a) b }
{
    if is_zero(a) {
        b.unless_varies(Constant::of_i32(0))
    } else {
        b.as_truth()
    }
}

fn or_at(a: i128, b: Constant) -> Constant
    ensures { result ≡ constants.or_of (is a) b }
{
    if is_zero(a) {
        b.as_truth()
    } else {
        b.unless_varies(Constant::of_i32(1))
    }
}

/// The branch that a condition's value chooses, converted.
fn chosen(kind: IntKind, condition: i128, a: Constant, b: Constant) -> Constant
    ensures { result ≡ constants.cast_of kind (if is_zero condition then b else a) }
{
    if is_zero(condition) {
        Constant::cast(kind, b)
    } else {
        Constant::cast(kind, a)
    }
}
