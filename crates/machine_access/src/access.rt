//! Loads, stores and compound assignments.

ghost use Rattle.std.specs.Prelude.{◌≡◌, IfOk, OnErr};
ghost use Rattle.block_memory.specs.Given.{IsGiven, IsGivenValue};
ghost use Rattle.c_core.specs.Blocks as blocks;
ghost use Rattle.c_meaning.specs.Rules as rules;
ghost use Rattle.c_meaning.specs.Storage as storage;
ghost use Rattle.c_meaning.specs.World.{World, Acted};
ghost use Rattle.c_core.specs.declared.values.Value.{Value};
ghost use Rattle.machine_access.specs.Acts.{acted_of, if_end, over_blocks};
ghost use Rattle.machine_steps.specs.Steps as steps;
ghost use Rattle.machine_values.specs.Small.{AreSmall};

use block_memory::Memory;
use c_core::{End, ModifyOp, Pointer, Scalar, Value, reason_of};
use c_meaning::pointer_in;
use machine_values::{as_kind, modified};
use num_ops::{Int, IntKind};
use tok_base::Span;

/// What a compound assignment does: the span of the operator and of the lvalue, the kind of the object, the
/// operator, the kind in which it is computed, and whether the old value is the result.
#[derive(Clone, Copy, Debug, PartialEq, Eq)]
pub struct Assignment {
    pub span: Span,
    pub at: Span,
    pub kind: Scalar,
    pub op: ModifyOp,
    pub common: IntKind,
    pub post: bool,
}

/// The same value.
#[inline]
pub fn copied(v: &Value) -> Value
    ensures { result ≡ v.now }
{
    match v {
        Value::Int(number) => Value::Int(Int {
            kind: number.kind,
            value: number.value,
        }),
        Value::Ptr(p) => Value::Ptr(*p),
    }
}

/// The value at a place (6.3.2.1, paragraph 2).
#[inline]
pub fn load_at<M: Memory>(memory: &M, span: Span, p: Pointer, kind: Scalar) -> Result<Value, End>
    requires { IsGiven (M.sizes memory.now) p }
    ensures value { (w : World) → storage.load_at span p kind (over_blocks (M.blocks memory.now) w) ≡ acted_of result (over_blocks (M.blocks memory.now) w) }
    ensures given { IfOk result (λ v. IsGivenValue (M.sizes memory.now) v) }
{
    match memory.load(p, kind) {
        Ok(value) => Ok(value),
        Err(fault) => Err(End::Trap(reason_of(fault), span)),
    }
}

/// Stores a value at a place, as the object there has it, and gives it (6.5.16, paragraph 3).
#[inline]
pub fn store_at<M: Memory>(
    memory: &mut M,
    span: Span,
    p: Pointer,
    kind: Scalar,
    v: Value,
) -> Result<Value, End>
    requires pointer { IsGiven (M.sizes memory.old) p }
    requires value { IsGivenValue (M.sizes memory.old) v }
    ensures value { (w : World) → storage.store_at span p kind v (over_blocks (M.blocks memory.old) w) ≡ acted_of result (over_blocks (M.blocks memory.new) w) }
    ensures given { IfOk result (λ v. IsGivenValue (M.sizes memory.old) v) }
    ensures sizes { M.sizes memory.new ≡ M.sizes memory.old }
    ensures starts { M.starts memory.new ≡ M.starts memory.old }
    ensures top { M.top memory.new ≡ M.top memory.old }
    ensures unchanged { OnErr result (M.blocks memory.new ≡ M.blocks memory.old) }
{
    let value = as_kind(kind, v);
    match memory.store(p, kind, copied(&value)) {
        Ok(()) => Ok(value),
        Err(fault) => Err(End::Trap(reason_of(fault), span)),
    }
}

/// The new value of a compound assignment (6.5.16.2).
#[inline]
fn operate<M: Memory>(
    memory: &M,
    span: Span,
    op: ModifyOp,
    common: IntKind,
    old: Value,
    operand: Value,
) -> Result<Value, End>
    requires given { IsGivenValue (M.sizes memory.now) old }
    requires small { AreSmall (M.blocks memory.now) }
    ensures value { (f : Value → Acted Value) → steps.if_judged span (rules.modified op common (M.blocks memory.now) old operand) f ≡ if_end result f }
    ensures given { IfOk result (λ v. IsGivenValue (M.sizes memory.now) v) }
{
    match modified(memory, op, common, old, operand) {
        Ok(value) => Ok(value),
        Err(reason) => Err(End::Trap(reason, span)),
    }
}

/// The value that a compound assignment begins with.
#[inline]
fn load_old<M: Memory>(memory: &M, span: Span, p: Pointer, kind: Scalar) -> Result<Value, End>
    requires { IsGiven (M.sizes memory.now) p }
    ensures value { (f : Value → Acted Value) → steps.if_judged span (storage.with_reason (blocks.load (M.blocks memory.now) p kind)) f ≡ if_end result f }
    ensures given { IfOk result (λ v. IsGivenValue (M.sizes memory.now) v) }
{
    match memory.load(p, kind) {
        Ok(value) => Ok(value),
        Err(fault) => Err(End::Trap(reason_of(fault), span)),
    }
}

/// Stores the new value, and gives it or the old one.
#[inline]
fn store_new<M: Memory>(
    memory: &mut M,
    assignment: Assignment,
    p: Pointer,
    old: Value,
    new: Value,
) -> Result<Value, End>
    requires pointer { IsGiven (M.sizes memory.old) p }
    requires old { IsGivenValue (M.sizes memory.old) old }
    requires value { IsGivenValue (M.sizes memory.old) new }
    ensures value { (w : World) → steps.old_or_new assignment.post old (storage.store_at assignment.at p assignment.kind new (over_blocks (M.blocks memory.old) w)) ≡ acted_of result (over_blocks (M.blocks memory.new) w) }
    ensures given { IfOk result (λ v. IsGivenValue (M.sizes memory.old) v) }
    ensures sizes { M.sizes memory.new ≡ M.sizes memory.old }
    ensures starts { M.starts memory.new ≡ M.starts memory.old }
    ensures top { M.top memory.new ≡ M.top memory.old }
    ensures unchanged { OnErr result (M.blocks memory.new ≡ M.blocks memory.old) }
{
    match store_at(memory, assignment.at, p, assignment.kind, new) {
        Ok(stored) => { if assignment.post { Ok(old) } else { Ok(stored) } }
        Err(end) => Err(end),
    }
}

/// Compound assignment behind its load.
fn modify_old<M: Memory>(
    memory: &mut M,
    assignment: Assignment,
    p: Pointer,
    old: Value,
    operand: Value,
) -> Result<Value, End>
    requires pointer { IsGiven (M.sizes memory.old) p }
    requires old { IsGivenValue (M.sizes memory.old) old }
    requires small { AreSmall (M.blocks memory.old) }
    ensures value { (w : World) → steps.if_judged assignment.span (rules.modified assignment.op assignment.common (M.blocks memory.old) old operand) (λ new. steps.old_or_new assignment.post old (storage.store_at assignment.at p assignment.kind new (over_blocks (M.blocks memory.old) w))) ≡ acted_of result (over_blocks (M.blocks memory.new) w) }
    ensures given { IfOk result (λ v. IsGivenValue (M.sizes memory.old) v) }
    ensures sizes { M.sizes memory.new ≡ M.sizes memory.old }
    ensures starts { M.starts memory.new ≡ M.starts memory.old }
    ensures top { M.top memory.new ≡ M.top memory.old }
    ensures unchanged { OnErr result (M.blocks memory.new ≡ M.blocks memory.old) }
{
    let begun = copied(&old);
    match operate(
        memory,
        assignment.span,
        assignment.op,
        assignment.common,
        begun,
        operand,
    ) {
        Ok(new) => store_new(memory, assignment, p, old, new),
        Err(end) => Err(end),
    }
}

/// Compound assignment, `++` and `--`: load, operate, store; gives the old value where `post`.
pub fn modify<M: Memory>(
    memory: &mut M,
    assignment: Assignment,
    place: Value,
    operand: Value,
) -> Result<Value, End>
    requires place { IsGivenValue (M.sizes memory.old) place }
    requires small { AreSmall (M.blocks memory.old) }
    ensures value { (w : World) → steps.modify assignment.span assignment.at assignment.kind assignment.op assignment.common assignment.post place operand (over_blocks (M.blocks memory.old) w) ≡ acted_of result (over_blocks (M.blocks memory.new) w) }
    ensures given { IfOk result (λ v. IsGivenValue (M.sizes memory.old) v) }
    ensures sizes { M.sizes memory.new ≡ M.sizes memory.old }
    ensures starts { M.starts memory.new ≡ M.starts memory.old }
    ensures top { M.top memory.new ≡ M.top memory.old }
    ensures unchanged { OnErr result (M.blocks memory.new ≡ M.blocks memory.old) }
{
    let p = pointer_in(place);
    match load_old(memory, assignment.at, p, assignment.kind) {
        Ok(old) => modify_old(memory, assignment, p, old, operand),
        Err(end) => Err(end),
    }
}
