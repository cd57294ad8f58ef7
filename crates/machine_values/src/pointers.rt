//! Pointers: their truth, sums, differences and comparisons, over any memory.

ghost use Rattle.std.specs.Prelude.{◌≡◌, ◌<◌, ◌≤◌, ◌^◌, ◌≤ℤ◌, ◌<ℤ◌, neg_ℤ, pos, length, IfOk};
ghost use Rattle.block_memory.specs.Given.{IsGiven, IsGivenValue};
ghost use Rattle.c_core.specs.Values as values;
ghost use Rattle.c_core.specs.declared.values.Pointer.TheVariants as APointer;
ghost use Rattle.machine_values.specs.Small.{AreSmall, IsBelow};
ghost use Rattle.c_meaning.specs.Rules as rules;
ghost use Rattle.num_ops.specs.Arithmetic.{compared};

use crate::numbers::{arith, convert, shift, truth_value};
use block_memory::Memory;
use c_core::{ModifyOp, Pointer, Value};
use c_meaning::{is_null, number_in, pointer_in};
use num_ops::{Cmp, Int, IntKind};
use tok_base::Reason;

/// Whether a pointer is into a block whose lifetime has ended (6.2.4, paragraph 2).
#[inline]
pub fn is_dangling<M: Memory>(memory: &M, p: Pointer) -> bool
    requires { IsGiven (M.sizes memory.now) p }
    ensures { result ≡ rules.is_dangling (M.blocks memory.now) p }
{
    match p {
        Pointer::Object(number, _) => !memory.block(number).live,
        Pointer::Null | Pointer::Function(_) => false,
    }
}

/// Whether two pointers are equal.
pub fn same_pointer(p: Pointer, q: Pointer) -> bool
    ensures { result ≡ values.same_pointer p q }
{
    match (p, q) {
        (Pointer::Null, Pointer::Null) => true,
        (Pointer::Object(n, i), Pointer::Object(m, j)) => n == m && i == j,
        (Pointer::Function(f), Pointer::Function(g)) => f == g,
        _ => false,
    }
}

/// A pointer at an offset that is from 0 up to the block's size (6.5.6, paragraph 8).
#[tactic(auto, using(crate::proofs::Small::given_at))]
fn at_offset<M: Memory>(memory: &M, number: u32, offset: i128) -> Result<Value, Reason>
    requires { number < length (M.sizes memory.now) }
    ensures value { result ≡ rules.at_offset (M.blocks memory.now) number offset }
    ensures given { IfOk result (λ v. IsGivenValue (M.sizes memory.now) v) }
{
    let size = memory.block(number).size;
    if 0 <= offset && offset <= size as i128 {
        Ok(Value::Ptr(Pointer::Object(number, offset as u64)))
    } else {
        Err(Reason::PointerRange)
    }
}

/// The difference in elements of no size, which no type has.
#[tactic(auto, using(crate::proofs::Small::none_left))]
fn no_elements(bytes: i128) -> Result<Value, Reason>
    ensures { result ≡ rules.elements bytes 0 }
{
    if bytes != 0 {
        return Err(Reason::PointerDiff);
    }
    Ok(Value::Int(Int {
        kind: IntKind::Long,
        value: 0,
    }))
}

/// The difference of two offsets in elements of a size, of type `long` (6.5.6, paragraph 9).
fn elements(bytes: i128, size: u64) -> Result<Value, Reason>
    requires low { neg_ℤ (pos (2 ^ 63)) ≤ℤ bytes }
    requires high { bytes <ℤ pos (2 ^ 63) }
    ensures { result ≡ rules.elements bytes size }
{
    if size == 0 {
        return no_elements(bytes);
    }
    if bytes % size as i128 != 0 {
        return Err(Reason::PointerDiff);
    }
    Ok(Value::Int(Int {
        kind: IntKind::Long,
        value: bytes / size as i128,
    }))
}

/// An offset and a number of elements of a size, added, or subtracted where true.
fn stepped(offset: u64, index: i128, size: u64, minus: bool) -> i128
    requires low { neg_ℤ (pos (2 ^ 64)) ≤ℤ index }
    requires high { index ≤ℤ pos (2 ^ 64) }
    requires size { size < 2 ^ 32 }
    ensures { result ≡ rules.stepped offset index size minus }
{
    let bytes = index * size as i128;
    if minus {
        offset as i128 - bytes
    } else {
        offset as i128 + bytes
    }
}

/// A sum with elements that are larger than every block.
fn step_far<M: Memory>(
    memory: &M,
    number: u32,
    offset: u64,
    index: i128,
    size: u64,
    minus: bool,
) -> Result<Value, Reason>
    requires given { IsGiven (M.sizes memory.now) (APointer.Object number offset) }
    requires small { AreSmall (M.blocks memory.now) }
    requires size { 2 ^ 32 ≤ size }
    ensures value { result ≡ rules.at_offset (M.blocks memory.now) number (rules.stepped offset index size minus) }
    ensures given { IfOk result (λ v. IsGivenValue (M.sizes memory.now) v) }
{
    if index == 0 {
        return at_offset(memory, number, stepped(offset, index, 1, minus));
    }
    Err(Reason::PointerRange)
}

/// The offset and the elements of a sum.
fn step_to<M: Memory>(
    memory: &M,
    p: Pointer,
    index: i128,
    size: u64,
    minus: bool,
) -> Result<Value, Reason>
    requires given { IsGiven (M.sizes memory.now) p }
    requires small { AreSmall (M.blocks memory.now) }
    requires low { neg_ℤ (pos (2 ^ 64)) ≤ℤ index }
    requires high { index ≤ℤ pos (2 ^ 64) }
    ensures value { result ≡ rules.ptr_add_to (M.blocks memory.now) p index size minus }
    ensures given { IfOk result (λ v. IsGivenValue (M.sizes memory.now) v) }
{
    match p {
        Pointer::Object(number, offset) => {
            if size >= 0x1_0000_0000 {
                return step_far(memory, number, offset, index, size, minus);
            }
            at_offset(memory, number, stepped(offset, index, size, minus))
        }
        Pointer::Null | Pointer::Function(_) => Err(Reason::PointerRange),
    }
}

/// A pointer and a number of elements of a size, added, or subtracted where true (6.5.6, paragraph 8).
pub fn ptr_add<M: Memory>(
    memory: &M,
    p: Value,
    index: Value,
    size: u64,
    minus: bool,
) -> Result<Value, Reason>
    requires given { IsGivenValue (M.sizes memory.now) p }
    requires small { AreSmall (M.blocks memory.now) }
    ensures value { result ≡ rules.ptr_add (M.blocks memory.now) p index size minus }
    ensures given { IfOk result (λ v. IsGivenValue (M.sizes memory.now) v) }
{
    let pointer = pointer_in(p);
    if is_dangling(memory, pointer) {
        return Err(Reason::Dead);
    }
    step_to(memory, pointer, number_in(index).value, size, minus)
}

/// The difference of two pointers that are valid.
fn difference(p: Pointer, q: Pointer, size: u64) -> Result<Value, Reason>
    requires left { IsBelow p }
    requires right { IsBelow q }
    ensures { result ≡ rules.ptr_diff_of p q size }
{
    match (p, q) {
        (Pointer::Object(n, i), Pointer::Object(m, j)) => {
            if n == m {
                elements(i as i128 - j as i128, size)
            } else {
                Err(Reason::PointerDiff)
            }
        }
        _ => Err(Reason::PointerDiff),
    }
}

/// A comparison of pointers in their order, which only those into one block have (6.5.8, paragraph 5).
fn ordered(op: Cmp, p: Pointer, q: Pointer) -> Result<Value, Reason>
    ensures { result ≡ rules.ordered op p q }
{
    match (p, q) {
        (Pointer::Object(n, i), Pointer::Object(m, j)) => {
            if n == m {
                Ok(truth_value(compare_offsets(op, i, j)))
            } else {
                Err(Reason::PointerOrder)
            }
        }
        _ => Err(Reason::PointerOrder),
    }
}

fn compare_offsets(op: Cmp, i: u64, j: u64) -> bool
    ensures { result ≡ compared op (pos i) (pos j) }
{
    match op {
        Cmp::Lt => i < j,
        Cmp::Le => i <= j,
        Cmp::Gt => i > j,
        Cmp::Ge => i >= j,
        Cmp::Eq => i == j,
        Cmp::Ne => i != j,
    }
}

/// A comparison of pointers that are valid (6.5.9).
fn compare_valid(op: Cmp, p: Pointer, q: Pointer) -> Result<Value, Reason>
    ensures { result ≡ rules.ptr_compared op p q }
{
    match op {
        Cmp::Eq => Ok(truth_value(same_pointer(p, q))),
        Cmp::Ne => Ok(truth_value(!same_pointer(p, q))),
        Cmp::Lt | Cmp::Le | Cmp::Gt | Cmp::Ge => ordered(op, p, q),
    }
}

/// A comparison of pointers; those into different blocks are unequal, wherever the blocks lie (6.5.8, 6.5.9).
pub fn compare_ptr<M: Memory>(memory: &M, op: Cmp, p: Value, q: Value) -> Result<Value, Reason>
    requires left { IsGivenValue (M.sizes memory.now) p }
    requires right { IsGivenValue (M.sizes memory.now) q }
    ensures { result ≡ rules.compare_ptr op (M.blocks memory.now) p q }
{
    let (p, q) = (pointer_in(p), pointer_in(q));
    if is_dangling(memory, p) || is_dangling(memory, q) {
        return Err(Reason::Dead);
    }
    compare_valid(op, p, q)
}

/// Whether an integer is not 0, or a pointer not null (6.5.3.3, paragraph 5; 6.3.1.2).
fn is_true<M: Memory>(memory: &M, v: Value) -> Result<bool, Reason>
    requires { IsGivenValue (M.sizes memory.now) v }
    ensures { result ≡ rules.is_true (M.blocks memory.now) v }
{
    match v {
        Value::Int(number) => Ok(number.value != 0),
        Value::Ptr(p) => {
            if is_dangling(memory, p) {
                return Err(Reason::Dead);
            }
            Ok(!is_null(p))
        }
    }
}

/// Whether a value is not zero or null, as 0 or 1; the other way round where true.
pub fn truth<M: Memory>(memory: &M, v: Value, negated: bool) -> Result<Value, Reason>
    requires { IsGivenValue (M.sizes memory.now) v }
    ensures { result ≡ rules.truth (M.blocks memory.now) v negated }
{
    match is_true(memory, v) {
        Ok(holds) => Ok(truth_value(holds != negated)),
        Err(reason) => Err(reason),
    }
}

/// The difference of two pointers in elements of a size, of type `long` (6.5.6, paragraph 9).
#[tactic(auto, using(crate::proofs::Small::pointer_below))]
pub fn ptr_diff<M: Memory>(memory: &M, p: Value, q: Value, size: u64) -> Result<Value, Reason>
    requires left { IsGivenValue (M.sizes memory.now) p }
    requires right { IsGivenValue (M.sizes memory.now) q }
    requires small { AreSmall (M.blocks memory.now) }
    ensures { result ≡ rules.ptr_diff (M.blocks memory.now) p q size }
{
    let (p, q) = (pointer_in(p), pointer_in(q));
    if is_dangling(memory, p) || is_dangling(memory, q) {
        return Err(Reason::Dead);
    }
    difference(p, q, size)
}

/// The operator of a compound assignment, on the old value and the operand (6.5.16.2).
#[tactic(auto, using(crate::proofs::Small::arith_given, crate::proofs::Small::shift_given))]
pub fn modified<M: Memory>(
    memory: &M,
    op: ModifyOp,
    common: IntKind,
    old: Value,
    operand: Value,
) -> Result<Value, Reason>
    requires given { IsGivenValue (M.sizes memory.now) old }
    requires small { AreSmall (M.blocks memory.now) }
    ensures value { result ≡ rules.modified op common (M.blocks memory.now) old operand }
    ensures given { IfOk result (λ v. IsGivenValue (M.sizes memory.now) v) }
{
    match op {
        ModifyOp::Arith(op) => arith(op, convert(common, old), operand),
        ModifyOp::ShiftBits(to_left) => shift(to_left, convert(common, old), operand),
        ModifyOp::PtrAdd(size, minus) => ptr_add(memory, old, operand, size, minus),
    }
}
