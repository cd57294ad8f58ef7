//! A call on any form of memory, made where its conditions hold.

ghost use Rattle.std.specs.Prelude.{◌≡◌, ◌≤◌, length};
ghost use Rattle.c_core.specs.Values as values;
ghost use Rattle.block_memory.specs.Given.{IsGivenValue};
ghost use Rattle.memory_checks.specs.Counts.{counted};

use crate::call::{Answer, Call};
use crate::given::{LIMIT, holds, is_free, is_given, is_given_cell, lives};
use block_memory::{Memory, room};
use c_core::{BlockKind, Cell, Pointer, Scalar, Value};
use num_ops::{Int, IntKind, convert};

/// How many blocks there are at most.
const MOST: u32 = 1000;

fn place<M: Memory>(
    memory: &mut M,
    count: u32,
    top: u64,
    kind: BlockKind,
    size: u64,
    at: u64,
) -> Answer
    requires count { count ≡ length (M.sizes memory.old) }
    requires top { top ≤ M.top memory.old }
    ensures count { length (M.sizes memory.new) ≡ counted count result }
    ensures few { count ≤ 1000 → counted count result ≤ 1000 }
    ensures top { M.top memory.new ≡ M.top memory.old }
{
    if count >= MOST || size >= LIMIT || at >= LIMIT {
        return Answer::Barred;
    }
    let more = room(kind, size);
    if at + more > top || !is_free(memory, count, at, more) {
        return Answer::Barred;
    }
    match memory.place(kind, size, at) {
        Ok(number) => Answer::Placed(number),
        Err(_) => Answer::NoMemory,
    }
}

fn load<M: Memory>(memory: &M, count: u32, p: Pointer, kind: Scalar) -> Answer
    requires { count ≡ length (M.sizes memory.now) }
    ensures { counted count result ≡ count }
{
    if !is_given(memory, count, p) {
        return Answer::Barred;
    }
    match memory.load(p, kind) {
        Ok(value) => Answer::Loaded(value),
        Err(fault) => Answer::Refused(fault),
    }
}

fn store<M: Memory>(memory: &mut M, count: u32, p: Pointer, value: Value, kind: Scalar) -> Answer
    requires count { count ≡ length (M.sizes memory.old) }
    requires kind { values.kind_of value ≡ kind }
    requires value { IsGivenValue (M.sizes memory.old) value }
    ensures count { (length (M.sizes memory.new) ≡ count) × (counted count result ≡ count) }
    ensures top { M.top memory.new ≡ M.top memory.old }
{
    if !is_given(memory, count, p) {
        return Answer::Barred;
    }
    match memory.store(p, kind, value) {
        Ok(()) => Answer::Done,
        Err(fault) => Answer::Refused(fault),
    }
}

fn store_int<M: Memory>(memory: &mut M, count: u32, p: Pointer, kind: IntKind, bits: u64) -> Answer
    requires { count ≡ length (M.sizes memory.old) }
    ensures count { (length (M.sizes memory.new) ≡ count) × (counted count result ≡ count) }
    ensures top { M.top memory.new ≡ M.top memory.old }
{
    let n = convert(
        kind,
        Int {
            kind: IntKind::ULongLong,
            value: bits as i128,
        },
    );
    store(memory, count, p, Value::Int(n), Scalar::Int(kind))
}

fn store_pointer<M: Memory>(memory: &mut M, count: u32, p: Pointer, q: Pointer) -> Answer
    requires { count ≡ length (M.sizes memory.old) }
    ensures count { (length (M.sizes memory.new) ≡ count) × (counted count result ≡ count) }
    ensures top { M.top memory.new ≡ M.top memory.old }
{
    if !is_given(memory, count, q) {
        return Answer::Barred;
    }
    store(memory, count, p, Value::Ptr(q), Scalar::Ptr)
}

fn copy<M: Memory>(
    memory: &mut M,
    count: u32,
    to: Pointer,
    from: Pointer,
    n: u64,
    may_overlap: bool,
) -> Answer
    requires { count ≡ length (M.sizes memory.old) }
    ensures count { (length (M.sizes memory.new) ≡ count) × (counted count result ≡ count) }
    ensures top { M.top memory.new ≡ M.top memory.old }
{
    if !is_given(memory, count, to) || !is_given(memory, count, from) {
        return Answer::Barred;
    }
    match memory.copy(to, from, n, may_overlap) {
        Ok(()) => Answer::Done,
        Err(fault) => Answer::Refused(fault),
    }
}

fn fill<M: Memory>(memory: &mut M, count: u32, to: Pointer, byte: u8, n: u64) -> Answer
    requires { count ≡ length (M.sizes memory.old) }
    ensures count { (length (M.sizes memory.new) ≡ count) × (counted count result ≡ count) }
    ensures top { M.top memory.new ≡ M.top memory.old }
{
    if !is_given(memory, count, to) {
        return Answer::Barred;
    }
    match memory.fill(to, byte, n) {
        Ok(()) => Answer::Done,
        Err(fault) => Answer::Refused(fault),
    }
}

fn kill<M: Memory>(memory: &mut M, count: u32, block: u32) -> Answer
    requires { count ≡ length (M.sizes memory.old) }
    ensures count { (length (M.sizes memory.new) ≡ count) × (counted count result ≡ count) }
    ensures top { M.top memory.new ≡ M.top memory.old }
{
    if !lives(memory, count, block) {
        return Answer::Barred;
    }
    memory.kill(block);
    Answer::Done
}

fn init<M: Memory>(memory: &mut M, count: u32, block: u32, offset: u64, cell: Cell) -> Answer
    requires { count ≡ length (M.sizes memory.old) }
    ensures count { (length (M.sizes memory.new) ≡ count) × (counted count result ≡ count) }
    ensures top { M.top memory.new ≡ M.top memory.old }
{
    if offset >= LIMIT || !lives(memory, count, block) {
        return Answer::Barred;
    }
    if !holds(memory, count, block, offset + 1) || !is_given_cell(memory, count, cell) {
        return Answer::Barred;
    }
    memory.init(block, offset, cell);
    Answer::Done
}

/// Makes a call on a memory of `count` blocks, where its conditions hold.
pub fn ask<M: Memory>(memory: &mut M, count: u32, top: u64, call: Call) -> Answer
    requires count { count ≡ length (M.sizes memory.old) }
    requires top { top ≤ M.top memory.old }
    ensures count { length (M.sizes memory.new) ≡ counted count result }
    ensures few { count ≤ 1000 → counted count result ≤ 1000 }
    ensures top { M.top memory.new ≡ M.top memory.old }
{
    match call {
        Call::Place(kind, size, at) => place(memory, count, top, kind, size, at),
        Call::Load(p, kind) => load(memory, count, p, kind),
        Call::StoreInt(p, kind, bits) => store_int(memory, count, p, kind, bits),
        Call::StorePointer(p, q) => store_pointer(memory, count, p, q),
        Call::Copy(to, from, n, may_overlap) => copy(memory, count, to, from, n, may_overlap),
        Call::Fill(to, byte, n) => fill(memory, count, to, byte, n),
        Call::Kill(block) => kill(memory, count, block),
        Call::Init(block, offset, cell) => init(memory, count, block, offset, cell),
    }
}
