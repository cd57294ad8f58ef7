//! Bytes are read one after another.

ghost use Rattle.std.specs.Prelude.{◌≡◌, ℕ, ◌+◌, ◌<◌, ◌^◌, ◌≤ℤ◌, pos, negsuc, IfOk};
ghost use Rattle.block_memory.specs.Given.{IsGiven};
ghost use Rattle.c_meaning.specs.Storage as storage;
ghost use Rattle.machine_bytes.specs.Reading.{order_of, second_read, both_read};
ghost use Rattle.machine_values.specs.Small.{AreSmall, IsBelow};

use block_memory::Memory;
use c_core::{Fault, Pointer, Scalar};
use machine_values::natural_in;
use num_ops::IntKind;

/// The place some bytes further on.
fn further(p: Pointer, at: u64) -> Pointer
    requires { IsBelow (storage.further p at) }
    ensures { result ≡ storage.further p at }
{
    match p {
        Pointer::Object(number, offset) => Pointer::Object(number, offset + at),
        Pointer::Null => Pointer::Null,
        Pointer::Function(number) => Pointer::Function(number),
    }
}

/// The byte there.
fn byte_at<M: Memory>(memory: &M, p: Pointer, at: u64) -> Result<u64, Fault>
    requires given { IsGiven (M.sizes memory.now) (storage.further p at) }
    requires small { AreSmall (M.blocks memory.now) }
    ensures value { result ≡ storage.byte_at (M.blocks memory.now) p at }
    ensures next { IfOk result (λ b. IsGiven (M.sizes memory.now) (storage.further p (at + 1))) }
{
    match memory.load(further(p, at), Scalar::Int(IntKind::UChar)) {
        Ok(value) => Ok(natural_in(value)),
        Err(fault) => Err(fault),
    }
}

/// How two bytes compare: less than 0, 0 or more than 0.
fn order(a: u64, b: u64) -> i32
    ensures result { result ≡ order_of a b }
    ensures low { negsuc 0 ≤ℤ result }
    ensures high { result ≤ℤ pos 1 }
{
    if a < b {
        -1
    } else if b < a {
        1
    } else {
        0
    }
}

/// The second byte is read, and compared with the first.
fn against<M: Memory>(memory: &M, q: Pointer, at: u64, a: u64) -> Result<i32, Fault>
    requires given { IsGiven (M.sizes memory.now) (storage.further q at) }
    requires small { AreSmall (M.blocks memory.now) }
    ensures value { result ≡ second_read (M.blocks memory.now) q at a }
    ensures low { IfOk result (λ z. negsuc 0 ≤ℤ z) }
    ensures high { IfOk result (λ z. z ≤ℤ pos 1) }
    ensures next { IfOk result (λ z. IsGiven (M.sizes memory.now) (storage.further q (at + 1))) }
{
    match byte_at(memory, q, at) {
        Ok(b) => Ok(order(a, b)),
        Err(fault) => Err(fault),
    }
}

/// How the bytes of two places compare, the first one being read first.
fn difference<M: Memory>(memory: &M, p: Pointer, q: Pointer, at: u64) -> Result<i32, Fault>
    requires left { IsGiven (M.sizes memory.now) (storage.further p at) }
    requires right { IsGiven (M.sizes memory.now) (storage.further q at) }
    requires small { AreSmall (M.blocks memory.now) }
    ensures value { result ≡ both_read (M.blocks memory.now) p q at }
    ensures low { IfOk result (λ z. negsuc 0 ≤ℤ z) }
    ensures high { IfOk result (λ z. z ≤ℤ pos 1) }
    ensures left { IfOk result (λ z. IsGiven (M.sizes memory.now) (storage.further p (at + 1))) }
    ensures right { IfOk result (λ z. IsGiven (M.sizes memory.now) (storage.further q (at + 1))) }
{
    match byte_at(memory, p, at) {
        Ok(a) => against(memory, q, at, a),
        Err(fault) => Err(fault),
    }
}

/// How the first bytes that differ compare.
pub(crate) fn compared<M: Memory>(
    memory: &M,
    p: Pointer,
    q: Pointer,
    count: u64,
) -> Result<i32, Fault>
    requires left { IsGiven (M.sizes memory.now) p }
    requires right { IsGiven (M.sizes memory.now) q }
    requires small { AreSmall (M.blocks memory.now) }
    ensures { result ≡ storage.compared_from (M.blocks memory.now) p q count 0 }
{
    for at in 0..count {
        match difference(memory, p, q, at) {
            Ok(order) => {
                if order != 0 {
                    return Ok(order);
                }
            }
            Err(fault) => return Err(fault),
        }
    }
    Ok(0)
}

/// The size of the block that a pointer is into.
fn extent<M: Memory>(memory: &M, p: Pointer) -> u64
    requires given { IsGiven (M.sizes memory.now) p }
    requires small { AreSmall (M.blocks memory.now) }
    ensures result { result ≡ storage.extent (M.blocks memory.now) p }
    ensures small { result < 2 ^ 32 }
{
    match p {
        Pointer::Object(number, _) => memory.block(number).size,
        Pointer::Null | Pointer::Function(_) => 0,
    }
}

/// How many bytes stand before the first zero byte.
pub(crate) fn text_length<M: Memory>(memory: &M, p: Pointer) -> Result<u64, Fault>
    requires given { IsGiven (M.sizes memory.now) p }
    requires small { AreSmall (M.blocks memory.now) }
    ensures { result ≡ storage.text_length (M.blocks memory.now) p }
{
    let most = extent(memory, p) + 1;
    for at in 0..most {
        match byte_at(memory, p, at) {
            Ok(byte) => {
                if byte == 0 {
                    return Ok(at);
                }
            }
            Err(fault) => return Err(fault),
        }
    }
    Err(Fault::Bounds)
}
