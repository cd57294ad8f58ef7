//! The input and the output of a run (ISO/IEC 9899:2018, 7.21.7).

ghost use Rattle.std.specs.Prelude.{◌≡◌, ℕ, ◌≤◌, List, length, IfOk};
ghost use Rattle.c_core.specs.Blocks.{Blocks};
ghost use Rattle.block_memory.specs.Given.{IsGivenValue};
ghost use Rattle.c_core.specs.declared.values.Value.{Value};
ghost use Rattle.c_core.specs.declared.values.Value.TheVariants as AValue;
ghost use Rattle.num_ops.specs.declared.kinds.IntKind.TheVariants as AKind;
ghost use Rattle.c_meaning.specs.Run.{Run};
ghost use Rattle.c_meaning.specs.Storage as storage;
ghost use Rattle.c_meaning.specs.World as world;
ghost use Rattle.c_meaning.specs.World.{State};
ghost use Rattle.machine_frames.specs.Views.{state_of};
ghost use Rattle.machine_library.specs.Leads.{continued};

use c_core::{End, Value};
use machine_frames::Rest;
use num_ops::{Int, IntKind};
use std::alloc::AllocError;
use tok_base::NoMemory;

/// The most bytes that may be put out.
const MOST: usize = 16777216;

/// A number of the type `int`.
fn int(value: i32) -> Value
    ensures { result ≡ AValue.Int (record { kind = AKind.Int; value = value }) }
{
    Value::Int(Int {
        kind: IntKind::Int,
        value: i128::from(value),
    })
}

/// The next byte of the input, or -1 at its end (7.21.7.6).
pub(crate) fn get_char(rest: &mut Rest) -> Result<Value, NoMemory>
    requires { rest.old.read ≤ length rest.old.input.items }
    ensures run { IfOk result (λ v. (bs : Blocks) (k : Value → State → Run) → world.act storage.get_char k (state_of bs rest.old) ≡ k v (state_of bs rest.new)) }
    ensures kept { rest.new ≡ record rest.old { read = rest.new.read } }
    ensures within { rest.new.read ≤ length rest.new.input.items }
    ensures integer { IfOk result (λ v. (sizes : List ℕ) → IsGivenValue sizes v) }
{
    if rest.read == u32::MAX {
        return Err(NoMemory);
    }
    match rest.input.get(rest.read as usize) {
        Some(byte) => {
            let value = int(i32::from(*byte));
            rest.read += 1;
            Ok(value)
        }
        None => Ok(int(-1)),
    }
}

/// A byte is put out, and given (7.21.7.7).
pub(crate) fn put_byte(rest: &mut Rest, byte: u8) -> Result<Result<Value, End>, NoMemory>
    ensures run { IfOk result (λ r. (bs : Blocks) (k : Value → State → Run) → world.act (storage.put_byte byte) k (state_of bs rest.old) ≡ continued r k (state_of bs rest.new)) }
    ensures kept { rest.new ≡ record rest.old { output = rest.new.output } }
    ensures integer { IfOk result (λ r. IfOk r (λ v. (sizes : List ℕ) → IsGivenValue sizes v)) }
{
    if rest.output.len() >= MOST {
        return Ok(Err(End::OutputFull));
    }
    rest.output.push(byte).map_err(AllocError::from)?;
    Ok(Ok(int(i32::from(byte))))
}
