//! Calls drawn at random, on both forms.

use crate::call::{Answer, Call};
use crate::forms::Forms;
use c_core::{BlockKind, Cell, Pointer, Scalar};
use num_ops::IntKind;
use std::alloc::Global;
use tok_base::NoMemory;

/// How many calls were made, how many were answered alike, and how many had all their conditions.
#[derive(Clone, Copy, Debug)]
pub struct Tally {
    pub calls: u64,
    pub alike: u64,
    pub made: u64,
}

fn int_kind(pick: u64) -> IntKind {
    match pick % 6 {
        0 => IntKind::Bool,
        1 => IntKind::Char,
        2 => IntKind::UShort,
        3 => IntKind::Int,
        4 => IntKind::UInt,
        _ => IntKind::Long,
    }
}

fn scalar(pick: u64) -> Scalar {
    match pick % 3 {
        0 => Scalar::Ptr,
        _ => Scalar::Int(int_kind(pick / 3)),
    }
}

fn block_kind(pick: u64) -> BlockKind {
    match pick % 8 {
        0 => BlockKind::Fixed,
        1 => BlockKind::ReadOnly,
        2 => BlockKind::Auto,
        _ => BlockKind::Heap,
    }
}

/// An offset of at most 56, mostly a multiple of 4 or 8.
fn offset(pick: u64) -> u64 {
    match pick % 4 {
        0 => pick / 4 % 57,
        1 => 4 * (pick / 4 % 14),
        _ => 8 * (pick / 4 % 7),
    }
}

/// A pointer to one of the first 8 blocks, mostly.
fn pointer(pick: u64) -> Pointer {
    match pick % 32 {
        0 => Pointer::Null,
        1 => Pointer::Function((pick / 32 % 4) as u32),
        _ => Pointer::Object((pick / 32 % 8) as u32, offset(pick / 256)),
    }
}

fn cell(pick: u64) -> Cell {
    match pick % 4 {
        0 => Cell::Undefined,
        1 => Cell::Byte((pick / 4 % 256) as u8),
        _ => Cell::Part(pointer(pick / 64), (pick / 4 % 9) as u8),
    }
}

/// The size of a block, mostly from 32 to 64.
fn size(pick: u64) -> u64 {
    match pick % 8 {
        0 => pick / 8 % 16,
        _ => 32 + pick / 8 % 33,
    }
}

fn placing(one: u64, two: u64) -> Call {
    Call::Place(block_kind(one), size(one / 8), 8 * (two % 512))
}

/// The call that three random numbers name.
fn call_of(pick: u64, one: u64, two: u64) -> Call {
    let p = pointer(one);
    match pick % 16 {
        0 | 1 => placing(one, two),
        2 | 3 | 4 | 5 => Call::Load(p, scalar(two)),
        6 | 7 => Call::StoreInt(p, int_kind(two), two / 6),
        8 | 9 | 10 => Call::StorePointer(p, pointer(two)),
        11 | 12 => Call::Copy(p, pointer(two), pick / 16 % 20, pick / 512 % 2 == 0),
        13 => Call::Fill(p, (two % 256) as u8, two / 256 % 40),
        14 => Call::Init((one % 8) as u32, one / 16 % 32, cell(two)),
        _ => Call::Kill((one % 32) as u32),
    }
}

/// The next number of a linear congruential generator.
fn next(state: u64) -> u64 {
    state
        .wrapping_mul(6364136223846793005)
        .wrapping_add(1442695040888963407)
}

/// Makes a call on both forms, and counts it.
fn count_call(forms: &mut Forms, call: Call, tally: Tally) -> Tally {
    let Tally { calls, alike, made } = tally;
    let calls = calls.saturating_add(1);
    match forms.ask(call) {
        Some(Answer::Barred) => Tally {
            calls,
            alike: alike.saturating_add(1),
            made,
        },
        Some(_) => Tally {
            calls,
            alike: alike.saturating_add(1),
            made: made.saturating_add(1),
        },
        None => Tally { calls, alike, made },
    }
}

/// Makes 250 calls on new memories, of which the first 8 place blocks.
fn round(alloc: Global, start: u64, tally: Tally) -> Result<Tally, NoMemory> {
    let mut forms = Forms::new(alloc)?;
    let mut state = start;
    let mut sum = tally;
    for i in 0..250u32 {
        let (first, second) = (next(state), next(next(state)));
        let (one, two) = (first >> 24, second >> 24);
        let call = if i < 8 {
            placing(one, two)
        } else {
            call_of(state >> 24, one, two)
        };
        sum = count_call(&mut forms, call, sum);
        state = next(second);
    }
    Ok(sum)
}

/// Makes 100,000 calls.
pub fn draw(alloc: Global) -> Result<Tally, NoMemory> {
    let mut tally = Tally {
        calls: 0,
        alike: 0,
        made: 0,
    };
    for i in 0..400u32 {
        tally = round(alloc, next(u64::from(i)), tally)?;
    }
    Ok(tally)
}
