//! Grants and the definition, side by side.

ghost use Rattle.std.specs.Prelude.{◌<◌};

use range_heap::{RangeCall, Ranges, lowest_place};
use std::alloc::Global;
use tok_base::NoMemory;

/// The first address of range 0.
const FIRST: u64 = 16777216;

/// Asks for a piece, and says whether the answer is the definition's.
fn ask_agrees(ranges: &mut Ranges, token: u32, size: u128) -> Result<bool, NoMemory>
    requires { token < 2 }
{
    if token >= ranges.count() {
        return Ok(false);
    }
    let first = FIRST + 128 * u64::from(token);
    let wanted = lowest_place(first, 128, ranges.heap(token).history(), size);
    let answer = ranges.make(&RangeCall::Ask {
        who: 0,
        token: u64::from(token),
        size,
    })?;
    Ok(answer == wanted)
}

fn back_agrees(ranges: &mut Ranges, place: u64) -> Result<bool, NoMemory> {
    let answer = ranges.make(&RangeCall::GiveBack { who: 0, place })?;
    Ok(answer.is_none())
}

/// Makes 400 calls on two ranges of 128 bytes, and says how many answers agree with the definition.
pub fn mix(alloc: Global) -> Result<u64, NoMemory> {
    let mut ranges = Ranges::new(alloc, 2, 128)?;
    let mut state: u64 = 1;
    let mut agreed = 0u64;
    for _turn in 0..400u32 {
        state = state
            .wrapping_mul(6364136223846793005)
            .wrapping_add(1442695040888963407);
        let pick = state >> 33;
        let agrees = if pick % 2 == 0 {
            back_agrees(&mut ranges, FIRST + 16 * (pick / 2 % 16))?
        } else {
            ask_agrees(
                &mut ranges,
                (pick / 2 % 2) as u32,
                u128::from(pick / 4 % 50),
            )?
        };
        if agrees {
            agreed = agreed.saturating_add(1);
        }
    }
    Ok(agreed)
}
