//! The definition of a grant, computed slowly: each place of the range is tried against each live block.

ghost use Rattle.std.specs.Prelude.{◌≡◌, ℕ, ◌+◌, ◌*◌, ◌/◌, ◌%◌, ◌^◌, ◌<◌, ◌≤◌, true, false, length, MatchOption};
ghost use Rattle.range_heap.specs.Blocks.{rounded, live_blocks, IsClear};
ghost use Rattle.range_heap.specs.History.{region, MayFollow};
ghost use Rattle.range_heap.specs.Plain.{releases, released, IsApart, Passes, AllPass};
ghost use Rattle.range_heap.specs.declared.call.HeapEvent.TheVariants.{Grant, Refuse};

use crate::call::{HeapCall, HeapEvent};
use crate::heap::round_up;

/// The lowest place that fits a block of `asked` bytes after a history of the `size` addresses from
/// `first` on. For tests: it takes time in proportion to the range and the square of the history.
pub fn lowest_place(first: u64, size: u32, history: &[HeapCall], asked: u128) -> Option<u64>
    requires first_multiple { first % 16 ≡ 0 }
    requires first_below { first < 2 ^ 62 }
    requires multiple { size % 16 ≡ 0 }
    requires most { size ≤ 1048576 }
    ensures { MatchOption result (MayFollow (region first size) history.now (Refuse asked)) (λ place. MayFollow (region first size) history.now (Grant asked place)) }
{
    if asked > u128::from(size) {
        return None;
    }
    let len = round_up(asked as u32);
    if len > size {
        return None;
    }
    let places = (size - len) / 16 + 1;
    for unit in 0..places {
        let place = first + 16 * u64::from(unit);
        if is_clear(history, place, u64::from(len)) {
            return Some(place);
        }
    }
    None
}

/// Whether the `len` addresses from `place` on meet no live block.
fn is_clear(history: &[HeapCall], place: u64, len: u64) -> bool
    ensures yes { result ≡ true → IsClear (live_blocks history.now) place len }
    ensures no { result ≡ false → ¬ IsClear (live_blocks history.now) place len }
{
    for (i, call) in history.iter().enumerate() {
        if !passes(call, &history[i + 1..], place, len) {
            return false;
        }
    }
    true
}

/// Whether an entry leaves the interval clear, given the entries behind it.
fn passes(call: &HeapCall, later: &[HeapCall], place: u64, len: u64) -> bool
    ensures yes { result ≡ true → Passes place len call.now.what later.now }
    ensures no { result ≡ false → ¬ Passes place len call.now.what later.now }
{
    match call.what {
        HeapEvent::Grant { size, place: start } => {
            if is_released(later, start) {
                return true;
            }
            is_apart(place, len, start, size)
        }
        _ => true,
    }
}

/// Whether the interval and a block do not meet.
fn is_apart(place: u64, len: u64, start: u64, asked: u128) -> bool
    ensures yes { result ≡ true → IsApart place len start asked }
    ensures no { result ≡ false → ¬ IsApart place len start asked }
{
    if place <= start {
        start - place >= len
    } else {
        u128::from(place - start) / 16 >= units_of(asked)
    }
}

/// How many units of 16 bytes a block takes.
fn units_of(asked: u128) -> u128
    ensures { 16 * result ≡ rounded asked }
{
    let whole = asked / 16;
    let part = if asked % 16 == 0 { 0 } else { 1 };
    (whole + part).max(1)
}

/// Whether one of these calls releases the block at `place`.
fn is_released(calls: &[HeapCall], place: u64) -> bool
    ensures { result ≡ released place calls.now }
{
    for call in calls {
        if does_release(call, place) {
            return true;
        }
    }
    false
}

fn does_release(call: &HeapCall, place: u64) -> bool
    ensures { result ≡ releases place call.now.what }
{
    match call.what {
        HeapEvent::Release { place: freed } => freed == place,
        _ => false,
    }
}
