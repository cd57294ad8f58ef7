//! The report of a replay.

ghost use Rattle.std.specs.Prelude.{◌≡◌, ◌++◌, ◌∷◌, [], ◌*◌, ◌/◌, ◌+◌, ◌<◌, ◌≤◌, ◌^◌, length, take, drop, decimal, OnOk, IfOk};
ghost use Rattle.trace_replay.specs.Report.{Reportable, entry_line, entry_lines, event_text, granted_bytes, halves_line, halves_lines, one_range, range_lines, report, total_line};

use crate::counts::{Sort, count_all};
use crate::histories::Histories;
use crate::tables::{granted_in_all, live_in_all};
use itoa::Buffer;
use range_heap::{HeapCall, HeapEvent};
use std::alloc::{AllocError, Global};
use tok_base::{Bytes, Items, NoMemory};
use token_modes::Mode;

/// The report of the histories of a replay: the entries of each range, the totals, and where the tokens are split
/// into halves the bytes that were ever granted in each.
pub fn report_text(alloc: Global, histories: &Histories) -> Result<Bytes, NoMemory>
    requires { Reportable histories.now }
    ensures { IfOk result (λ text. text ≡ report histories.now) }
{
    let ranges = histories.ranges.as_slice();
    let mut text = Vec::new(alloc);
    write_ranges(&mut text, histories.first, histories.size, ranges)?;
    write_total(alloc, &mut text, histories)?;
    write_halves(alloc, &mut text, histories)?;
    Ok(Items::from_vec(text))
}

/// Appends a text and a number.
fn write_number(text: &mut Vec<u8>, lead: &[u8], value: u128) -> Result<(), AllocError>
    ensures { OnOk result (text.new.items ≡ text.old.items ++ lead.now ++ decimal value) }
{
    let mut buffer = Buffer::new();
    text.extend_from_slice(lead)?;
    text.extend_from_slice(buffer.format(value).as_bytes())
}

/// Appends what happened in the range that begins at `first`.
fn write_event(text: &mut Vec<u8>, first: u64, what: HeapEvent) -> Result<(), AllocError>
    ensures { OnOk result (text.new.items ≡ text.old.items ++ event_text first what) }
{
    match what {
        HeapEvent::Grant { size, place } => {
            write_number(text, b" + ", size)?;
            write_number(text, b" ", u128::from(place.saturating_sub(first)))?;
            text.extend_from_slice(b"\n")
        }
        HeapEvent::Refuse { size } => {
            write_number(text, b" ! ", size)?;
            text.extend_from_slice(b"\n")
        }
        HeapEvent::Release { place } => {
            write_number(text, b" - ", u128::from(place.saturating_sub(first)))?;
            text.extend_from_slice(b"\n")
        }
    }
}

/// Appends the line of an entry.
fn write_entry(text: &mut Vec<u8>, first: u64, call: &HeapCall) -> Result<(), AllocError>
    ensures { OnOk result (text.new.items ≡ text.old.items ++ entry_line first call.now) }
{
    write_number(text, b"", u128::from(call.who))?;
    write_event(text, first, call.what)
}

/// Appends the lines of the entries of a range.
fn write_entries(text: &mut Vec<u8>, first: u64, calls: &[HeapCall]) -> Result<(), AllocError>
    ensures { OnOk result (text.new.items ≡ text.old.items ++ entry_lines first calls.now) }
{
    for call in calls {
        write_entry(text, first, call)?;
    }
    Ok(())
}

/// Appends the lines of a range.
fn write_range(
    text: &mut Vec<u8>,
    token: u32,
    first: u64,
    calls: &[HeapCall],
) -> Result<(), AllocError>
    ensures { OnOk result (text.new.items ≡ text.old.items ++ one_range token first calls.now) }
{
    write_number(text, b"range ", u128::from(token))?;
    text.extend_from_slice(b"\n")?;
    write_entries(text, first, calls)
}

/// Appends the lines of all ranges, of which the first begins at `first`.
fn write_ranges(
    text: &mut Vec<u8>,
    first: u64,
    size: u32,
    ranges: &[Items<HeapCall>],
) -> Result<(), AllocError>
    requires first_below { first < 2 ^ 62 }
    requires most { size ≤ 1048576 }
    requires count { length ranges.now ≤ 256 }
    ensures { OnOk result (text.new.items ≡ text.old.items ++ range_lines size 0 first ranges.now) }
{
    let mut start = first;
    for (token, calls) in ranges.iter().enumerate() {
        write_range(text, token as u32, start, calls.as_slice())?;
        start += u64::from(size);
    }
    Ok(())
}

/// Appends the line of the totals.
fn write_total(alloc: Global, text: &mut Vec<u8>, histories: &Histories) -> Result<(), NoMemory>
    requires { Reportable histories.now }
    ensures { OnOk result (text.new.items ≡ text.old.items ++ total_line histories.now.ranges) }
{
    let ranges = histories.ranges.as_slice();
    let live = live_in_all(alloc, histories.first, histories.size, ranges)?;
    write_number(text, b"total ", count_all(Sort::Grants, ranges))?;
    write_number(text, b" ", count_all(Sort::Refusals, ranges))?;
    write_number(text, b" ", count_all(Sort::Releases, ranges))?;
    write_number(text, b" ", u128::from(live))?;
    text.extend_from_slice(b"\n")?;
    Ok(())
}

/// Appends the line of the halves, where there are such.
fn write_halves(alloc: Global, text: &mut Vec<u8>, histories: &Histories) -> Result<(), NoMemory>
    requires { Reportable histories.now }
    ensures { OnOk result (text.new.items ≡ text.old.items ++ halves_lines histories.now.mode histories.now.first histories.now.size histories.now.ranges) }
{
    match histories.mode {
        Mode::Split => write_split(alloc, text, histories),
        Mode::Increment => Ok(()),
        Mode::Random => Ok(()),
        Mode::TypeHash => Ok(()),
    }
}

/// Appends the line of the halves, where there are at least two ranges.
fn write_split(alloc: Global, text: &mut Vec<u8>, histories: &Histories) -> Result<(), NoMemory>
    requires { Reportable histories.now }
    ensures { OnOk result (text.new.items ≡ text.old.items ++ halves_lines Mode.Split histories.now.first histories.now.size histories.now.ranges) }
{
    if histories.ranges.len() < 2 {
        Ok(())
    } else {
        write_halves_line(alloc, text, histories)
    }
}

/// How many addresses were ever granted in the ranges of the first half.
fn lower(alloc: Global, histories: &Histories) -> Result<u64, NoMemory>
    requires { Reportable histories.now }
    ensures { IfOk result (λ bytes. bytes ≡ granted_bytes histories.now.size histories.now.first (take (length histories.now.ranges / 2) histories.now.ranges)) }
{
    let ranges = histories.ranges.as_slice();
    granted_in_all(
        alloc,
        histories.first,
        histories.size,
        &ranges[..ranges.len() / 2],
    )
}

/// How many addresses were ever granted in as many ranges behind them.
fn upper(alloc: Global, histories: &Histories) -> Result<u64, NoMemory>
    requires { Reportable histories.now }
    ensures { IfOk result (λ bytes. bytes ≡ granted_bytes histories.now.size (histories.now.first + length histories.now.ranges / 2 * histories.now.size) (take (length histories.now.ranges / 2) (drop (length histories.now.ranges / 2) histories.now.ranges))) }
{
    let ranges = histories.ranges.as_slice();
    let half = ranges.len() / 2;
    let first = histories.first + half as u64 * u64::from(histories.size);
    granted_in_all(alloc, first, histories.size, &ranges[half..2 * half])
}

/// Appends the line of the halves.
fn write_halves_line(
    alloc: Global,
    text: &mut Vec<u8>,
    histories: &Histories,
) -> Result<(), NoMemory>
    requires { Reportable histories.now }
    ensures { OnOk result (text.new.items ≡ text.old.items ++ halves_line histories.now.first histories.now.size histories.now.ranges) }
{
    let lower = lower(alloc, histories)?;
    let upper = upper(alloc, histories)?;
    write_number(text, b"halves ", u128::from(lower))?;
    write_number(text, b" ", u128::from(upper))?;
    text.extend_from_slice(b"\n")?;
    Ok(())
}
