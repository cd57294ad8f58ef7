//! The heap of one range.

ghost use Rattle.std.specs.Prelude.{◌≡◌, ℕ, ◌+◌, ◌-◌, ◌*◌, ◌/◌, ◌%◌, ◌^◌, ◌<◌, ◌≤◌, List, [], ◌∷◌, ◌++◌, length, replicate, true, false, IfOk, OnOk, OnErr, IfSome, IfNone, MatchOption};
ghost use Rattle.range_heap.specs.Blocks.{rounded, live, live_at};
ghost use Rattle.range_heap.specs.History.{Legal, region, call_of};
ghost use Rattle.hole_list.specs.Units.{IsRun, IsLowestRun, Marked};
ghost use Rattle.range_heap.specs.declared.call.HeapEvent.TheVariants.{Grant, Refuse, Release};

use crate::call::{HeapCall, HeapEvent};
use hole_list::Holes;
use std::alloc::Global;
use std::marker::Model;
use tok_base::{Items, NoMemory};

/// The heap of one range, with the history of its calls.
#[derive(Drop)]
pub struct RangeHeap {
    first: u64,
    size: u32,
    holes: Holes,
    sizes: Vec<Option<u32>>,
    calls: Vec<HeapCall>,
}

impl Model for RangeHeap {
    ghost use Rattle.std.specs.Prelude.{◌-◌, vec_len, vec_capacity};
    ghost use Rattle.range_heap.specs.Seen.{Kept};
    ghost use Rattle.range_heap.specs.Sound.{Sound};

    ghost Value = { Kept };

    ghost view = { λ h. record { first = h.first; size = h.size; room = vec_capacity h.calls - vec_len h.calls; history = h.calls.items } };

    ghost invariant = { λ h. Sound h.first h.size h.holes h.sizes.items h.calls.items };
}

impl RangeHeap {
    /// The heap of the `size` addresses from `first` on, with room for `calls` entries.
    pub fn new(alloc: Global, first: u64, size: u32, calls: u64) -> Result<RangeHeap, NoMemory>
        requires first_multiple { first % 16 ≡ 0 }
        requires first_below { first < 2 ^ 62 }
        requires multiple { size % 16 ≡ 0 }
        requires least { 16 ≤ size }
        requires most { size ≤ 1048576 }
        ensures first { IfOk result (λ h. h.first ≡ first) }
        ensures size { IfOk result (λ h. h.size ≡ size) }
        ensures room { IfOk result (λ h. calls ≤ h.room) }
        ensures history { IfOk result (λ h. h.history ≡ []) }
    {
        let holes = Holes::new(alloc, size)?;
        let sizes = no_sizes(alloc, size / 16)?;
        let calls = Vec::with_capacity(alloc, calls as usize)?;
        Ok(RangeHeap {
            first,
            size,
            holes,
            sizes,
            calls,
        })
    }

    /// Makes the room for entries at least `more`.
    pub fn reserve(&mut self, more: u64) -> Result<(), NoMemory>
        ensures first { self.new.first ≡ self.old.first }
        ensures size { self.new.size ≡ self.old.size }
        ensures history { self.new.history ≡ self.old.history }
        ensures room { OnOk result (more ≤ self.new.room) }
        ensures keeps { self.old.room ≤ self.new.room }
    {
        self.calls.reserve(more as usize)?;
        Ok(())
    }

    /// Asks for `size` bytes for the caller `who`. None exactly where no place fits.
    pub fn grant(&mut self, who: u32, size: u128) -> Option<u64>
        requires { 0 < self.old.room }
        ensures first { self.new.first ≡ self.old.first }
        ensures size { self.new.size ≡ self.old.size }
        ensures room { self.new.room + 1 ≡ self.old.room }
        ensures entry { MatchOption result (self.new.history ≡ self.old.history ++ call_of who (Refuse size) ∷ []) (λ p. self.new.history ≡ self.old.history ++ call_of who (Grant size p) ∷ []) }
        ensures fresh { IfSome result (λ p. live p self.old.history ≡ false) }
        ensures legal { Legal (region self.new.first self.new.size) self.new.history }
    {
        let Some(at) = take_rounded(&mut self.holes, self.size, size) else {
            self.calls.push_reserved(HeapCall {
                who,
                what: HeapEvent::Refuse { size },
            });
            return None;
        };
        self.sizes[at as usize / 16] = Some(size as u32);
        let place = self.first + u64::from(at);
        self.calls.push_reserved(HeapCall {
            who,
            what: HeapEvent::Grant { size, place },
        });
        Some(place)
    }

    /// Gives back the live block at `place`, for the caller `who`.
    pub fn release(&mut self, who: u32, place: u64)
        requires room { 0 < self.old.room }
        requires live { live place self.old.history ≡ true }
        ensures first { self.new.first ≡ self.old.first }
        ensures size { self.new.size ≡ self.old.size }
        ensures room { self.new.room + 1 ≡ self.old.room }
        ensures entry { self.new.history ≡ self.old.history ++ call_of who (Release place) ∷ [] }
        ensures legal { Legal (region self.new.first self.new.size) self.new.history }
    {
        let at = (place - self.first) as u32;
        let unit = at as usize / 16;
        let size = self.sizes[unit].unwrap();
        self.holes.give(at, round_up(size));
        self.sizes[unit] = None;
        self.calls.push_reserved(HeapCall {
            who,
            what: HeapEvent::Release { place },
        });
    }

    /// The size that was asked for of the live block that begins at `place`.
    pub fn live_at(&self, place: u64) -> Option<u64>
        ensures { result ≡ live_at place self.now.history }
    {
        if place < self.first || place - self.first >= u64::from(self.size) || place % 16 != 0 {
            return None;
        }
        let unit = (place - self.first) as usize / 16;
        self.sizes[unit].map(u64::from)
    }

    /// The calls so far, each with its answer.
    pub fn history(&self) -> &[HeapCall]
        ensures calls { result.now ≡ self.now.history }
        ensures legal { Legal (region self.now.first self.now.size) self.now.history }
        ensures room { self.now.room < 2 ^ 64 }
    {
        self.calls.as_slice()
    }

    /// The calls, without the heap.
    pub fn into_history(self) -> Items<HeapCall>
        ensures { result ≡ self.history }
    {
        let RangeHeap { calls, .. } = self;
        Items::from_vec(calls)
    }
}

/// Takes a block of `size` bytes out of the holes of a range of `range` bytes.
fn take_rounded(holes: &mut Holes, range: u32, size: u128) -> Option<u32>
    requires most { range ≤ 1048576 }
    requires units { 16 * length holes.old ≡ range }
    ensures small { IfSome result (λ at. size ≤ range) }
    ensures place { IfSome result (λ at. (at % 16 ≡ 0) × (at + rounded size ≤ range)) }
    ensures lowest { IfSome result (λ at. IsLowestRun holes.old (rounded size / 16) (at / 16)) }
    ensures taken { IfSome result (λ at. Marked false holes.old holes.new (at / 16) (rounded size / 16)) }
    ensures none { IfNone result ((at : ℕ) → ¬ IsRun holes.old at (rounded size / 16)) }
    ensures unchanged { IfNone result (holes.new ≡ holes.old) }
{
    if size > u128::from(range) {
        return None;
    }
    holes.take(round_up(size as u32))
}

/// The least positive multiple of 16 that is not below the size.
pub(crate) fn round_up(size: u32) -> u32
    requires { size ≤ 1048576 }
    ensures { result ≡ rounded size }
{
    16 * ((size + 15) / 16).max(1)
}

/// A table of units with no live block.
fn no_sizes(alloc: Global, units: u32) -> Result<Vec<Option<u32>>, NoMemory>
    ensures { IfOk result (λ v. v.items ≡ replicate units None) }
{
    let mut sizes = Vec::with_capacity(alloc, units as usize)?;
    for _unit in 0..units {
        sizes.push_reserved(None);
    }
    Ok(sizes)
}
