//! The ranges of all tokens.

ghost use Rattle.std.specs.Prelude.{◌≡◌, ℕ, ◌+◌, ◌*◌, ◌%◌, ◌<◌, ◌≤◌, List, [], map, length, slice_index_or, None, IfOk, OnOk, IfSome, IfNone, IsOk};
ghost use Rattle.range_heap.specs.Seen.{Kept};
ghost use Rattle.range_heap.specs.Ranges.{range_first, InRange, half_of, AllLegal, StayApart};
ghost use Rattle.range_heap.specs.Steps.{Granted, Released, Roomier, Changed, HasLive, histories};

use crate::call::HeapCall;
use crate::half::Half;
use crate::heap::RangeHeap;
use std::alloc::Global;
use std::marker::Model;
use tok_base::{Items, NoMemory};

/// The first address of range 0.
const FIRST_ADDRESS: u64 = 16777216;

/// One heap for each of 1 to 256 tokens, each in its own addresses.
#[derive(Drop)]
pub struct Ranges {
    size: u32,
    heaps: Vec<RangeHeap>,
}

impl Model for Ranges {
    ghost use Rattle.range_heap.specs.Seen.{AllHeaps};
    ghost use Rattle.range_heap.specs.Ranges.{Standing};

    ghost Value = { AllHeaps };

    ghost view = { λ r. record { size = r.size; heaps = r.heaps.items } };

    ghost invariant = { λ r. Standing r.size r.heaps.items };
}

impl Ranges {
    /// `count` ranges of `size` addresses each, with empty histories.
    pub fn new(alloc: Global, count: u32, size: u32) -> Result<Ranges, NoMemory>
        requires some { 1 ≤ count }
        requires most_ranges { count ≤ 256 }
        requires multiple { size % 16 ≡ 0 }
        requires least { 16 ≤ size }
        requires most { size ≤ 1048576 }
        ensures size { IfOk result (λ all. all.size ≡ size) }
        ensures count { IfOk result (λ all. length all.heaps ≡ count) }
        ensures empty { IfOk result (λ all. (t : ℕ) (d : Kept) → t < count → (slice_index_or all.heaps t d).history ≡ []) }
    {
        let mut heaps = Vec::with_capacity(alloc, count as usize)?;
        for token in 0..count {
            let first = FIRST_ADDRESS + u64::from(token) * u64::from(size);
            let heap = RangeHeap::new(alloc, first, size, 0)?;
            heaps.push_reserved(heap);
        }
        Ok(Ranges { size, heaps })
    }

    /// Makes the room of that token's range at least `more`, if there is such a range.
    pub fn reserve(&mut self, token: u64, more: u64) -> Result<(), NoMemory>
        ensures outside { length self.old.heaps ≤ token → IsOk result × (self.new ≡ self.old) }
        ensures inside { token < length self.old.heaps → Changed token Roomier self.old self.new }
        ensures room { token < length self.old.heaps → OnOk result ((d : Kept) → more ≤ (slice_index_or self.new.heaps token d).room) }
    {
        if token >= self.heaps.len() as u64 {
            return Ok(());
        }
        let heap = &mut self.heaps[token as usize];
        heap.reserve(more)
    }

    /// Asks for `size` bytes in the range of a token. None exactly where no place fits there.
    pub fn grant(&mut self, who: u32, token: u64, size: u128) -> Option<u64>
        requires { token < length self.old.heaps → (d : Kept) → 0 < (slice_index_or self.old.heaps token d).room }
        ensures outside { length self.old.heaps ≤ token → (result ≡ None) × (self.new ≡ self.old) }
        ensures inside { token < length self.old.heaps → Changed token (Granted who size result) self.old self.new }
    {
        if token >= self.heaps.len() as u64 {
            return None;
        }
        let heap = &mut self.heaps[token as usize];
        heap.grant(who, size)
    }

    /// Gives back the live block at `place`.
    pub fn release(&mut self, who: u32, place: u64)
        requires { (t : ℕ) × HasLive self.old place t }
        ensures { (t : ℕ) → HasLive self.old place t → Changed t (Released who place) self.old self.new }
    {
        let size = u64::from(self.size);
        let token = (place - FIRST_ADDRESS) / size;
        let heap = &mut self.heaps[token as usize];
        heap.release(who, place);
    }

    /// The token in whose range an address lies.
    pub fn range_of(&self, address: u64) -> Option<u32>
        ensures inside { IfSome result (λ t. (t < length self.now.heaps) × InRange self.now.size t address) }
        ensures outside { IfNone result ((t : ℕ) → t < length self.now.heaps → ¬ InRange self.now.size t address) }
    {
        if address < FIRST_ADDRESS {
            return None;
        }
        let token = (address - FIRST_ADDRESS) / u64::from(self.size);
        if token < self.heaps.len() as u64 {
            Some(token as u32)
        } else {
            None
        }
    }

    /// The half in which a token stands.
    pub fn half_of(&self, token: u64) -> Option<Half>
        ensures { result ≡ half_of (length self.now.heaps) token }
    {
        let half = self.heaps.len() as u64 / 2;
        if token < half {
            Some(Half::Lower)
        } else if token < 2 * half {
            Some(Half::Upper)
        } else {
            None
        }
    }

    /// How many ranges there are.
    pub fn count(&self) -> u32
        ensures { result ≡ length self.now.heaps }
    {
        self.heaps.len() as u32
    }

    /// The heap of a token.
    pub fn heap(&self, token: u32) -> &RangeHeap
        requires { token < length self.now.heaps }
        ensures heap { (d : Kept) → result.now ≡ slice_index_or self.now.heaps token d }
        ensures first { result.now.first ≡ range_first self.now.size token }
        ensures size { result.now.size ≡ self.now.size }
    {
        &self.heaps[token as usize]
    }

    /// The history of each range, without the heaps.
    pub fn into_histories(self, alloc: Global) -> Result<Items<Items<HeapCall>>, NoMemory>
        ensures { IfOk result (λ all. all ≡ histories self) }
    {
        let Ranges { heaps, .. } = self;
        let row: Vec<Items<HeapCall>> = heaps
            .into_iter()
            .map(|heap| heap.into_history())
            .collect(alloc)?;
        Ok(Items::from_vec(row))
    }

    /// What always holds: each history is legal in its range, so that no two live blocks meet and the
    /// storage of the halves is disjoint. It does nothing.
    pub fn stands(&self)
        ensures legal { AllLegal self.now.size (histories self.now) }
        ensures apart { StayApart (histories self.now) }
        ensures some { 0 < length self.now.heaps }
        ensures most { length self.now.heaps ≤ 256 }
    {
        let _ = &self.heaps;
    }
}
