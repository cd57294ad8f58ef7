//! Lists: `Items` takes memory as it grows, `Reserved` has its room made ahead.

ghost use Rattle.std.specs.Prelude.{◌≡◌, [], ◌∷◌, ◌++◌, ◌+◌, ◌-◌, ◌<◌, ◌≤◌, length, take, drop, slice_get, slice_set, IfOk, OnOk, OnErr, OnSome};
ghost use Rattle.std.specs.Option.{option_copied};

use sqlite_items::Items;
use std::alloc::{AllocError, Global};
use std::marker::Model;

/// A text as bytes.
pub type Bytes = Items<u8>;

/// There was no memory.
#[derive(Clone, Copy, Debug, PartialEq, Eq)]
pub struct NoMemory;

/// A call on the outside failed.
#[derive(Clone, Copy, Debug, PartialEq, Eq)]
pub struct Failed;

impl From<AllocError> for NoMemory {
    fn from(_: AllocError) -> NoMemory {
        NoMemory
    }
}

/// A list with room that was made ahead, so that a push takes no memory.
#[derive(Debug, Drop)]
pub struct Reserved<T> {
    list: Vec<T>,
}

impl<T> Model for Reserved<T> {
    ghost use Rattle.std.specs.Prelude.{◌-◌, vec_len, vec_capacity};
    ghost use Rattle.tok_base.specs.Room.{Listed, listed_code};

    ghost Value = { Listed T };

    ghost coded = { listed_code T.code };

    ghost view = { λ r. record { items = r.list.items; room = vec_capacity r.list - vec_len r.list } };
}

impl<T> Reserved<T> {
    /// An empty list with room for `room` items.
    pub fn with_room(alloc: Global, room: usize) -> Result<Reserved<T>, NoMemory>
        ensures { IfOk result (λ r. (r.items ≡ []) × (room ≤ r.room)) }
    {
        let list = Vec::with_capacity(alloc, room)?;
        Ok(Reserved { list })
    }

    /// Makes the room at least `more`. It never shrinks, and after an error it is as it was, below `more`.
    pub fn reserve(&mut self, more: usize) -> Result<(), NoMemory>
        ensures items { self.new.items ≡ self.old.items }
        ensures room { OnOk result (more ≤ self.new.room) }
        ensures grows { self.old.room ≤ self.new.room }
        ensures kept { OnErr result ((self.new.room ≡ self.old.room) × (self.old.room < more)) }
    {
        self.list.reserve(more)?;
        Ok(())
    }

    /// Puts an item at the end, in room that is there.
    pub fn push(&mut self, item: T)
        requires { 0 < self.old.room }
        ensures items { self.new.items ≡ self.old.items ++ item ∷ [] }
        ensures room { self.new.room + 1 ≡ self.old.room }
    {
        self.list.push_reserved(item);
    }

    pub fn as_slice(&self) -> &[T]
        ensures { result.now ≡ self.now.items }
    {
        self.list.as_slice()
    }

    pub fn len(&self) -> usize
        ensures { result ≡ length self.now.items }
    {
        self.list.len()
    }

    /// How many items can be pushed before more room is made.
    pub fn room(&self) -> usize
        ensures { result ≡ self.now.room }
    {
        self.list.capacity() - self.list.len()
    }

    pub fn get(&self, at: usize) -> Option<&T>
        ensures value { option_copied result ≡ slice_get self.now.items at }
        ensures within { OnSome result (at < length self.now.items) }
    {
        self.list.get(at)
    }

    /// The list, without its room.
    pub fn into_items(self) -> Items<T>
        ensures { result ≡ self.items }
    {
        let Reserved { list } = self;
        Items::from_vec(list)
    }
}

impl<T: Drop> Reserved<T> {
    pub fn set(&mut self, at: usize, item: T)
        requires { at < length self.old.items }
        ensures items { self.new.items ≡ slice_set self.old.items at item }
        ensures room { self.new.room ≡ self.old.room }
    {
        self.list[at] = item;
    }

    /// Takes out all items but the first `count`; their room stays.
    pub fn truncate(&mut self, count: usize)
        ensures items { self.new.items ≡ take count self.old.items }
        ensures room { self.old.room ≤ self.new.room }
    {
        self.list.truncate(count);
    }

    /// Takes all items out; their room stays.
    pub fn clear(&mut self)
        ensures items { self.new.items ≡ [] }
        ensures room { self.old.room ≤ self.new.room }
    {
        self.list.clear();
    }
}

/// Lets a value go and answers this error.
pub fn give_up<T: Drop, V, E>(_: T, end: E) -> Result<V, E>
    ensures { result ≡ Err end }
{
    Err(end)
}

/// What follows the first `at` bytes.
pub fn behind(bytes: &[u8], at: usize) -> &[u8]
    requires { at ≤ length bytes.now }
    ensures { result.now ≡ drop at bytes.now }
{
    &bytes[at..]
}
