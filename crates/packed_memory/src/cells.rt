//! A row of cells in nine bytes each: one byte, and a word that says what it is.

ghost use Rattle.std.specs.Prelude.{◌≡◌, ◌∷◌, [], ℕ, ◌+◌, ◌<◌, ◌≤◌, ◌^◌, ◌*◌, List, map, take, drop, length, replicate, slice_get, vec_len, true, IfOk, IfSome, Some, Ok, ◌%◌};
ghost use Rattle.c_core.specs.Values as values;
ghost use Rattle.c_core.specs.Blocks.{replaced};
ghost use Rattle.c_core.specs.declared.values.Cell.TheVariants as cell;
ghost use Rattle.c_core.specs.declared.values.Value.TheVariants as value;
ghost use Rattle.c_core.specs.declared.values.Scalar.TheVariants as scalar;
ghost use Rattle.num_ops.specs.Conversions.{bits_of};
ghost use Rattle.packed_memory.specs.Packed.{cell_in as cell_of, cells_in, over, HasWord, HoldsWord, PartHasWord};

use block_memory::scalar::{int_from, joined, value_in};
use c_core::{Cell, Fault, Pointer, Scalar, Value, size_of};
use num_ops::{Int, IntKind};
use std::alloc::Global;
use std::marker::Model;
use tok_base::NoMemory;

/// The word of an undefined cell.
const UNDEFINED: u64 = 0;

/// The word of a byte.
const BYTE: u64 = 1;

/// Replaces a part of a list.
#[inline]
fn overwrite<T: Copy>(list: &mut Vec<T>, at: usize, new: &[T])
    requires { at + length new.now ≤ vec_len list.old }
    ensures { list.new.items ≡ over list.old.items at new.now }
{
    list.as_mut_slice()[at..at + new.len()].copy_from_slice(new);
}

#[inline]
fn spread_bytes(list: &mut Vec<u8>, at: usize, count: usize, byte: u8)
    requires { at + count ≤ vec_len list.old }
    ensures { list.new.items ≡ over list.old.items at (replicate count byte) }
{
    list.as_mut_slice()[at..at + count].fill(byte);
}

#[inline]
fn spread_words(list: &mut Vec<u64>, at: usize, count: usize, word: u64)
    requires { at + count ≤ vec_len list.old }
    ensures { list.new.items ≡ over list.old.items at (replicate count word) }
{
    list.as_mut_slice()[at..at + count].fill(word);
}

/// Copies a part of a list within it.
#[inline]
fn shift<T: Copy>(list: &mut Vec<T>, at: usize, start: usize, count: usize)
    requires room { at + count ≤ vec_len list.old }
    requires part { start + count ≤ vec_len list.old }
    ensures { list.new.items ≡ over list.old.items at (take count (drop start list.old.items)) }
{
    list.copy_within(start..start + count, at);
}

/// The cell that a byte and a word stand for.
fn cell_in(byte: u8, word: u64) -> Cell
    ensures { result ≡ cell_of byte word }
{
    let number = (word / 4 % 0x1_0000_0000) as u32;
    match word % 4 {
        0 => Cell::Undefined,
        1 => Cell::Byte(byte),
        2 => Cell::Part(Pointer::Object(number, word / 0x4_0000_0000), byte),
        _ => Cell::Part(Pointer::Function(number), byte),
    }
}

/// The word of the parts of a pointer.
fn word_of(p: Pointer) -> u64
    requires { HasWord p }
    ensures { (b : ℕ) → cell_of b result ≡ cell.Part p b }
{
    match p {
        Pointer::Null => UNDEFINED,
        Pointer::Object(number, offset) => 2 + 4 * number as u64 + 0x4_0000_0000 * offset,
        Pointer::Function(number) => 3 + 4 * number as u64,
    }
}

/// A row of cells.
#[derive(Drop)]
pub(crate) struct PackedCells {
    bytes: Vec<u8>,
    words: Vec<u64>,
}

impl Model for PackedCells {
    ghost use Rattle.std.specs.Prelude.{◌≡◌, List, vec_len};
    ghost use Rattle.c_core.specs.declared.values.Cell.{Cell};
    ghost use Rattle.packed_memory.specs.Packed.{cells_in};

    ghost Value = { List Cell };

    ghost view = { λ c. cells_in c.bytes.items c.words.items };

    ghost invariant = { λ c. vec_len c.words ≡ vec_len c.bytes };
}

impl PackedCells {
    /// So many undefined cells.
    pub fn new(alloc: Global, count: usize) -> Result<PackedCells, NoMemory>
        ensures { IfOk result (λ c. c ≡ replicate count cell.Undefined) }
    {
        let bytes = Vec::from_elem(alloc, 0u8, count)?;
        let words = Vec::from_elem(alloc, UNDEFINED, count)?;
        Ok(PackedCells { bytes, words })
    }

    pub fn len(&self) -> usize
        ensures { result ≡ length self.now }
    {
        self.bytes.len()
    }

    /// Writes bytes that have one word.
    #[inline]
    fn put(&mut self, at: usize, bytes: &[u8], word: u64)
        requires { at + length bytes.now ≤ length self.old }
        ensures { self.new ≡ replaced self.old at (map (λ b. cell_of b word) bytes.now) }
    {
        overwrite(&mut self.bytes, at, bytes);
        spread_words(&mut self.words, at, bytes.len(), word);
    }

    /// Writes one cell `count` times.
    fn spread(&mut self, at: usize, count: usize, byte: u8, word: u64)
        requires { at + count ≤ length self.old }
        ensures { self.new ≡ replaced self.old at (replicate count (cell_of byte word)) }
    {
        spread_bytes(&mut self.bytes, at, count, byte);
        spread_words(&mut self.words, at, count, word);
    }

    /// Makes cells undefined.
    pub fn clear(&mut self, at: usize, count: usize)
        requires { at + count ≤ length self.old }
        ensures { self.new ≡ replaced self.old at (replicate count cell.Undefined) }
    {
        self.spread(at, count, 0, UNDEFINED);
    }

    /// Writes one byte `count` times.
    pub fn fill(&mut self, at: usize, count: usize, byte: u8)
        requires { at + count ≤ length self.old }
        ensures { self.new ≡ replaced self.old at (replicate count (cell.Byte byte)) }
    {
        self.spread(at, count, byte, BYTE);
    }

    /// Copies cells as they are.
    pub fn copy(&mut self, to: usize, from: usize, count: usize)
        requires to { to + count ≤ length self.old }
        requires from { from + count ≤ length self.old }
        ensures { self.new ≡ replaced self.old to (take count (drop from self.old)) }
    {
        shift(&mut self.bytes, to, from, count);
        shift(&mut self.words, to, from, count);
    }

    /// Writes the low bytes of a number.
    #[inline]
    fn put_number(&mut self, at: usize, number: u64, size: usize)
        requires size { size ≤ 8 }
        requires room { at + size ≤ length self.old }
        ensures { self.new ≡ replaced self.old at (map cell.Byte (values.little_endian size number)) }
    {
        let bytes = bytes_of(number);
        self.put(at, &bytes[..size], BYTE);
    }

    #[inline]
    fn put_int(&mut self, at: usize, n: Int)
        requires { at + values.scalar_size (scalar.Int n.kind) ≤ length self.old }
        ensures { self.new ≡ replaced self.old at (values.cells_of (value.Int n)) }
    {
        let size = size_of(Scalar::Int(n.kind)) as usize;
        let number = low_bits(n.kind, n.value);
        self.put_number(at, number, size);
    }

    #[inline]
    fn put_pointer(&mut self, at: usize, p: Pointer)
        requires room { at + 8 ≤ length self.old }
        requires small { HoldsWord (value.Ptr p) }
        ensures { self.new ≡ replaced self.old at (values.pointer_cells p) }
    {
        match p {
            Pointer::Null => self.put(at, &[0; 8], BYTE),
            Pointer::Object(_, _) | Pointer::Function(_) => {
                self.put(at, &[0, 1, 2, 3, 4, 5, 6, 7], word_of(p));
            }
        }
    }

    /// Writes the cells of a value.
    #[inline]
    pub fn store(&mut self, at: usize, value: Value)
        requires room { at + values.scalar_size (values.kind_of value) ≤ length self.old }
        requires small { HoldsWord value }
        ensures { self.new ≡ replaced self.old at (values.cells_of value) }
    {
        match value {
            Value::Int(n) => self.put_int(at, n),
            Value::Ptr(p) => self.put_pointer(at, p),
        }
    }

    /// Writes one cell.
    pub fn set(&mut self, at: usize, cell: Cell)
        requires room { at < length self.old }
        requires small { PartHasWord cell }
        ensures { self.new ≡ replaced self.old at (cell ∷ []) }
    {
        match cell {
            Cell::Undefined => self.put(at, &[0], UNDEFINED),
            Cell::Byte(byte) => self.put(at, &[byte], BYTE),
            Cell::Part(p, i) => self.put(at, &[i], word_of(p)),
        }
    }

    /// The value that cells hold, or the first fault.
    #[inline]
    pub fn load(&self, at: usize, kind: Scalar) -> Result<Value, Fault>
        requires { at + values.scalar_size kind ≤ length self.now }
        ensures { result ≡ values.value_in kind (take (values.scalar_size kind) (drop at self.now)) }
    {
        let size = size_of(kind) as usize;
        let bytes = &self.bytes.as_slice()[at..at + size];
        let words = &self.words.as_slice()[at..at + size];
        match whole(kind, bytes, words) {
            Some(value) => Ok(value),
            None => by_cells(kind, bytes, words),
        }
    }
}

/// The value of cells, which are read one by one, or the first fault.
fn by_cells(kind: Scalar, bytes: &[u8], words: &[u64]) -> Result<Value, Fault>
    requires bytes { length bytes.now ≡ values.scalar_size kind }
    requires words { length words.now ≡ values.scalar_size kind }
    ensures { result ≡ values.value_in kind (cells_in bytes.now words.now) }
{
    let size = size_of(kind) as usize;
    let mut cells = [Cell::Undefined; 8];
    for i in 0..size {
        cells[i] = cell_in(bytes[i], words[i]);
    }
    value_in(kind, &cells[..size])
}

/// The bits of a value, by a remainder that needs no division.
#[inline]
fn low_bits(kind: IntKind, value: i128) -> u64
    ensures { result ≡ bits_of kind value }
{
    match kind {
        IntKind::Bool => value.rem_euclid(2) as u64,
        IntKind::Char | IntKind::SChar | IntKind::UChar => value.rem_euclid(0x100) as u64,
        IntKind::Short | IntKind::UShort => value.rem_euclid(0x1_0000) as u64,
        IntKind::Int | IntKind::UInt => value.rem_euclid(0x1_0000_0000) as u64,
        IntKind::Long | IntKind::ULong | IntKind::LongLong | IntKind::ULongLong => {
            value.rem_euclid(0x1_0000_0000_0000_0000) as u64
        }
    }
}

/// The value of cells that are all of one sort, where it is found at once.
#[inline]
fn whole(kind: Scalar, bytes: &[u8], words: &[u64]) -> Option<Value>
    requires bytes { length bytes.now ≡ values.scalar_size kind }
    requires words { length words.now ≡ values.scalar_size kind }
    ensures { IfSome result (λ v. values.value_in kind (cells_in bytes.now words.now) ≡ Ok v) }
{
    match kind {
        Scalar::Int(kind) => {
            if are_all(words, BYTE) {
                Some(Value::Int(int_from(kind, number_of(bytes))))
            } else {
                None
            }
        }
        Scalar::Ptr => {
            let word = words[0];
            if word % 4 >= 2 && are_all(words, word) && are_parts(bytes) {
                Some(Value::Ptr(pointer_of(word)))
            } else {
                None
            }
        }
    }
}

/// The pointer that a word holds.
fn pointer_of(word: u64) -> Pointer
    requires { 2 ≤ word % 4 }
    ensures { (b : ℕ) → cell_of b word ≡ cell.Part result b }
{
    let number = (word / 4 % 0x1_0000_0000) as u32;
    if word % 4 == 2 {
        Pointer::Object(number, word / 0x4_0000_0000)
    } else {
        Pointer::Function(number)
    }
}

fn are_all(words: &[u64], word: u64) -> bool
    ensures { result ≡ true → words.now ≡ replicate (length words.now) word }
{
    for other in words {
        if *other != word {
            return false;
        }
    }
    true
}

/// Whether these are the bytes of the parts of a pointer.
fn are_parts(bytes: &[u8]) -> bool
    ensures { result ≡ true → bytes.now ≡ 0 ∷ 1 ∷ 2 ∷ 3 ∷ 4 ∷ 5 ∷ 6 ∷ 7 ∷ [] }
{
    bytes == [0, 1, 2, 3, 4, 5, 6, 7].as_slice()
}

/// The number that at most eight bytes make, the low one first.
fn number_of(bytes: &[u8]) -> u64
    requires { length bytes.now ≤ 8 }
    ensures number { result ≡ values.number_of bytes.now }
    ensures bound { result < 2 ^ (8 * length bytes.now) }
{
    match bytes {
        [] => 0,
        [first, rest @ ..] => joined(*first, number_of(rest), rest.len()),
    }
}

/// The bytes of a number, the low one first.
fn bytes_of(n: u64) -> [u8; 8]
    ensures { result ≡ values.little_endian 8 n }
{
    let n1 = n / 256;
    let n2 = n1 / 256;
    let n3 = n2 / 256;
    let n4 = n3 / 256;
    let n5 = n4 / 256;
    let n6 = n5 / 256;
    let n7 = n6 / 256;
    [
        (n % 256) as u8,
        (n1 % 256) as u8,
        (n2 % 256) as u8,
        (n3 % 256) as u8,
        (n4 % 256) as u8,
        (n5 % 256) as u8,
        (n6 % 256) as u8,
        (n7 % 256) as u8,
    ]
}
