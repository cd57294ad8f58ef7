//! Values as cells, and back.

ghost use Rattle.std.specs.Prelude.{◌≡◌, ◌+◌, ◌<◌, ◌≤◌, ◌*◌, ◌^◌, List, map, take, length, Ok, Err, if◌then◌else◌};
ghost use Rattle.num_ops.specs.Conversions.{bits_of};
ghost use Rattle.num_ops.specs.Kinds.{modulus as modulus_of};
ghost use Rattle.c_core.specs.Values as values;
ghost use Rattle.c_core.specs.declared.values.Cell.TheVariants.{Byte};
ghost use Rattle.c_core.specs.declared.values.Scalar.TheVariants as scalar;

use c_core::{Cell, Fault, Pointer, Scalar, Value};
use num_ops::{Int, IntKind, convert};

fn has_undefined(cells: &[Cell]) -> bool
    ensures { result ≡ values.has_undefined cells.now }
{
    match cells {
        [] => false,
        [Cell::Undefined, ..] => true,
        [_, rest @ ..] => has_undefined(rest),
    }
}

fn has_part(cells: &[Cell]) -> bool
    ensures { result ≡ values.has_part cells.now }
{
    match cells {
        [] => false,
        [Cell::Part(_, _), ..] => true,
        [_, rest @ ..] => has_part(rest),
    }
}

fn byte_of(cell: Cell) -> u8
    ensures { result ≡ values.byte_of cell }
{
    match cell {
        Cell::Byte(byte) => byte,
        _ => 0,
    }
}

/// The number of which these are the low byte and the rest, which has `count` bytes.
pub fn joined(byte: u8, rest: u64, count: usize) -> u64
    requires count { count < 8 }
    requires rest { rest < 2 ^ (8 * count) }
    ensures number { result ≡ byte + 256 * rest }
    ensures bound { result < 2 ^ (8 * (count + 1)) }
{
    byte as u64 + 256 * rest
}

/// The number that the bytes of at most eight cells make.
fn number_of(cells: &[Cell]) -> u64
    requires { length cells.now ≤ 8 }
    ensures number { result ≡ values.number_of (map values.byte_of cells.now) }
    ensures bound { result < 2 ^ (8 * length cells.now) }
{
    match cells {
        [] => 0,
        [first, rest @ ..] => joined(byte_of(*first), number_of(rest), rest.len()),
    }
}

fn same_pointer(p: Pointer, q: Pointer) -> bool
    ensures { result ≡ values.same_pointer p q }
{
    match p {
        Pointer::Null => match q {
            Pointer::Null => true,
            Pointer::Object(_, _) | Pointer::Function(_) => false,
        },
        Pointer::Object(n, i) => match q {
            Pointer::Object(m, j) => n == m && i == j,
            Pointer::Null | Pointer::Function(_) => false,
        },
        Pointer::Function(f) => match q {
            Pointer::Function(g) => f == g,
            Pointer::Null | Pointer::Object(_, _) => false,
        },
    }
}

fn same_cell(c: Cell, d: Cell) -> bool
    ensures { result ≡ values.same_cell c d }
{
    match c {
        Cell::Undefined => match d {
            Cell::Undefined => true,
            Cell::Byte(_) | Cell::Part(_, _) => false,
        },
        Cell::Byte(a) => match d {
            Cell::Byte(b) => a == b,
            Cell::Undefined | Cell::Part(_, _) => false,
        },
        Cell::Part(p, i) => match d {
            Cell::Part(q, j) => same_pointer(p, q) && i == j,
            Cell::Undefined | Cell::Byte(_) => false,
        },
    }
}

fn same_cells(cells: &[Cell], others: &[Cell]) -> bool
    ensures { result ≡ values.same_cells cells.now others.now }
{
    match cells {
        [] => others.is_empty(),
        [c, cs @ ..] => match others {
            [] => false,
            [d, ds @ ..] => same_cell(*c, *d) && same_cells(cs, ds),
        },
    }
}

fn parts(p: Pointer) -> [Cell; 8]
    ensures { result ≡ values.parts p }
{
    [
        Cell::Part(p, 0),
        Cell::Part(p, 1),
        Cell::Part(p, 2),
        Cell::Part(p, 3),
        Cell::Part(p, 4),
        Cell::Part(p, 5),
        Cell::Part(p, 6),
        Cell::Part(p, 7),
    ]
}

/// A pointer, where the cells are those that it takes.
fn read_as(p: Pointer, cells: &[Cell], wanted: &[Cell]) -> Result<Value, Fault>
    ensures { result ≡ (if values.same_cells cells.now wanted.now then Ok (Value.Ptr p) else Err Fault.TornPointer) }
{
    if same_cells(cells, wanted) {
        Ok(Value::Ptr(p))
    } else {
        Err(Fault::TornPointer)
    }
}

/// The pointer that eight cells hold.
fn pointer_in(cells: &[Cell]) -> Result<Value, Fault>
    ensures { result ≡ values.pointer_in cells.now }
{
    match cells {
        [Cell::Part(p, _), ..] => read_as(*p, cells, &parts(*p)),
        _ => read_as(Pointer::Null, cells, &[Cell::Byte(0); 8]),
    }
}

fn pointer_cells(p: Pointer) -> [Cell; 8]
    ensures { result ≡ values.pointer_cells p }
{
    match p {
        Pointer::Null => [Cell::Byte(0); 8],
        Pointer::Object(_, _) | Pointer::Function(_) => parts(p),
    }
}

/// The value of a kind that has these bits.
pub fn int_from(kind: IntKind, bits: u64) -> Int
    requires { bits < 2 ^ (8 * values.scalar_size (scalar.Int kind)) }
    ensures { result ≡ record { kind = kind; value = values.int_from kind bits } }
{
    convert(
        kind,
        Int {
            kind: IntKind::ULongLong,
            value: bits as i128,
        },
    )
}

/// The value that cells hold, or the first fault.
pub fn value_in(kind: Scalar, cells: &[Cell]) -> Result<Value, Fault>
    requires { length cells.now ≡ values.scalar_size kind }
    ensures { result ≡ values.value_in kind cells.now }
{
    if has_undefined(cells) {
        return Err(Fault::Indeterminate);
    }
    match kind {
        Scalar::Int(kind) => {
            if has_part(cells) {
                return Err(Fault::PointerBytes);
            }
            Ok(Value::Int(int_from(kind, number_of(cells))))
        }
        Scalar::Ptr => pointer_in(cells),
    }
}

/// How many values the unsigned kind of the same width has, but for `_Bool`.
fn modulus(kind: IntKind) -> i128
    ensures { result ≡ modulus_of kind }
{
    match kind {
        IntKind::Bool => 2,
        IntKind::Char | IntKind::SChar | IntKind::UChar => 0x100,
        IntKind::Short | IntKind::UShort => 0x1_0000,
        IntKind::Int | IntKind::UInt => 0x1_0000_0000,
        IntKind::Long | IntKind::ULong => 0x1_0000_0000_0000_0000,
        IntKind::LongLong | IntKind::ULongLong => 0x1_0000_0000_0000_0000,
    }
}

/// The bits of a value.
pub fn bits(n: Int) -> u64
    ensures { result ≡ bits_of n.kind n.value }
{
    n.value.rem_euclid(modulus(n.kind)) as u64
}

/// Eight cells that begin with those of a value.
pub fn cells_of(value: Value) -> [Cell; 8]
    ensures { take (values.scalar_size (values.kind_of value)) result ≡ values.cells_of value }
{
    match value {
        Value::Int(n) => byte_cells(bits(n)),
        Value::Ptr(p) => pointer_cells(p),
    }
}

/// The bytes of a number, the low one first.
fn byte_cells(n: u64) -> [Cell; 8]
    ensures { result ≡ map Byte (values.little_endian 8 n) }
{
    let n1 = n / 256;
    let n2 = n1 / 256;
    let n3 = n2 / 256;
    let n4 = n3 / 256;
    let n5 = n4 / 256;
    let n6 = n5 / 256;
    let n7 = n6 / 256;
    [
        Cell::Byte((n % 256) as u8),
        Cell::Byte((n1 % 256) as u8),
        Cell::Byte((n2 % 256) as u8),
        Cell::Byte((n3 % 256) as u8),
        Cell::Byte((n4 % 256) as u8),
        Cell::Byte((n5 % 256) as u8),
        Cell::Byte((n6 % 256) as u8),
        Cell::Byte((n7 % 256) as u8),
    ]
}
