//! Character constants and string literals.

ghost use Rattle.std.specs.Prelude.{◌≡◌, ◌++◌, ◌≤◌, [], length, IfOk, OnOk, None, pos};
ghost use Rattle.num_ops.specs.Conversions.{converted};
ghost use Rattle.num_ops.specs.declared.kinds.IntKind.TheVariants as k;
ghost use Rattle.c_lexer.specs.Bytes as bytes;
ghost use Rattle.c_lexer.specs.Value as value;
ghost use Rattle.c_constants.specs.Literals as literals;
ghost use Rattle.c_constants.specs.declared.literals.Reading.TheVariants as reading;

use crate::integers::digit_value;
use num_ops::{Int, IntKind, convert};
use std::alloc::Global;
use tok_base::{Bytes, Items, NoMemory};

/// What is being read where a byte of a literal stands.
#[derive(Clone, Copy, Debug)]
pub enum Reading {
    /// A part begins, or the literal ends.
    Between,
    /// Behind a backslash.
    Escaped,
    /// Behind so many octal digits of this value.
    Octal(u8, u8),
    /// Behind hexadecimal digits of this value.
    Hexadecimal(u8),
    /// Behind the closing quote.
    Closed,
}

/// What a byte of a literal gives: the byte of an escape that ended before it, its own, and what is
/// being read behind it.
#[derive(Clone, Copy, Debug)]
pub struct Taken {
    pub ended: Option<u8>,
    pub own: Option<u8>,
    pub reading: Reading,
}

fn is_octal(b: u8) -> bool
    ensures { result ≡ bytes.is_octal b }
{
    b'0' <= b && b <= b'7'
}

fn is_hex(b: u8) -> bool
    ensures { result ≡ bytes.is_hex b }
{
    (b'0' <= b && b <= b'9') || (b'A' <= b && b <= b'F') || (b'a' <= b && b <= b'f')
}

fn simple_value(b: u8) -> u8
    ensures { result ≡ value.simple_value b }
{
    match b {
        b'a' => 7,
        b'b' => 8,
        b'f' => 12,
        b'n' => 10,
        b'r' => 13,
        b't' => 9,
        b'v' => 11,
        _ => b,
    }
}

fn next_value(base: u8, value: u8, b: u8) -> u8
    requires { base ≤ 16 }
    ensures { result ≡ literals.next_value base value b }
{
    ((value as u32 * base as u32 + digit_value(b) as u32) % 256) as u8
}

fn take_between(q: u8, ended: Option<u8>, b: u8) -> Taken
    ensures { result ≡ literals.take_between q ended b }
{
    let (own, reading) = if b == q {
        (None, Reading::Closed)
    } else if b == b'\\' {
        (None, Reading::Escaped)
    } else {
        (Some(b), Reading::Between)
    };
    Taken {
        ended,
        own,
        reading,
    }
}

fn take_escaped(b: u8) -> Taken
    ensures { result ≡ literals.take_escaped b }
{
    let (own, reading) = if b == b'x' {
        (None, Reading::Hexadecimal(0))
    } else if is_octal(b) {
        (None, Reading::Octal(1, next_value(8, 0, b)))
    } else {
        (Some(simple_value(b)), Reading::Between)
    };
    Taken {
        ended: None,
        own,
        reading,
    }
}

fn reads_on(reading: Reading) -> Taken
    ensures { result ≡ literals.taken None None reading }
{
    Taken {
        ended: None,
        own: None,
        reading,
    }
}

fn take_byte(q: u8, reading: Reading, b: u8) -> Taken
    ensures { result ≡ literals.take_byte q reading b }
{
    match reading {
        Reading::Between => take_between(q, None, b),
        Reading::Closed => reads_on(Reading::Closed),
        Reading::Escaped => take_escaped(b),
        Reading::Octal(n, v) => {
            if is_octal(b) && n < 3 {
                reads_on(Reading::Octal(n + 1, next_value(8, v, b)))
            } else {
                take_between(q, Some(v), b)
            }
        }
        Reading::Hexadecimal(v) => {
            if is_hex(b) {
                reads_on(Reading::Hexadecimal(next_value(16, v, b)))
            } else {
                take_between(q, Some(v), b)
            }
        }
    }
}

/// The bytes that a character constant or a string literal stands for, by its spelling.
pub fn literal_bytes(alloc: Global, text: &[u8]) -> Result<Bytes, NoMemory>
    ensures { IfOk result (λ out. out ≡ literals.literal_bytes text.now) }
{
    let mut out = Items::new(alloc);
    match text {
        [] => Ok(out),
        [q, inside @ ..] => {
            append_inside(&mut out, *q, inside)?;
            Ok(out)
        }
    }
}

fn append_inside(out: &mut Bytes, q: u8, inside: &[u8]) -> Result<(), NoMemory>
    ensures { OnOk result (out.new ≡ out.old ++ literals.bytes_from q reading.Between inside.now) }
{
    let mut reading = Reading::Between;
    for b in inside {
        let taken = take_byte(q, reading, *b);
        match append_taken(out, taken) {
            Ok(()) => {}
            Err(end) => return Err(end),
        }
        reading = taken.reading;
    }
    Ok(())
}

fn append_taken(out: &mut Bytes, taken: Taken) -> Result<(), NoMemory>
    ensures { OnOk result (out.new ≡ out.old ++ literals.put taken.ended (literals.put taken.own [])) }
{
    append(out, taken.ended)?;
    append(out, taken.own)
}

fn append(out: &mut Bytes, byte: Option<u8>) -> Result<(), NoMemory>
    ensures { OnOk result (out.new ≡ out.old ++ literals.put byte []) }
{
    match byte {
        None => Ok(()),
        Some(b) => {
            out.push(b)?;
            Ok(())
        }
    }
}

/// The value of a character constant, of type `int`: that of a `char` with its byte (6.4.4.4,
/// paragraph 10).
pub fn char_value(text: &[u8]) -> i32
    ensures { result ≡ literals.char_value text.now }
{
    let byte = match text {
        [] => 0,
        [q, inside @ ..] => first_inside(*q, inside),
    };
    as_char(byte)
}

fn as_char(byte: u8) -> i32
    ensures { result ≡ converted k.Char (pos byte) }
{
    let value = convert(
        IntKind::Char,
        Int {
            kind: IntKind::UChar,
            value: byte as i128,
        },
    );
    value.value as i32
}

fn first_inside(q: u8, inside: &[u8]) -> u8
    ensures { result ≡ literals.first_byte (literals.bytes_from q reading.Between inside.now) }
{
    let mut reading = Reading::Between;
    for b in inside {
        let taken = take_byte(q, reading, *b);
        if let Some(byte) = taken.ended {
            return byte;
        }
        if let Some(byte) = taken.own {
            return byte;
        }
        reading = taken.reading;
    }
    0
}
