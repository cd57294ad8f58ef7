//! Integer constants.

ghost use Rattle.std.specs.Prelude.{◌≡◌, ◌≤◌, ◌^◌, drop, length, IfSome, IfNone, IsTrue, pos};
ghost use Rattle.std.specs.List.{prefix_len};
ghost use Rattle.num_ops.specs.Kinds.{holds};
ghost use Rattle.c_lexer.specs.Number as number;
ghost use Rattle.c_constants.specs.Integers as integers;

use num_ops::{Base, Int, IntKind, Length, constant_kind};

/// The value of an integer constant with its type, the first one of the standard's list for its base and
/// suffix that has it (6.4.4.1, paragraph 5). None exactly where none of the list has it: of a decimal
/// constant without `u` that is 2^63 or more, and of any constant that is 2^64 or more.
pub fn constant_of(text: &[u8]) -> Option<Int>
    ensures { result ≡ integers.constant_of text.now }
{
    let base = base_of(text);
    match value_of(radix(base), digits_of(base, text)) {
        None => None,
        Some(value) => {
            match constant_kind(base, is_unsigned(text), length_of(text), value) {
                None => None,
                Some(kind) => Some(of_kind(kind, value)),
            }
        }
    }
}

/// A value of a type that has it.
fn of_kind(kind: IntKind, value: u64) -> Int
    requires { IsTrue (holds kind (pos value)) }
    ensures { result ≡ record { kind = kind; value = pos value } }
{
    Int {
        kind,
        value: value as i128,
    }
}

fn is_unsigned_letter(b: u8) -> bool
    ensures { result ≡ integers.is_unsigned_letter b }
{
    b == b'u' || b == b'U'
}

fn is_long_letter(b: u8) -> bool
    ensures { result ≡ integers.is_long_letter b }
{
    b == b'l' || b == b'L'
}

fn is_unsigned(text: &[u8]) -> bool
    ensures { result ≡ integers.is_unsigned text.now }
{
    text.iter().any(|b| is_unsigned_letter(*b))
}

fn longer(length: Length) -> Length
    ensures { result ≡ integers.longer length }
{
    match length {
        Length::Plain => Length::Long,
        Length::Long | Length::LongLong => Length::LongLong,
    }
}

fn length_of(text: &[u8]) -> Length
    ensures { result ≡ integers.length_of text.now }
{
    let mut length = Length::Plain;
    for b in text {
        if is_long_letter(*b) {
            length = longer(length);
        }
    }
    length
}

fn base_of(text: &[u8]) -> Base
    ensures { result ≡ integers.base_of text.now }
{
    match text {
        [] => Base::Decimal,
        [b, behind @ ..] => {
            if *b == b'0' {
                base_behind_zero(behind)
            } else {
                Base::Decimal
            }
        }
    }
}

fn base_behind_zero(behind: &[u8]) -> Base
    ensures { result ≡ integers.base_behind_zero behind.now }
{
    match behind {
        [] => Base::Octal,
        [x, ..] => {
            if *x == b'x' || *x == b'X' {
                Base::Hexadecimal
            } else {
                Base::Octal
            }
        }
    }
}

fn radix(base: Base) -> u8
    ensures value { result ≡ integers.radix base }
    ensures least { 8 ≤ result }
    ensures most { result ≤ 16 }
{
    match base {
        Base::Octal => 8,
        Base::Decimal => 10,
        Base::Hexadecimal => 16,
    }
}

/// The digits of a constant, without its suffix.
fn digits_of(base: Base, text: &[u8]) -> &[u8]
    ensures { result.now ≡ integers.digits_of base text.now }
{
    match base {
        Base::Octal | Base::Decimal => without_suffix(text),
        Base::Hexadecimal => without_suffix(behind_two(text)),
    }
}

fn behind_two(text: &[u8]) -> &[u8]
    ensures { result.now ≡ drop 2 text.now }
{
    match text {
        [_, _, behind @ ..] => behind,
        _ => b"",
    }
}

fn goes_on(b: u8) -> bool
    ensures { result ≡ integers.goes_on b }
{
    !(is_unsigned_letter(b) || is_long_letter(b))
}

fn digits_len(text: &[u8]) -> usize
    ensures value { result ≡ prefix_len integers.goes_on text.now }
    ensures within { result ≤ length text.now }
{
    text.iter().take_while(|b| goes_on(**b)).count()
}

fn without_suffix(text: &[u8]) -> &[u8]
    ensures { result.now ≡ integers.without_suffix text.now }
{
    let n = digits_len(text);
    &text[..n]
}

/// The value of digits, where it is below 2^64.
fn value_of(radix: u8, digits: &[u8]) -> Option<u64>
    requires { (1 ≤ radix) × (radix ≤ 16) }
    ensures value { IfSome result (λ value. value ≡ number.value_from radix 0 digits.now) }
    ensures none { IfNone result (2 ^ 64 ≤ number.value_from radix 0 digits.now) }
{
    let mut value: u64 = 0;
    for digit in digits {
        let next = value as u128 * radix as u128 + digit_value(*digit) as u128;
        if next > u64::MAX as u128 {
            return None;
        }
        value = next as u64;
    }
    Some(value)
}

/// The value of a digit in any base up to 16.
pub(crate) fn digit_value(b: u8) -> u8
    ensures { result ≡ number.digit_value b }
{
    if b'0' <= b && b <= b'9' {
        b - b'0'
    } else if b'a' <= b && b <= b'f' {
        b - 87
    } else {
        b.saturating_sub(55)
    }
}
