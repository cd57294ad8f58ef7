//! Integer constants, and the kind of a token.

ghost use Rattle.std.specs.Prelude.{◌≡◌, ◌+◌, ◌*◌, ◌^◌, ◌<◌, ◌≤◌, length, nat_lt, true, ◌∷◌};
ghost use Rattle.std.specs.List.{prefix_len};
ghost use Rattle.c_lexer.specs.Bytes as bytes;
ghost use Rattle.c_lexer.specs.Bytes.{Each};
ghost use Rattle.c_lexer.specs.Number as number;
ghost use Rattle.c_lexer.specs.Scan as scan;

use crate::bytes::{is_digit, is_hex, is_octal};
use crate::literal::digit_value;
use crate::spelling::{First, begins_digit, class_of, is_one_of, is_word};
use tok_base::Kind;

const SUFFIXES: [&[u8]; 23] = [
    b"", b"u", b"U", b"l", b"L", b"ll", b"LL", b"ul", b"uL", b"ull", b"uLL", b"Ul", b"UL", b"Ull",
    b"ULL", b"lu", b"lU", b"Lu", b"LU", b"llu", b"llU", b"LLu", b"LLU",
];

fn is_suffix(s: &[u8]) -> bool
    ensures { result ≡ number.is_suffix s.now }
{
    is_one_of(&SUFFIXES, s)
}

fn in_base(base: u8, b: u8) -> bool
    ensures { result ≡ scan.in_base base b }
{
    if base == 8 {
        is_octal(b)
    } else if base == 10 {
        is_digit(b)
    } else {
        is_hex(b)
    }
}

fn digits_len(base: u8, w: &[u8]) -> usize
    ensures value { result ≡ prefix_len (scan.in_base base) w.now }
    ensures within { result ≤ length w.now }
{
    w.iter().take_while(|b| in_base(base, **b)).count()
}

/// Whether the value of the digits is below 2 ^ 64.
fn is_small(base: u8, digits: &[u8]) -> bool
    requires base { (1 ≤ base) × (base ≤ 16) }
    requires digits { Each bytes.is_hex digits.now }
    ensures { result ≡ nat_lt (number.value_from base 0 digits.now) (2 ^ 64) }
{
    let mut value: u128 = 0;
    for d in digits {
        value = value * base as u128 + digit_value(*d) as u128;
        if value > u64::MAX as u128 {
            return false;
        }
    }
    true
}

fn fits(base: u8, w: &[u8]) -> bool
    requires { (1 ≤ base) × (base ≤ 16) }
    ensures { result ≡ scan.fits base w.now }
{
    let n = digits_len(base, w);
    is_small(base, &w[..n]) && is_suffix(&w[n..])
}

fn hex_fits(w: &[u8]) -> bool
    ensures { result ≡ scan.hex_fits w.now }
{
    match w {
        [] => false,
        [d, ..] => is_hex(*d) && fits(16, w),
    }
}

/// Of a text that begins with 0.
fn zero_fits(w: &[u8], behind: &[u8]) -> bool
    requires { w.now ≡ 48 ∷ behind.now }
    ensures { result ≡ scan.zero_fits behind.now }
{
    match behind {
        [] => true,
        [x, ds @ ..] => {
            if *x == b'x' || *x == b'X' {
                hex_fits(ds)
            } else {
                fits(8, w)
            }
        }
    }
}

fn is_constant(w: &[u8]) -> bool
    ensures { result ≡ scan.is_constant w.now }
{
    match w {
        [] => false,
        [d, ds @ ..] => {
            if *d == b'0' {
                zero_fits(w, ds)
            } else {
                is_digit(*d) && fits(10, w)
            }
        }
    }
}

fn number_kind(w: &[u8]) -> Option<Kind>
    ensures { result ≡ scan.kind_at First.Digit w.now }
{
    if is_constant(w) {
        Some(Kind::Number)
    } else {
        None
    }
}

fn word_kind(w: &[u8]) -> Kind
    ensures { Some result ≡ scan.kind_at First.Letter w.now }
{
    if is_word(w) { Kind::Word } else { Kind::Name }
}

/// The kind of the token that a spelling is.
pub fn kind_of(w: &[u8]) -> Option<Kind>
    ensures { result ≡ scan.kind_of w.now }
{
    match w {
        [] => None,
        [b, more @ ..] => match class_of(*b) {
            First::Letter => Some(word_kind(w)),
            First::Digit => number_kind(w),
            First::Dot => {
                if begins_digit(more) {
                    None
                } else {
                    Some(Kind::Mark)
                }
            }
            First::Single => Some(Kind::Char),
            First::Double => Some(Kind::Text),
            First::Other => Some(Kind::Mark),
        },
    }
}
