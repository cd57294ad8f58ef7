//! The entry points of allocation tokens, whose last parameter is the token, or whose names hold it.

ghost use Rattle.std.specs.Prelude.{◌≡◌, ◌<◌, false, option_map, option_copied};
ghost use Rattle.c_rules.specs.Names as rules;
ghost use Rattle.library_names.specs.Entries.{digit_taken, entries, fast, mark_taken};
ghost use Rattle.library_names.specs.Named.{first_named, library_type};
ghost use Rattle.library_names.specs.Signatures.{signature_type};

use crate::library::{Library, library_named, signature};
use crate::signature::{Parameters, Part, Signature};
use crate::texts::is_text;

/// An entry point whose last parameter is the token, by its name.
fn entry_named(name: &[u8]) -> Option<Signature>
    ensures { result ≡ first_named entries name.now }
{
    if is_text(name, b"__alloc_token_malloc") {
        return Some(signature(Part::Pointer, Parameters::Two(Part::Size, Part::Size)));
    }
    if is_text(name, b"__alloc_token_calloc") {
        return Some(signature(
            Part::Pointer,
            Parameters::Three(Part::Size, Part::Size, Part::Size),
        ));
    }
    if is_text(name, b"__alloc_token_realloc") {
        return Some(signature(
            Part::Pointer,
            Parameters::Three(Part::Pointer, Part::Size, Part::Size),
        ));
    }
    None
}

/// What follows this front of a name.
fn without_front<'a>(front: &[u8], name: &'a [u8]) -> Option<&'a [u8]>
    ensures { option_copied result ≡ rules.without_front front.now name.now }
{
    let Some((first, more)) = front.split_first() else {
        return Some(name);
    };
    let Some((byte, rest)) = name.split_first() else {
        return None;
    };
    if *first == *byte {
        without_front(more, rest)
    } else {
        None
    }
}

/// What follows the digits of a decimal number below 65,536 without leading zeros, and `_`.
fn behind_token(value: u32, has_begun: bool, name: &[u8]) -> Option<&[u8]>
    requires { value < 65536 }
    ensures { option_copied result ≡ rules.behind_token value has_begun name.now }
{
    let Some((byte, rest)) = name.split_first() else {
        return None;
    };
    match with_digit(value, has_begun, *byte) {
        Some(next) => behind_token(next, true, rest),
        None => behind_mark(has_begun, *byte, rest),
    }
}

/// The token with one more digit, if the byte is one that may follow.
fn with_digit(value: u32, has_begun: bool, byte: u8) -> Option<u32>
    requires { value < 65536 }
    ensures { result ≡ digit_taken value has_begun byte }
{
    if !byte.is_ascii_digit() {
        return None;
    }
    if has_begun && value == 0 {
        return None;
    }
    let next = value * 10 + (byte - b'0') as u32;
    if next < 65536 { Some(next) } else { None }
}

fn behind_mark(has_begun: bool, byte: u8, rest: &[u8]) -> Option<&[u8]>
    ensures { option_copied result ≡ mark_taken has_begun byte rest.now }
{
    if has_begun && byte == b'_' {
        Some(rest)
    } else {
        None
    }
}

/// A function of the library that has entry points, by its name.
fn fast_named(name: &[u8]) -> Option<Library>
    ensures { result ≡ first_named fast name.now }
{
    if is_text(name, b"malloc") {
        return Some(Library::Malloc);
    }
    if is_text(name, b"calloc") {
        return Some(Library::Calloc);
    }
    if is_text(name, b"realloc") {
        return Some(Library::Realloc);
    }
    None
}

/// What the name of an entry point says behind its front: a token, and a function.
#[tactic(auto, using(crate::proofs::Rows::fast_is))]
fn fast_behind(name: &[u8]) -> Option<Library>
    ensures { option_map library_type result ≡ rules.fast_type (rules.behind_token 0 false name.now) }
{
    match behind_token(0, false, name) {
        None => None,
        Some(rest) => fast_named(rest),
    }
}

/// An entry point with the token in its name.
fn fast_entry_point(name: &[u8]) -> Option<Library>
    ensures { option_map library_type result ≡ rules.fast_entry_point name.now }
{
    match without_front(b"__alloc_token_", name) {
        None => None,
        Some(rest) => fast_behind(rest),
    }
}

fn signature_named(known: Option<Library>) -> Option<Signature>
    ensures { option_map signature_type result ≡ option_map library_type known }
{
    match known {
        None => None,
        Some(library) => Some(library.signature()),
    }
}

/// The type of an entry point whose last parameter is the token.
#[tactic(auto, using(crate::proofs::Rows::entries_are))]
fn entry_signature(name: &[u8]) -> Option<Signature>
    ensures { option_map signature_type result ≡ rules.type_known name.now rules.entry_points }
{
    entry_named(name)
}

/// 34: the type that a function with this name must have where the unit has no body for it.
pub fn signature_of(name: &[u8]) -> Option<Signature>
    ensures { option_map signature_type result ≡ rules.type_of_known name.now }
{
    if let Some(known) = library_named(name) {
        return Some(known.signature());
    }
    if let Some(entry) = entry_signature(name) {
        return Some(entry);
    }
    signature_named(fast_entry_point(name))
}
