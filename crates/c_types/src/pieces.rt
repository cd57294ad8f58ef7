//! A spelling is written from left to right, in pieces.

ghost use Rattle.std.specs.Prelude.{◌≡◌, ◌++◌, ◌∷◌, [], OnOk};
ghost use Rattle.c_types.specs.Pieces as pieces;
ghost use Rattle.c_types.specs.Spelling as spelling;

use crate::terms::TypeId;
use num_ops::IntKind;
use tok_base::NoMemory;

/// How the text inside a type begins.
#[derive(Clone, Copy)]
pub enum Inside {
    Nothing,
    Bracket,
    Other,
}

/// A part of a spelling that is still to be written.
#[derive(Clone, Copy, Drop)]
pub enum Piece {
    /// What stands before the text inside a type, without its outer qualifiers.
    Outer(TypeId, Inside),
    /// What stands before the text inside a type that has these qualifiers too.
    Before(u8, TypeId, Inside),
    /// A star with its qualifiers, and whether it opens parentheses.
    Star(u8, Inside, bool),
    /// What stands behind the text inside a type.
    Behind(TypeId),
    /// The parameters of a function.
    Parameters(TypeId),
    /// Those from this one on, each behind a comma.
    More(TypeId, u64),
    /// A closing parenthesis.
    Close,
}

/// With an array's length behind it.
pub fn bracketed(inside: Inside) -> Inside
    ensures { result ≡ pieces.bracketed inside }
{
    match inside {
        Inside::Nothing => Inside::Bracket,
        Inside::Bracket => Inside::Bracket,
        Inside::Other => Inside::Other,
    }
}

/// With a function's parameters behind it.
pub fn called(inside: Inside) -> Inside
    ensures { result ≡ pieces.called inside }
{
    match inside {
        Inside::Nothing => Inside::Other,
        Inside::Bracket => Inside::Bracket,
        Inside::Other => Inside::Other,
    }
}

pub fn append(out: &mut Vec<u8>, text: &[u8]) -> Result<(), NoMemory>
    ensures { OnOk result (out.new.items ≡ out.old.items ++ text.now) }
{
    out.extend_from_slice(text)?;
    Ok(())
}

pub fn push(pieces: &mut Vec<Piece>, piece: Piece) -> Result<(), NoMemory>
    ensures { OnOk result (pieces.new.items ≡ pieces.old.items ++ piece ∷ []) }
{
    match pieces.push(piece) {
        Ok(()) => Ok(()),
        Err(_) => Err(NoMemory),
    }
}

fn append_gap(out: &mut Vec<u8>, inside: Inside) -> Result<(), NoMemory>
    ensures { OnOk result (out.new.items ≡ out.old.items ++ pieces.gap inside) }
{
    match inside {
        Inside::Nothing => Ok(()),
        Inside::Bracket => Ok(()),
        Inside::Other => append(out, b" "),
    }
}

/// A base's name behind its qualifiers.
pub fn append_base(
    out: &mut Vec<u8>,
    qualifiers: u8,
    name: &[u8],
    inside: Inside,
) -> Result<(), NoMemory>
    ensures { OnOk result (out.new.items ≡ out.old.items ++ pieces.base_text qualifiers name.now inside) }
{
    append(out, base_qualifiers(qualifiers))?;
    append(out, name)?;
    append_gap(out, inside)
}

pub fn base_qualifiers(qualifiers: u8) -> &'static [u8]
    ensures { result.now ≡ spelling.base_qualifiers qualifiers }
{
    let is_volatile = qualifiers & 2 != 0;
    if qualifiers & 1 != 0 {
        if is_volatile {
            return b"const volatile ";
        }
        return b"const ";
    }
    if is_volatile { b"volatile " } else { b"" }
}

pub fn pointer_qualifiers(qualifiers: u8) -> &'static [u8]
    ensures { result.now ≡ spelling.pointer_qualifiers qualifiers }
{
    let is_volatile = qualifiers & 2 != 0;
    let is_restrict = qualifiers & 4 != 0;
    if qualifiers & 1 != 0 {
        if is_volatile {
            return if is_restrict {
                b"const volatile restrict"
            } else {
                b"const volatile"
            };
        }
        return if is_restrict {
            b"const restrict"
        } else {
            b"const"
        };
    }
    if is_volatile {
        return if is_restrict {
            b"volatile restrict"
        } else {
            b"volatile"
        };
    }
    if is_restrict { b"restrict" } else { b"" }
}

/// A star with its qualifiers.
pub fn append_star(
    out: &mut Vec<u8>,
    qualifiers: u8,
    inside: Inside,
    enclosed: bool,
) -> Result<(), NoMemory>
    ensures { OnOk result (out.new.items ≡ out.old.items ++ pieces.star_text qualifiers inside enclosed) }
{
    append(out, if enclosed { b"(*" } else { b"*" })?;
    if qualifiers == 0 {
        return Ok(());
    }
    append(out, pointer_qualifiers(qualifiers))?;
    append_gap(out, inside)
}

/// A closing parenthesis where one is open.
pub fn append_closed(out: &mut Vec<u8>, enclosed: bool) -> Result<(), NoMemory>
    ensures { OnOk result (out.new.items ≡ out.old.items ++ pieces.closed enclosed) }
{
    if enclosed { append(out, b")") } else { Ok(()) }
}

/// The last `most` digits of a number, without leading zeros.
fn append_digits(out: &mut Vec<u8>, most: u8, number: u32) -> Result<(), NoMemory>
    ensures { OnOk result (out.new.items ≡ out.old.items ++ spelling.digits_before most number []) }
{
    if most == 0 {
        return Ok(());
    }
    if number < 10 {
        return append(out, &[48 + number as u8]);
    }
    append_digits(out, most - 1, number / 10)?;
    append(out, &[48 + (number % 10) as u8])
}

/// An array's length in brackets.
pub fn append_length(out: &mut Vec<u8>, length: u32) -> Result<(), NoMemory>
    ensures { OnOk result (out.new.items ≡ out.old.items ++ (91 ∷ spelling.decimal length ++ 93 ∷ [])) }
{
    append(out, b"[")?;
    append_digits(out, 10, length)?;
    append(out, b"]")
}

pub fn int_name(kind: IntKind) -> &'static [u8]
    ensures { result.now ≡ spelling.int_name kind }
{
    match kind {
        IntKind::Bool => b"_Bool",
        IntKind::Char => b"char",
        IntKind::SChar => b"signed char",
        IntKind::UChar => b"unsigned char",
        IntKind::Short => b"short",
        IntKind::UShort => b"unsigned short",
        IntKind::Int => b"int",
        IntKind::UInt => b"unsigned int",
        IntKind::Long => b"long",
        IntKind::ULong => b"unsigned long",
        IntKind::LongLong => b"long long",
        IntKind::ULongLong => b"unsigned long long",
    }
}
