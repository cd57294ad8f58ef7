//! The functions of the library.

ghost use Rattle.std.specs.Prelude.{◌≡◌, option_map};
ghost use Rattle.c_rules.specs.Forms.{number_in};
ghost use Rattle.c_rules.specs.Names.{library, type_known};
ghost use Rattle.library_names.specs.Named.{allocation, characters, copying_type, first_named, library_type, memory, named, number, others};
ghost use Rattle.library_names.specs.Signatures.{signature_type};

use crate::signature::{Parameters, Part, Signature};
use crate::texts::is_text;

/// A function of the library.
#[derive(Clone, Copy, Debug, PartialEq, Eq)]
pub enum Library {
    Malloc,
    Calloc,
    Realloc,
    Free,
    Getchar,
    Putchar,
    Memcpy,
    Memmove,
    Memset,
    Memcmp,
    Strlen,
    Exit,
    Abort,
}

impl Library {
    /// Its number among those of the library.
    pub fn number(self) -> u32
        ensures { result ≡ number self }
    {
        match self {
            Library::Malloc => 0,
            Library::Calloc => 1,
            Library::Realloc => 2,
            Library::Free => 3,
            Library::Getchar => 4,
            Library::Putchar => 5,
            Library::Memcpy => 6,
            Library::Memmove => 7,
            Library::Memset => 8,
            Library::Memcmp => 9,
            Library::Strlen => 10,
            Library::Exit => 11,
            Library::Abort => 12,
        }
    }

    /// Its type.
    pub fn signature(self) -> Signature
        ensures { signature_type result ≡ library_type self }
    {
        match self {
            Library::Malloc => signature(Part::Pointer, Parameters::One(Part::Size)),
            Library::Calloc => signature(Part::Pointer, Parameters::Two(Part::Size, Part::Size)),
            Library::Realloc => {
                signature(Part::Pointer, Parameters::Two(Part::Pointer, Part::Size))
            }
            Library::Free => signature(Part::Void, Parameters::One(Part::Pointer)),
            Library::Getchar => signature(Part::Int, Parameters::Zero),
            Library::Putchar => signature(Part::Int, Parameters::One(Part::Int)),
            Library::Memcpy => copying(),
            Library::Memmove => copying(),
            Library::Memset => signature(
                Part::Pointer,
                Parameters::Three(Part::Pointer, Part::Int, Part::Size),
            ),
            Library::Memcmp => signature(
                Part::Int,
                Parameters::Three(Part::ConstPointer, Part::ConstPointer, Part::Size),
            ),
            Library::Strlen => signature(Part::Size, Parameters::One(Part::ConstText)),
            Library::Exit => signature(Part::Void, Parameters::One(Part::Int)),
            Library::Abort => signature(Part::Void, Parameters::Zero),
        }
    }
}

pub(crate) fn signature(returned: Part, parameters: Parameters) -> Signature
    ensures { result ≡ record { returned = returned; parameters = parameters } }
{
    Signature {
        returned,
        parameters,
    }
}

/// The type of `memcpy` and `memmove`.
fn copying() -> Signature
    ensures { signature_type result ≡ copying_type }
{
    signature(
        Part::Pointer,
        Parameters::Three(Part::Pointer, Part::ConstPointer, Part::Size),
    )
}

fn allocation_named(name: &[u8]) -> Option<Library>
    ensures { result ≡ first_named allocation name.now }
{
    if is_text(name, b"malloc") {
        return Some(Library::Malloc);
    }
    if is_text(name, b"calloc") {
        return Some(Library::Calloc);
    }
    if is_text(name, b"realloc") {
        return Some(Library::Realloc);
    }
    if is_text(name, b"free") {
        return Some(Library::Free);
    }
    None
}

fn characters_named(name: &[u8]) -> Option<Library>
    ensures { result ≡ first_named characters name.now }
{
    if is_text(name, b"getchar") {
        return Some(Library::Getchar);
    }
    if is_text(name, b"putchar") {
        return Some(Library::Putchar);
    }
    None
}

fn memory_named(name: &[u8]) -> Option<Library>
    ensures { result ≡ first_named memory name.now }
{
    if is_text(name, b"memcpy") {
        return Some(Library::Memcpy);
    }
    if is_text(name, b"memmove") {
        return Some(Library::Memmove);
    }
    if is_text(name, b"memset") {
        return Some(Library::Memset);
    }
    if is_text(name, b"memcmp") {
        return Some(Library::Memcmp);
    }
    None
}

fn other_named(name: &[u8]) -> Option<Library>
    ensures { result ≡ first_named others name.now }
{
    if is_text(name, b"strlen") {
        return Some(Library::Strlen);
    }
    if is_text(name, b"exit") {
        return Some(Library::Exit);
    }
    if is_text(name, b"abort") {
        return Some(Library::Abort);
    }
    None
}

fn named(name: &[u8]) -> Option<Library>
    ensures { result ≡ named name.now }
{
    if let Some(known) = allocation_named(name) {
        return Some(known);
    }
    if let Some(known) = characters_named(name) {
        return Some(known);
    }
    if let Some(known) = memory_named(name) {
        return Some(known);
    }
    other_named(name)
}

/// The function of the library with a name.
#[tactic(auto, using(crate::proofs::Rows::number_is, crate::proofs::Rows::type_is))]
pub fn library_named(name: &[u8]) -> Option<Library>
    ensures number { option_map number result ≡ number_in 0 name.now library }
    ensures kind { option_map library_type result ≡ type_known name.now library }
{
    named(name)
}

/// The number of the function of the library with a name.
pub fn library_number(name: &[u8]) -> Option<u32>
    ensures { result ≡ number_in 0 name.now library }
{
    match library_named(name) {
        None => None,
        Some(known) => Some(known.number()),
    }
}
