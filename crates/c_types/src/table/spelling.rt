//! Spellings, written from left to right with a work list.

ghost use Rattle.std.specs.Prelude.{◌≡◌, ◌<◌, ◌+◌, ◌^◌, ◌++◌, length, [], ◌∷◌, slice_get, IfOk, OnOk, IfSome, IfNone, OnSome};
ghost use Rattle.c_types.specs.CTypes.{no_types, one_type};
ghost use Rattle.c_types.specs.Pieces.{names_of, record_name, enum_name, without, IsPiece, ArePieces, IsWritten};
ghost use Rattle.c_types.specs.Plain.{parameters_of};
ghost use Rattle.c_types.specs.Spelling.{spelling, is_suffixed};
ghost use Rattle.c_types.specs.Table.{type_at};
ghost use Rattle.c_types.specs.declared.pieces.Inside.TheVariants as inside;
ghost use Rattle.c_types.specs.declared.pieces.Piece.TheVariants as piece;

use super::TypeTable;
use crate::pieces::{
    Inside, Piece, append, append_base, append_closed, append_length, append_star, bracketed,
    called, int_name, push,
};
use crate::terms::{Term, TypeId};
use std::alloc::Global;
use tok_base::{Bytes, Items, NoMemory};

impl TypeTable {
    /// The spelling of a type: the type name (6.7.7) of its canonical type without outer qualifiers.
    pub fn spelling(&self, alloc: Global, id: TypeId) -> Result<Bytes, NoMemory>
        requires { id.0 < length self.now.terms }
        ensures { IfOk result (λ text. text ≡ spelling (names_of self.now) (type_at self.now.terms id.0)) }
    {
        let root = self.canonical(id);
        let mut out = Vec::with_capacity(alloc, self.shape(root).spelled.length as usize)?;
        let mut pieces = Vec::new(alloc);
        push(&mut pieces, Piece::Behind(root))?;
        push(&mut pieces, Piece::Outer(root, Inside::Nothing))?;
        while let Some(piece) = pieces.pop() {
            match self.write(&mut out, &mut pieces, piece) {
                Ok(()) => {}
                Err(end) => return Err(end),
            }
        }
        Ok(Items::from_vec(out))
    }

    /// Writes a piece, or puts smaller ones in its place.
    fn write(
        &self,
        out: &mut Vec<u8>,
        pieces: &mut Vec<Piece>,
        piece: Piece,
    ) -> Result<(), NoMemory>
        requires piece { IsPiece (length self.now.terms) piece }
        requires pieces { ArePieces (length self.now.terms) pieces.old.items }
        ensures { OnOk result (IsWritten self.now.terms (names_of self.now) piece out.old.items pieces.old.items out.new.items pieces.new.items) }
    {
        match piece {
            Piece::Outer(id, inside) => self.write_outer(pieces, id, inside),
            Piece::Before(qualifiers, id, inside) => {
                self.write_before(out, pieces, qualifiers, id, inside)
            }
            Piece::Star(qualifiers, inside, enclosed) => {
                append_star(out, qualifiers, inside, enclosed)
            }
            Piece::Behind(id) => self.write_behind(out, pieces, id),
            Piece::Parameters(id) => self.write_parameters(out, pieces, id),
            Piece::More(id, from) => self.write_more(out, pieces, id, from),
            Piece::Close => append(out, b")"),
        }
    }

    fn write_outer(
        &self,
        pieces: &mut Vec<Piece>,
        id: TypeId,
        inside: Inside,
    ) -> Result<(), NoMemory>
        requires id { id.0 < length self.now.terms }
        requires pieces { ArePieces (length self.now.terms) pieces.old.items }
        ensures { OnOk result (IsWritten self.now.terms (names_of self.now) (piece.Outer id inside) [] pieces.old.items [] pieces.new.items) }
    {
        match self.term(id) {
            Term::Array(element, _) => push(pieces, Piece::Outer(*element, bracketed(inside))),
            Term::Flexible(element) => push(pieces, Piece::Outer(*element, bracketed(inside))),
            Term::Qualified(_, inner) => push(pieces, Piece::Before(0, *inner, inside)),
            _ => push(pieces, Piece::Before(0, id, inside)),
        }
    }

    fn write_before(
        &self,
        out: &mut Vec<u8>,
        pieces: &mut Vec<Piece>,
        qualifiers: u8,
        id: TypeId,
        inside: Inside,
    ) -> Result<(), NoMemory>
        requires id { id.0 < length self.now.terms }
        requires pieces { ArePieces (length self.now.terms) pieces.old.items }
        ensures { OnOk result (IsWritten self.now.terms (names_of self.now) (piece.Before qualifiers id inside) out.old.items pieces.old.items out.new.items pieces.new.items) }
    {
        match self.term(id) {
            Term::Void => append_base(out, qualifiers, b"void", inside),
            Term::Int(kind) => append_base(out, qualifiers, int_name(*kind), inside),
            Term::Enum(number) => append_base(out, qualifiers, self.enum_name(*number), inside),
            Term::Record(number) => {
                append_base(out, qualifiers, self.record_name(*number), inside)
            }
            Term::Pointer(to) => {
                push(
                    pieces,
                    Piece::Star(qualifiers, inside, self.is_suffixed(*to)),
                )?;
                push(pieces, Piece::Before(0, *to, Inside::Other))
            }
            Term::Array(element, _) => {
                push(
                    pieces,
                    Piece::Before(qualifiers, *element, bracketed(inside)),
                )
            }
            Term::Flexible(element) => {
                push(
                    pieces,
                    Piece::Before(qualifiers, *element, bracketed(inside)),
                )
            }
            Term::Function(returned, _) => {
                push(pieces, Piece::Before(0, *returned, called(inside)))
            }
            Term::Named(_, named) => push(pieces, Piece::Before(qualifiers, *named, inside)),
            Term::Qualified(more, inner) => {
                push(pieces, Piece::Before(qualifiers | *more, *inner, inside))
            }
        }
    }

    fn write_behind(
        &self,
        out: &mut Vec<u8>,
        pieces: &mut Vec<Piece>,
        id: TypeId,
    ) -> Result<(), NoMemory>
        requires id { id.0 < length self.now.terms }
        requires pieces { ArePieces (length self.now.terms) pieces.old.items }
        ensures { OnOk result (IsWritten self.now.terms (names_of self.now) (piece.Behind id) out.old.items pieces.old.items out.new.items pieces.new.items) }
    {
        match self.term(id) {
            Term::Pointer(to) => {
                append_closed(out, self.is_suffixed(*to))?;
                push(pieces, Piece::Behind(*to))
            }
            Term::Array(element, length) => {
                append_length(out, *length)?;
                push(pieces, Piece::Behind(*element))
            }
            Term::Flexible(element) => {
                append(out, b"[]")?;
                push(pieces, Piece::Behind(*element))
            }
            Term::Function(returned, _) => {
                append(out, b"(")?;
                push(pieces, Piece::Behind(*returned))?;
                push(pieces, Piece::Close)?;
                push(pieces, Piece::Parameters(id))
            }
            Term::Named(_, named) => push(pieces, Piece::Behind(*named)),
            Term::Qualified(_, inner) => push(pieces, Piece::Behind(*inner)),
            _ => Ok(()),
        }
    }

    fn write_parameters(
        &self,
        out: &mut Vec<u8>,
        pieces: &mut Vec<Piece>,
        id: TypeId,
    ) -> Result<(), NoMemory>
        requires id { id.0 < length self.now.terms }
        requires pieces { ArePieces (length self.now.terms) pieces.old.items }
        ensures { OnOk result (IsWritten self.now.terms (names_of self.now) (piece.Parameters id) out.old.items pieces.old.items out.new.items pieces.new.items) }
    {
        match self.parameter_at(id, 0) {
            None => append(out, b"void"),
            Some(parameter) => push_parameter(pieces, id, 0, parameter),
        }
    }

    fn write_more(
        &self,
        out: &mut Vec<u8>,
        pieces: &mut Vec<Piece>,
        id: TypeId,
        from: u64,
    ) -> Result<(), NoMemory>
        requires id { id.0 < length self.now.terms }
        requires pieces { ArePieces (length self.now.terms) pieces.old.items }
        ensures { OnOk result (IsWritten self.now.terms (names_of self.now) (piece.More id from) out.old.items pieces.old.items out.new.items pieces.new.items) }
    {
        match self.parameter_at(id, from) {
            None => Ok(()),
            Some(parameter) => {
                append(out, b", ")?;
                push_parameter(pieces, id, from, parameter)
            }
        }
    }

    fn parameter_at(&self, id: TypeId, at: u64) -> Option<TypeId>
        requires { id.0 < length self.now.terms }
        ensures none { IfNone result (without at (parameters_of (type_at self.now.terms id.0)) ≡ no_types) }
        ensures some { IfSome result (λ p. without at (parameters_of (type_at self.now.terms id.0)) ≡ one_type (type_at self.now.terms p.0) (without (at + 1) (parameters_of (type_at self.now.terms id.0)))) }
        ensures within { IfSome result (λ p. p.0 < length self.now.terms) }
        ensures bound { OnSome result (at + 1 < 2 ^ 64) }
    {
        match self.term(id) {
            Term::Function(_, parameters) => item_at(parameters.as_slice(), at),
            _ => None,
        }
    }

    /// Whether it is an array or a function, also behind names and qualifiers.
    fn is_suffixed(&self, id: TypeId) -> bool
        requires { id.0 < length self.now.terms }
        ensures { result ≡ is_suffixed (type_at self.now.terms id.0) }
    {
        let mut at = id;
        loop {
            match self.term(at) {
                Term::Array(_, _) => return true,
                Term::Flexible(_) => return true,
                Term::Function(_, _) => return true,
                Term::Named(_, named) => at = *named,
                Term::Qualified(_, inner) => at = *inner,
                _ => return false,
            }
        }
    }

    pub(super) fn record_name(&self, number: u64) -> &[u8]
        ensures { result.now ≡ record_name self.now.records number }
    {
        match self.records.get(number as usize) {
            None => b"",
            Some(head) => head.name.as_slice(),
        }
    }

    pub(super) fn enum_name(&self, number: u64) -> &[u8]
        ensures { result.now ≡ enum_name self.now.enums number }
    {
        match self.enums.get(number as usize) {
            None => b"",
            Some(name) => name.as_slice(),
        }
    }
}

fn item_at(ids: &[TypeId], at: u64) -> Option<TypeId>
    ensures value { result ≡ slice_get ids.now at }
    ensures bound { OnSome result (at + 1 < 2 ^ 64) }
{
    if (ids.len() as u64) <= at {
        return None;
    }
    Some(ids[at as usize])
}

/// A parameter, with those behind it.
fn push_parameter(
    pieces: &mut Vec<Piece>,
    id: TypeId,
    at: u64,
    parameter: TypeId,
) -> Result<(), NoMemory>
    requires { at + 1 < 2 ^ 64 }
    ensures { OnOk result (pieces.new.items ≡ pieces.old.items ++ piece.More id (at + 1) ∷ piece.Behind parameter ∷ piece.Before 0 parameter inside.Nothing ∷ []) }
{
    push(pieces, Piece::More(id, at + 1))?;
    push(pieces, Piece::Behind(parameter))?;
    push(pieces, Piece::Before(0, parameter, Inside::Nothing))
}
