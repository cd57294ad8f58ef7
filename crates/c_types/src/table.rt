//! The types of a unit by number.

mod canonical;
mod compatible;
mod lengths;
mod pushes;
mod qualifying;
mod questions;
mod spelling;

ghost use Rattle.std.specs.Prelude.{◌≡◌, List, Option, ◌≢◌, ◌<◌, ◌≤◌, ◌^◌, max, ◌||◌, ◌&&◌, ◌↔◌, IsTrue, length, [], ◌∷◌, ◌++◌, IfOk, OnOk, OnErr, IfErr, IsSome, IfSome, option_and_then, Some, None, slice_get, unwrap_or, is_some, nat_le, false, true};
ghost use Rattle.std.specs.Option.{option_copied, option_map};
ghost use Rattle.c_types.specs.CTypes as c;
ghost use Rattle.c_types.specs.CTypes.{CType, is_flexible};
ghost use Rattle.c_types.specs.Consts.{holds_const};
ghost use Rattle.c_types.specs.Records.{is_open, is_open_slot, is_finished, is_union_at, laid_out, refusal, array_refusal, record_refusal, limit};
ghost use Rattle.c_types.specs.Table.{type_at, term_type, Grows, PartsBelow, NumbersBelow, MembersBelow, member_types, number_of, finished};
ghost use Rattle.c_types.specs.Layout as layout;
ghost use Rattle.c_types.specs.Layout.{size, align, layout_at, bytes, alignment, place, reach, record_size, are_sized};
ghost use Rattle.c_types.specs.Pointers.{contains_pointer};
ghost use Rattle.c_types.specs.Facts.{IsFact, size_by, align_by, pointer_by};
ghost use Rattle.c_types.specs.declared.records.Layout.{Layout};
ghost use Rattle.c_types.specs.declared.terms.TypeEnd.TheVariants as end;
ghost use Rattle.c_types.specs.declared.terms.Term.TheVariants as term;

use crate::facts::{Facts, Shape, name_is_uintptr};
use crate::numbers::Numbers;
use crate::records::{Head, Layout, Member, Members};
use crate::terms::{Term, TypeEnd, TypeId};
use std::alloc::Global;
use std::marker::Model;
use tok_base::{Bytes, Items, NoMemory, Reserved};

/// The types of a unit. A type has a number, and its parts have smaller ones.
#[derive(Drop)]
pub struct TypeTable {
    alloc: Global,
    terms: Reserved<Term>,
    facts: Reserved<Facts>,
    shapes: Reserved<Shape>,
    /// The numbers of the terms by their keys.
    numbers: Numbers,
    records: Reserved<Head>,
    /// Of the finished records.
    layouts: Reserved<Option<Layout>>,
    members: Reserved<Members>,
    enums: Reserved<Bytes>,
}

impl Model for TypeTable {
    ghost use Rattle.c_types.specs.Table.{Table};

    ghost Value = { Table };

    ghost use Rattle.c_types.specs.Sound.{IsSound};

    ghost view = { λ t. record { terms = t.terms.items; records = t.records.items; layouts = t.layouts.items; members = t.members.items; enums = t.enums.items } };

    ghost invariant = { IsSound };
}

impl TypeTable {
    /// An empty table.
    pub fn new(alloc: Global) -> Result<TypeTable, NoMemory>
        ensures { IfOk result (λ t. (t.terms ≡ []) × (t.records ≡ []) × (t.layouts ≡ []) × (t.members ≡ []) × (t.enums ≡ [])) }
    {
        let terms = Reserved::with_room(alloc, 0)?;
        let facts = Reserved::with_room(alloc, 0)?;
        let shapes = Reserved::with_room(alloc, 0)?;
        let numbers = Numbers::new(alloc);
        let records = Reserved::with_room(alloc, 0)?;
        let layouts = Reserved::with_room(alloc, 0)?;
        let members = Reserved::with_room(alloc, 0)?;
        let enums = Reserved::with_room(alloc, 0)?;
        Ok(TypeTable {
            alloc,
            terms,
            facts,
            shapes,
            numbers,
            records,
            layouts,
            members,
            enums,
        })
    }

    /// The term of a type as it was added or declared.
    pub fn term(&self, id: TypeId) -> &Term
        requires { id.0 < length self.now.terms }
        ensures is { slice_get self.now.terms id.0 ≡ Some result.now }
        ensures type_is { type_at self.now.terms id.0 ≡ term_type self.now.terms result.now }
        ensures parts { PartsBelow id.0 result.now }
        ensures numbers { NumbersBelow (length self.now.records) (length self.now.enums) result.now }
    {
        &self.terms.as_slice()[id.0 as usize]
    }

    /// How many types the table has; their numbers are below it.
    pub fn len(&self) -> u64
        ensures { result ≡ length self.now.terms }
    {
        self.terms.len() as u64
    }

    /// Whether the table has no type yet.
    pub fn is_empty(&self) -> bool
        ensures { IsTrue result ↔ (length self.now.terms ≡ 0) }
    {
        self.terms.len() == 0
    }

    /// Whether the type is a struct or union that was declared and is not finished.
    pub fn is_unfinished(&self, id: TypeId) -> bool
        requires { id.0 < length self.now.terms }
        ensures { result ≡ is_open self.now.layouts (type_at self.now.terms id.0) }
    {
        match self.term(id) {
            Term::Record(number) => self.is_open_at(*number),
            _ => false,
        }
    }

    fn is_open_at(&self, number: u64) -> bool
        ensures { result ≡ is_open_slot (slice_get self.now.layouts number) }
    {
        match self.layouts.get(number as usize) {
            None => false,
            Some(slot) => slot.is_none(),
        }
    }

    /// Whether the type is a finished struct or union, also behind typedef names and qualifiers.
    pub fn is_finished(&self, id: TypeId) -> bool
        requires { id.0 < length self.now.terms }
        ensures { result ≡ is_finished self.now.layouts (type_at self.now.terms id.0) }
    {
        match self.fact(id).record_number {
            None => false,
            Some(number) => self.layout(number).is_some(),
        }
    }

    /// What is kept of a type.
    fn fact(&self, id: TypeId) -> Facts
        requires { id.0 < length self.now.terms }
        ensures { IsFact self.now.layouts (type_at self.now.terms id.0) result }
    {
        self.facts.as_slice()[id.0 as usize]
    }

    /// The size in bytes (6.5.3.4); none of void, a function, an array without a length and an
    /// unfinished record.
    pub fn size_of(&self, id: TypeId) -> Option<u32>
        requires { id.0 < length self.now.terms }
        ensures is { result ≡ size self.now.layouts (type_at self.now.terms id.0) }
        ensures small { IfSome result (λ s. s < limit) }
    {
        let _ = &self.alloc;
        let fact = self.fact(id);
        self.known_size(fact)
    }

    /// The alignment in bytes (6.2.8); none of void, a function and an unfinished record.
    pub fn align_of(&self, id: TypeId) -> Option<u32>
        requires { id.0 < length self.now.terms }
        ensures { result ≡ align self.now.layouts (type_at self.now.terms id.0) }
    {
        let fact = self.fact(id);
        self.known_align(fact)
    }

    /// Whether the type contains a pointer; not so for an unfinished record.
    pub fn has_pointer(&self, id: TypeId) -> bool
        requires { id.0 < length self.now.terms }
        ensures { result ≡ contains_pointer self.now.layouts (type_at self.now.terms id.0) }
    {
        let fact = self.fact(id);
        self.known_pointer(fact)
    }

    /// The layout of a record, if it is finished.
    fn layout(&self, number: u64) -> Option<&Layout>
        ensures { option_copied result ≡ layout_at self.now.layouts number }
    {
        match self.layouts.get(number as usize) {
            None => None,
            Some(slot) => match slot {
                None => None,
                Some(layout) => Some(layout),
            },
        }
    }

    fn known_size(&self, fact: Facts) -> Option<u32>
        ensures { result ≡ size_by self.now.layouts fact.record_number fact.size }
    {
        match fact.record_number {
            None => fact.size,
            Some(number) => match self.layout(number) {
                None => None,
                Some(layout) => Some(layout.size),
            },
        }
    }

    fn known_align(&self, fact: Facts) -> Option<u32>
        ensures { result ≡ align_by self.now.layouts fact.record_number fact.align }
    {
        match fact.record_number {
            None => fact.align,
            Some(number) => match self.layout(number) {
                None => None,
                Some(layout) => Some(layout.align),
            },
        }
    }

    fn known_pointer(&self, fact: Facts) -> bool
        ensures { result ≡ pointer_by self.now.layouts fact.record_number fact.has_pointer }
    {
        match fact.record_number {
            None => fact.has_pointer,
            Some(number) => fact.has_pointer || self.record_pointer(number),
        }
    }

    fn record_pointer(&self, number: u64) -> bool
        ensures { result ≡ unwrap_or (option_map (λ l. l.has_pointer) (layout_at self.now.layouts number)) false }
    {
        match self.layout(number) {
            None => false,
            Some(layout) => layout.has_pointer,
        }
    }

    /// Adds a type, whose parts are in the table.
    pub fn add(&mut self, term: Term) -> Result<TypeId, TypeEnd>
        requires parts { PartsBelow (length self.old.terms) term }
        requires numbers { NumbersBelow (length self.old.records) (length self.old.enums) term }

        ensures accepted { OnOk result (refusal self.old.layouts (term_type self.old.terms term) ≡ None) }
        ensures term { IfOk result (λ id. slice_get self.new.terms id.0 ≡ Some term) }
        ensures is { IfOk result (λ id. type_at self.new.terms id.0 ≡ term_type self.old.terms term) }
        ensures valid { IfOk result (λ id. id.0 < length self.new.terms) }

        // What stood in the table stands there still.
        ensures grows { Grows self.old.terms self.new.terms }
        ensures records { self.new.records ≡ self.old.records }
        ensures layouts { self.new.layouts ≡ self.old.layouts }
        ensures members { self.new.members ≡ self.old.members }
        ensures enums { self.new.enums ≡ self.old.enums }

        ensures cause { IfErr result (λ e. e ≢ end.NoMemory → refusal self.old.layouts (term_type self.old.terms term) ≡ Some e) }
        ensures err { OnErr result (self.new ≡ self.old) }
    {
        let fact = self.fact_of(&term)?;
        let before = self.mark();
        match self.add_known(term, fact) {
            Ok(id) => Ok(id),
            Err(end) => {
                self.cut(before);
                Err(end)
            }
        }
    }

    /// Declares a struct or union, which is not finished yet.
    pub fn declare_record(&mut self, is_union: bool, name: Bytes) -> Result<TypeId, TypeEnd>
        ensures term { IfOk result (λ id. slice_get self.new.terms id.0 ≡ Some (term.Record (length self.old.records))) }
        ensures is { IfOk result (λ id. type_at self.new.terms id.0 ≡ c.Record (length self.old.records)) }
        ensures valid { IfOk result (λ id. id.0 < length self.new.terms) }
        ensures records { OnOk result (self.new.records ≡ self.old.records ++ record { is_union = is_union; name = name } ∷ []) }
        ensures layouts { OnOk result (self.new.layouts ≡ self.old.layouts ++ None ∷ []) }
        ensures members { OnOk result (self.new.members ≡ self.old.members ++ [] ∷ []) }
        ensures unfinished { IfOk result (λ id. IsTrue (is_open self.new.layouts (type_at self.new.terms id.0))) }

        // What stood in the table stands there still.
        ensures grows { Grows self.old.terms self.new.terms }
        ensures enums { self.new.enums ≡ self.old.enums }

        ensures cause { IfErr result (λ e. e ≡ end.NoMemory) }
        ensures err { OnErr result (self.new ≡ self.old) }
    {
        match self.push_record(Head { is_union, name }) {
            Ok(id) => Ok(id),
            Err(NoMemory) => Err(TypeEnd::NoMemory),
        }
    }

    /// Declares an enumeration.
    pub fn declare_enum(&mut self, name: Bytes) -> Result<TypeId, TypeEnd>
        ensures term { IfOk result (λ id. slice_get self.new.terms id.0 ≡ Some (term.Enum (length self.old.enums))) }
        ensures is { IfOk result (λ id. type_at self.new.terms id.0 ≡ c.Enum (length self.old.enums)) }
        ensures valid { IfOk result (λ id. id.0 < length self.new.terms) }
        ensures enums { OnOk result (self.new.enums ≡ self.old.enums ++ name ∷ []) }

        // What stood in the table stands there still.
        ensures grows { Grows self.old.terms self.new.terms }
        ensures records { self.new.records ≡ self.old.records }
        ensures layouts { self.new.layouts ≡ self.old.layouts }
        ensures members { self.new.members ≡ self.old.members }

        ensures cause { IfErr result (λ e. e ≡ end.NoMemory) }
        ensures err { OnErr result (self.new ≡ self.old) }
    {
        let before = self.mark();
        match self.push_enum(name) {
            Ok(id) => Ok(id),
            Err(NoMemory) => {
                self.cut(before);
                Err(TypeEnd::NoMemory)
            }
        }
    }

    /// Finishes a record with its members. Refuses a member without a size, a last array without a
    /// length aside, and a size of 2^28 bytes or more.
    pub fn finish_record(&mut self, id: TypeId, members: Items<Member>) -> Result<(), TypeEnd>
        requires valid { id.0 < length self.old.terms }
        requires unfinished { IsTrue (is_open self.old.layouts (type_at self.old.terms id.0)) }
        requires below { MembersBelow (length self.old.terms) members }
        ensures accepted { OnOk result (let k = number_of (type_at self.old.terms id.0) in record_refusal self.old.layouts (is_union_at self.old.records k) (member_types self.old.terms members) ≡ None) }
        ensures finished { OnOk result (self.new ≡ finished self.old (number_of (type_at self.old.terms id.0)) members) }
        ensures cause { IfErr result (λ e. e ≢ end.NoMemory → (let k = number_of (type_at self.old.terms id.0) in record_refusal self.old.layouts (is_union_at self.old.records k) (member_types self.old.terms members) ≡ Some e)) }
        ensures err { OnErr result (self.new ≡ self.old) }
    {
        let number = self.record_number(id);
        let is_union = self.is_union_at(number);
        let layout = self.lay_out(is_union, members.as_slice())?;
        let members = Members::new(self.alloc, members)?;
        self.layouts.set(number as usize, Some(layout));
        self.members.set(number as usize, members);
        Ok(())
    }

    fn record_number(&self, id: TypeId) -> u64
        requires { id.0 < length self.now.terms }
        ensures { result ≡ number_of (type_at self.now.terms id.0) }
    {
        match self.term(id) {
            Term::Record(number) => *number,
            _ => 0,
        }
    }

    fn is_union_at(&self, number: u64) -> bool
        ensures { result ≡ is_union_at self.now.records number }
    {
        match self.records.get(number as usize) {
            None => false,
            Some(head) => head.is_union,
        }
    }

    /// The layout that members give, or why they give none.
    fn lay_out(&self, is_union: bool, members: &[Member]) -> Result<Layout, TypeEnd>
        requires { MembersBelow (length self.now.terms) members.now }
        ensures ok { IfOk result (λ l. l ≡ laid_out self.now.layouts is_union (member_types self.now.terms members.now)) }
        ensures small { IfOk result (λ l. l.size < limit) }
        ensures accepted { OnOk result (record_refusal self.now.layouts is_union (member_types self.now.terms members.now) ≡ None) }
        ensures cause { IfErr result (λ e. e ≢ end.NoMemory → record_refusal self.now.layouts is_union (member_types self.now.terms members.now) ≡ Some e) }
    {
        if !self.are_sized(members) {
            return Err(TypeEnd::Incomplete);
        }
        self.lay_out_sized(is_union, members)
    }

    /// Whether each member has a size, the last one also where it is an array without a length.
    fn are_sized(&self, members: &[Member]) -> bool
        requires { MembersBelow (length self.now.terms) members.now }
        ensures { result ≡ are_sized self.now.layouts (member_types self.now.terms members.now) }
    {
        for (i, member) in members.iter().enumerate() {
            if !self.is_sized(member.ty, i + 1 == members.len()) {
                return false;
            }
        }
        true
    }

    fn is_sized(&self, id: TypeId, is_last: bool) -> bool
        requires { id.0 < length self.now.terms }
        ensures { result ≡ (is_some (size self.now.layouts (type_at self.now.terms id.0)) || (is_last && is_flexible (type_at self.now.terms id.0))) }
    {
        self.size_of(id).is_some() || (is_last && self.fact(id).is_flexible)
    }

    fn lay_out_sized(&self, is_union: bool, members: &[Member]) -> Result<Layout, TypeEnd>
        requires { MembersBelow (length self.now.terms) members.now }
        ensures ok { IfOk result (λ l. l ≡ laid_out self.now.layouts is_union (member_types self.now.terms members.now)) }
        ensures small { IfOk result (λ l. l.size < limit) }
        ensures accepted { OnOk result (nat_le limit (record_size self.now.layouts is_union (member_types self.now.terms members.now)) ≡ false) }
        ensures cause { IfErr result (λ e. e ≢ end.NoMemory → (e ≡ end.TooLarge) × (nat_le limit (record_size self.now.layouts is_union (member_types self.now.terms members.now)) ≡ true)) }
    {
        let mut offsets = Items::new(self.alloc);
        let mut so_far = Reached {
            end: 0,
            align: 1,
            has_pointer: false,
            has_const: false,
        };
        for member in members {
            let (at, next) = match self.step(is_union, so_far, member.ty) {
                Ok(step) => step,
                Err(end) => return Err(end),
            };
            offsets.push(at)?;
            so_far = next;
        }
        let size = rounded(so_far.end, so_far.align);
        if LIMIT <= size {
            return Err(TypeEnd::TooLarge);
        }
        Ok(Layout {
            size: size as u32,
            align: so_far.align,
            offsets,
            has_pointer: so_far.has_pointer,
            has_const: so_far.has_const,
        })
    }

    /// Where the next member stands, and how far the members reach with it.
    fn step(&self, is_union: bool, so_far: Reached, id: TypeId) -> Result<(u32, Reached), TypeEnd>
        requires id { id.0 < length self.now.terms }
        requires align { 0 < so_far.align }
        ensures at { IfOk result (λ s. s.0 ≡ place self.now.layouts is_union so_far.end (type_at self.now.terms id.0)) }
        ensures end { IfOk result (λ s. s.1.end ≡ reach self.now.layouts is_union so_far.end (type_at self.now.terms id.0)) }
        ensures align { IfOk result (λ s. s.1.align ≡ max so_far.align (alignment self.now.layouts (type_at self.now.terms id.0))) }
        ensures pointer { IfOk result (λ s. s.1.has_pointer ≡ (so_far.has_pointer || contains_pointer self.now.layouts (type_at self.now.terms id.0))) }
        ensures consts { IfOk result (λ s. s.1.has_const ≡ (so_far.has_const || holds_const self.now.layouts (type_at self.now.terms id.0))) }
        ensures small { IfOk result (λ s. s.1.end < limit) }
        ensures cause { IfErr result (λ e. (e ≡ end.TooLarge) × (limit ≤ reach self.now.layouts is_union so_far.end (type_at self.now.terms id.0))) }
    {
        let at = self.place(is_union, so_far.end, id);
        let end = (so_far.end as u64).max(at + self.bytes(id) as u64);
        if LIMIT <= end {
            return Err(TypeEnd::TooLarge);
        }
        let align = so_far.align.max(self.alignment(id));
        let has_pointer = so_far.has_pointer || self.has_pointer(id);
        let has_const = so_far.has_const || self.holds_const(id);
        let next = Reached {
            end: end as u32,
            align,
            has_pointer,
            has_const,
        };
        Ok((at as u32, next))
    }

    /// Where a member stands behind those that reach to `at`.
    fn place(&self, is_union: bool, at: u32, id: TypeId) -> u64
        requires { id.0 < length self.now.terms }
        ensures value { result ≡ place self.now.layouts is_union at (type_at self.now.terms id.0) }
        ensures bound { result < 2 ^ 33 }
    {
        if is_union {
            0
        } else {
            rounded(at, self.alignment(id))
        }
    }

    fn bytes(&self, id: TypeId) -> u32
        requires { id.0 < length self.now.terms }
        ensures { result ≡ bytes self.now.layouts (type_at self.now.terms id.0) }
    {
        self.size_of(id).unwrap_or(0)
    }

    fn alignment(&self, id: TypeId) -> u32
        requires { id.0 < length self.now.terms }
        ensures { result ≡ alignment self.now.layouts (type_at self.now.terms id.0) }
    {
        self.align_of(id).unwrap_or(1).max(1)
    }

    /// The facts of a type to be made of this term, or why it can't be made.
    fn fact_of(&self, term: &Term) -> Result<Facts, TypeEnd>
        requires { PartsBelow (length self.now.terms) term.now }
        ensures ok { IfOk result (λ f. IsFact self.now.layouts (term_type self.now.terms term.now) f) }
        ensures accepted { OnOk result (refusal self.now.layouts (term_type self.now.terms term.now) ≡ None) }
        ensures cause { IfErr result (λ e. refusal self.now.layouts (term_type self.now.terms term.now) ≡ Some e) }
    {
        match term {
            Term::Void => Ok(Facts::without_size()),
            Term::Int(kind) => Ok(Facts::of_int(*kind)),
            Term::Enum(_) => Ok(Facts::of_enum()),
            Term::Pointer(_) => Ok(Facts::of_pointer()),
            Term::Array(element, count) => self.array_fact(*element, *count),
            Term::Flexible(element) => self.flexible_fact(*element),
            Term::Function(_, _) => Ok(Facts::without_size()),
            Term::Record(number) => Ok(Facts::of_record(*number)),
            Term::Named(name, inner) => Ok(self.named_fact(name, *inner)),
            Term::Qualified(qualifiers, inner) => Ok(self.qualified_fact(*qualifiers, *inner)),
        }
    }

    fn array_fact(&self, element: TypeId, count: u32) -> Result<Facts, TypeEnd>
        requires { element.0 < length self.now.terms }
        ensures ok { IfOk result (λ f. IsFact self.now.layouts (c.Array (type_at self.now.terms element.0) count) f) }
        ensures accepted { OnOk result (array_refusal count (size self.now.layouts (type_at self.now.terms element.0)) ≡ None) }
        ensures cause { IfErr result (λ e. array_refusal count (size self.now.layouts (type_at self.now.terms element.0)) ≡ Some e) }
    {
        let fact = self.fact(element);
        match self.known_size(fact) {
            None => Err(TypeEnd::Incomplete),
            Some(size) => {
                let total = count as u64 * size as u64;
                if LIMIT <= total {
                    return Err(TypeEnd::TooLarge);
                }
                let align = self.known_align(fact);
                let has_pointer = self.known_pointer(fact);
                Ok(Facts {
                    record_number: None,
                    size: Some(total as u32),
                    align,
                    has_pointer,
                    is_flexible: false,
                    is_const: fact.is_const,
                    held: fact.held,
                })
            }
        }
    }

    fn flexible_fact(&self, element: TypeId) -> Result<Facts, TypeEnd>
        requires { element.0 < length self.now.terms }
        ensures ok { IfOk result (λ f. IsFact self.now.layouts (c.Flexible (type_at self.now.terms element.0)) f) }
        ensures accepted { OnOk result (IsSome (size self.now.layouts (type_at self.now.terms element.0))) }
        ensures cause { IfErr result (λ e. (e ≡ end.Incomplete) × (size self.now.layouts (type_at self.now.terms element.0) ≡ None)) }
    {
        let fact = self.fact(element);
        match self.known_size(fact) {
            None => Err(TypeEnd::Incomplete),
            Some(_) => {
                let align = self.known_align(fact);
                let has_pointer = self.known_pointer(fact);
                Ok(Facts {
                    record_number: None,
                    size: None,
                    align,
                    has_pointer,
                    is_flexible: true,
                    is_const: fact.is_const,
                    held: fact.held,
                })
            }
        }
    }

    fn qualified_fact(&self, qualifiers: u8, inner: TypeId) -> Facts
        requires { inner.0 < length self.now.terms }
        ensures { IsFact self.now.layouts (c.Qualified qualifiers (type_at self.now.terms inner.0)) result }
    {
        with_const(qualifiers, self.fact(inner))
    }

    fn named_fact(&self, name: &Bytes, inner: TypeId) -> Facts
        requires { inner.0 < length self.now.terms }
        ensures { IsFact self.now.layouts (c.Named name.now (type_at self.now.terms inner.0)) result }
    {
        let fact = self.fact(inner);
        let is_uintptr = name_is_uintptr(name);
        Facts {
            has_pointer: is_uintptr || fact.has_pointer,
            ..fact
        }
    }
}

/// The facts of a type with these qualifiers too.
fn with_const(qualifiers: u8, fact: Facts) -> Facts
    ensures { (ls : List (Option Layout)) (t : CType) → IsFact ls t fact → IsFact ls (c.Qualified qualifiers t) result }
{
    let is_const = qualifiers & 1 == 1 || fact.is_const;
    Facts { is_const, ..fact }
}

/// How far the members of a record reach, their greatest alignment, and whether one has a pointer, and
/// what is const.
#[derive(Clone, Copy)]
struct Reached {
    end: u32,
    align: u32,
    has_pointer: bool,
    has_const: bool,
}

/// The bytes from which on a type is too large.
const LIMIT: u64 = 0x1000_0000;

/// The least multiple of `to` that is not below `at`.
fn rounded(at: u32, to: u32) -> u64
    requires { 0 < to }
    ensures value { result ≡ layout.rounded at to }
    ensures bound { result < 2 ^ 33 }
{
    (at as u64 + (to as u64 - 1)) / to as u64 * to as u64
}
