//! What the table tells of a type at once.

ghost use Rattle.std.specs.Prelude.{◌≡◌, ◌<◌, ◌↔◌, length, IfSome, IsSome, IsTrue, Some};
ghost use Rattle.name_places.specs.Placed.{place_of};
ghost use Rattle.c_types.specs.CTypes.{record_of};
ghost use Rattle.c_types.specs.Consts.{holds_const, has_const_member, const_member_by};
ghost use Rattle.c_types.specs.Members.{names_in};
ghost use Rattle.c_types.specs.Plain as plain;
ghost use Rattle.c_types.specs.Plain.{qualifiers_met, is_function, result_of, parameters_of};
ghost use Rattle.c_types.specs.Records.{is_finished, is_union, is_union_at, members_of, members_at, offset_at};
ghost use Rattle.c_types.specs.Shapes.{IsShape};
ghost use Rattle.c_types.specs.Table.{type_at, types_at, AllBelow, MembersBelow};

use super::TypeTable;
use crate::facts::Shape;
use crate::records::{Member, Members};
use crate::terms::{Term, TypeId};
use tok_base::Items;

impl TypeTable {
    /// The numbers that are kept of a type.
    pub(super) fn shape(&self, id: TypeId) -> Shape
        requires { id.0 < length self.now.terms }
        ensures { IsShape self.now.terms id.0 result }
    {
        self.shapes.as_slice()[id.0 as usize]
    }

    /// The type behind outer typedef names and qualifiers; what stands inside it stays as written.
    pub fn plain(&self, id: TypeId) -> TypeId
        requires { id.0 < length self.now.terms }
        ensures is { type_at self.now.terms result.0 ≡ plain.plain (type_at self.now.terms id.0) }
        ensures valid { result.0 < length self.now.terms }
    {
        self.shape(id).plain
    }

    /// The qualifiers that are met on the way to `plain`; const is 1, volatile 2, restrict 4.
    pub fn qualifiers_met(&self, id: TypeId) -> u8
        requires { id.0 < length self.now.terms }
        ensures is { result ≡ qualifiers_met (type_at self.now.terms id.0) }
        ensures small { result < 8 }
    {
        self.shape(id).qualifiers
    }

    /// The result type of a function type, also behind typedef names and qualifiers; none of another
    /// type.
    pub fn result_of(&self, id: TypeId) -> Option<TypeId>
        requires { id.0 < length self.now.terms }
        ensures some { IsSome result ↔ IsTrue (is_function (plain.plain (type_at self.now.terms id.0))) }
        ensures is { IfSome result (λ r. type_at self.now.terms r.0 ≡ result_of (plain.plain (type_at self.now.terms id.0))) }
        ensures valid { IfSome result (λ r. r.0 < length self.now.terms) }
    {
        let at = self.plain(id);
        match self.term(at) {
            Term::Function(returned, _) => Some(*returned),
            _ => None,
        }
    }

    /// The parameters of a function type, also behind typedef names and qualifiers; another type has
    /// none.
    pub fn parameters_of(&self, id: TypeId) -> &[TypeId]
        requires { id.0 < length self.now.terms }
        ensures are { types_at self.now.terms result.now ≡ parameters_of (plain.plain (type_at self.now.terms id.0)) }
        ensures valid { AllBelow (length self.now.terms) result.now }
    {
        let at = self.plain(id);
        match self.term(at) {
            Term::Function(_, parameters) => parameters.as_slice(),
            _ => &[],
        }
    }

    /// Whether the type is const, or an array of such elements, or is or holds by value a struct or
    /// union with such a member at any depth.
    pub fn holds_const(&self, id: TypeId) -> bool
        requires { id.0 < length self.now.terms }
        ensures { result ≡ holds_const self.now.layouts (type_at self.now.terms id.0) }
    {
        let fact = self.fact(id);
        fact.is_const || self.const_member_by(fact.held)
    }

    /// Whether a struct or union, also behind typedef names and qualifiers, has a const member at any
    /// depth; not so while it is not finished.
    pub fn has_const_member(&self, id: TypeId) -> bool
        requires { id.0 < length self.now.terms }
        ensures { result ≡ has_const_member self.now.layouts (type_at self.now.terms id.0) }
    {
        self.const_member_by(self.fact(id).record_number)
    }

    fn const_member_by(&self, number: Option<u64>) -> bool
        ensures { result ≡ const_member_by self.now.layouts number }
    {
        match number {
            None => false,
            Some(number) => match self.layout(number) {
                None => false,
                Some(layout) => layout.has_const,
            },
        }
    }

    /// Whether the type is a union, also behind typedef names and qualifiers.
    pub fn is_union(&self, id: TypeId) -> bool
        requires { id.0 < length self.now.terms }
        ensures { result ≡ is_union self.now.records (type_at self.now.terms id.0) }
    {
        match self.fact(id).record_number {
            None => false,
            Some(number) => self.is_union_at(number),
        }
    }

    /// The members of a finished struct or union, also behind typedef names and qualifiers, as they were
    /// given to `finish_record`.
    pub fn members(&self, id: TypeId) -> &Items<Member>
        requires valid { id.0 < length self.now.terms }
        requires finished { IsTrue (is_finished self.now.layouts (type_at self.now.terms id.0)) }
        ensures are { result.now ≡ members_of self.now.members (type_at self.now.terms id.0) }
        ensures valid { MembersBelow (length self.now.terms) result.now }
    {
        let number = self.finished_number(id);
        self.members_at(number).list()
    }

    /// The number of a finished record.
    fn finished_number(&self, id: TypeId) -> u64
        requires valid { id.0 < length self.now.terms }
        requires finished { IsTrue (is_finished self.now.layouts (type_at self.now.terms id.0)) }
        ensures is { record_of (type_at self.now.terms id.0) ≡ Some result }
        ensures within { result < length self.now.members }
    {
        let _ = &self.alloc;
        let fact = self.fact(id);
        match fact.record_number {
            None => unreachable!(),
            Some(number) => number,
        }
    }

    fn members_at(&self, number: u64) -> &Members
        requires { number < length self.now.members }
        ensures are { result.now ≡ members_at self.now.members number }
        ensures valid { MembersBelow (length self.now.terms) result.now }
    {
        &self.members.as_slice()[number as usize]
    }

    /// The place among its members of the first one with this name, from 0, of a finished struct or
    /// union, also behind typedef names and qualifiers; none where it has no such member.
    pub fn member(&self, id: TypeId, name: &[u8]) -> Option<u64>
        requires valid { id.0 < length self.now.terms }
        requires finished { IsTrue (is_finished self.now.layouts (type_at self.now.terms id.0)) }
        ensures { result ≡ place_of name.now (names_in (members_of self.now.members (type_at self.now.terms id.0))) }
    {
        let number = self.finished_number(id);
        self.members_at(number).find(name)
    }

    /// Where a member of a finished record stands, in bytes from its beginning.
    pub fn offset_of(&self, id: TypeId, member: u32) -> u32
        requires valid { id.0 < length self.now.terms }
        requires finished { IsTrue (is_finished self.now.layouts (type_at self.now.terms id.0)) }
        ensures { result ≡ offset_at self.now.layouts (type_at self.now.terms id.0) member }
    {
        match self.fact(id).record_number {
            None => 0,
            Some(number) => match self.layout(number) {
                None => 0,
                Some(layout) => match layout.offsets.get(member as usize) {
                    None => 0,
                    Some(offset) => *offset,
                },
            },
        }
    }
}
