//! Structs, unions and enumerations by their numbers.

ghost use Rattle.std.specs.Prelude.{◌≡◌, ◌≢◌, ◌<◌, ◌∷◌, [], ◌++◌, length, map, Option, Some, None, option_map, slice_get, is_some, OnOk, OnErr, IfOk, IfErr, IfSome, IsTrue, if◌then◌else◌, ◌==◌, false};
ghost use Rattle.name_places.specs.Placed.{place_of};
ghost use Rattle.c_types.specs.CTypes as c;
ghost use Rattle.c_types.specs.Members.{names_in};
ghost use Rattle.c_types.specs.Plain as plain;
ghost use Rattle.c_types.specs.Records.{with_declared, record_refusal, is_union, is_union_at, members_of, is_finished, offset_at};
ghost use Rattle.c_types.specs.Table.{type_at, member_of, member_types, MembersBelow};
ghost use Rattle.c_types.specs.declared.terms.TypeEnd.TheVariants as end;
ghost use Rattle.c_rules.specs.Expressions as expressions;
ghost use Rattle.c_rules.specs.Forms as forms;
ghost use Rattle.c_rules.specs.Names.{is_tag_of, tag_number};
ghost use Rattle.c_rules.specs.Walk as walk;
ghost use Rattle.c_rules.specs.Walk.{tag_sort, tag_found, record_tag, enum_tag, new_tag, new_record, new_enum, number_or, is_unfinished, is_open_enum, finish_enum};
ghost use Rattle.c_rules.specs.World.{has_name, spelled_name, count_unnamed, find_tag};
ghost use Rattle.c_rules.specs.declared.known.TagSort.TheVariants.{Enumeration};
ghost use Rattle.c_world.specs.Extends.{Extends};
ghost use Rattle.c_world.specs.Inner.{TagBelow};
ghost use Rattle.c_world.specs.Seen.{seen, member_named};
ghost use Rattle.c_world.specs.Tags.{entry_of};

use super::World;
use crate::tags::TagEntry;
use c_rules::TagSort;
use c_types::{Member, Term, TypeEnd, TypeId};
use std::alloc::Global;
use tok_base::{Bytes, Items, NoMemory};

impl World {
    /// Whether a tag names nothing yet, or something of this sort.
    pub fn is_tag_of(&self, sort: TagSort, tag: &Option<Bytes>) -> bool
        ensures { result ≡ is_tag_of sort (tag_found (seen self.now) tag.now) }
    {
        match self.found_tag(tag) {
            None => true,
            Some(found) => is_same_sort(sort, found.sort),
        }
    }

    /// What a tag names, if it names anything yet.
    fn found_tag(&self, tag: &Option<Bytes>) -> Option<TagEntry>
        ensures is { result ≡ option_map entry_of (tag_found (seen self.now) tag.now) }
        ensures below { IfSome result (λ t. TagBelow (length self.now.table.records) (length self.now.table.enums) t.sort t.number) }
    {
        match tag {
            None => None,
            Some(name) => self.tags.find(name.as_slice()),
        }
    }

    /// The number of the struct or union with this tag, which is made where there is none. One without a
    /// tag is a new one. `own` is the typedef name that is declared with it.
    pub fn record_number(
        &mut self,
        is_union: bool,
        tag: &Option<Bytes>,
        own: &Option<Bytes>,
    ) -> Result<u64, NoMemory>
        ensures is { IfOk result (λ n. n ≡ number_or (length (seen self.old).records.heads) (record_tag (tag_found (seen self.old) tag.now))) }
        ensures seen { OnOk result (seen self.new ≡ (if is_some (record_tag (tag_found (seen self.old) tag.now)) then seen self.old else new_record is_union tag.now own.now (seen self.old))) }
        ensures valid { IfOk result (λ n. n < length self.new.table.records) }
        ensures extends { Extends self.old.table self.new.table }
    {
        match self.tagged_record(tag) {
            Some(number) => Ok(number),
            None => self.new_record(is_union, tag, own),
        }
    }

    fn tagged_record(&self, tag: &Option<Bytes>) -> Option<u64>
        ensures is { result ≡ option_map (λ t. t.number) (record_tag (tag_found (seen self.now) tag.now)) }
        ensures below { IfSome result (λ n. n < length self.now.table.records) }
    {
        match self.found_tag(tag) {
            None => None,
            Some(found) => match found.sort {
                TagSort::Struct => Some(found.number),
                TagSort::Union => Some(found.number),
                TagSort::Enumeration => None,
            },
        }
    }

    fn new_record(
        &mut self,
        is_union: bool,
        tag: &Option<Bytes>,
        own: &Option<Bytes>,
    ) -> Result<u64, NoMemory>
        ensures is { IfOk result (λ n. n ≡ length (seen self.old).records.heads) }
        ensures seen { OnOk result (seen self.new ≡ new_record is_union tag.now own.now (seen self.old)) }
        ensures valid { IfOk result (λ n. n < length self.new.table.records) }
        ensures extends { Extends self.old.table self.new.table }
    {
        let name = self.spelled_name(tag, own)?;
        let number = self.declare_record(is_union, name)?;
        self.count_unnamed(tag, own)?;
        self.new_tag(tag_sort(is_union), number, tag)?;
        Ok(number)
    }

    fn declare_record(&mut self, is_union: bool, name: Bytes) -> Result<u64, NoMemory>
        ensures is { IfOk result (λ n. n ≡ length (seen self.old).records.heads) }
        ensures seen { OnOk result (seen self.new ≡ record (seen self.old) { records = with_declared is_union name (seen self.old).records }) }
        ensures valid { IfOk result (λ n. n < length self.new.table.records) }
        ensures extends { Extends self.old.table self.new.table }
    {
        self.record_types.reserve(1)?;
        let number = self.record_types.len() as u64;
        match self.table.declare_record(is_union, name) {
            Ok(id) => {
                self.record_types.push(id);
                Ok(number)
            }
            Err(_) => Err(NoMemory),
        }
    }

    /// The number of the enumeration with this tag, which is made where there is none, likewise.
    pub fn enum_number(&mut self, tag: &Option<Bytes>, own: &Option<Bytes>) -> Result<u64, NoMemory>
        ensures is { IfOk result (λ n. n ≡ number_or (length (seen self.old).enums) (enum_tag (tag_found (seen self.old) tag.now))) }
        ensures seen { OnOk result (seen self.new ≡ (if is_some (enum_tag (tag_found (seen self.old) tag.now)) then seen self.old else new_enum tag.now own.now (seen self.old))) }
        ensures valid { IfOk result (λ n. n < length self.new.table.enums) }
        ensures extends { Extends self.old.table self.new.table }
    {
        match self.tagged_enum(tag) {
            Some(number) => Ok(number),
            None => self.new_enum(tag, own),
        }
    }

    fn tagged_enum(&self, tag: &Option<Bytes>) -> Option<u64>
        ensures is { result ≡ option_map (λ t. t.number) (enum_tag (tag_found (seen self.now) tag.now)) }
        ensures below { IfSome result (λ n. n < length self.now.table.enums) }
    {
        match self.found_tag(tag) {
            None => None,
            Some(found) => match found.sort {
                TagSort::Struct => None,
                TagSort::Union => None,
                TagSort::Enumeration => Some(found.number),
            },
        }
    }

    fn new_enum(&mut self, tag: &Option<Bytes>, own: &Option<Bytes>) -> Result<u64, NoMemory>
        ensures is { IfOk result (λ n. n ≡ length (seen self.old).enums) }
        ensures seen { OnOk result (seen self.new ≡ new_enum tag.now own.now (seen self.old)) }
        ensures valid { IfOk result (λ n. n < length self.new.table.enums) }
        ensures extends { Extends self.old.table self.new.table }
    {
        let name = self.spelled_name(tag, own)?;
        let number = self.declare_enum(name)?;
        self.count_unnamed(tag, own)?;
        self.new_tag(TagSort::Enumeration, number, tag)?;
        Ok(number)
    }

    fn declare_enum(&mut self, name: Bytes) -> Result<u64, NoMemory>
        ensures is { IfOk result (λ n. n ≡ length (seen self.old).enums) }
        ensures seen { OnOk result (seen self.new ≡ record (seen self.old) { enums = (seen self.old).enums ++ record { name = name; is_defined = false } ∷ [] }) }
        ensures valid { IfOk result (λ n. n < length self.new.table.enums) }
        ensures extends { Extends self.old.table self.new.table }
    {
        self.defined.reserve(1)?;
        let number = self.defined.len() as u64;
        match self.table.declare_enum(name) {
            Ok(_) => {
                self.defined.push(false);
                Ok(number)
            }
            Err(_) => Err(NoMemory),
        }
    }

    /// The name by which a record or an enumeration is spelled.
    fn spelled_name(&self, tag: &Option<Bytes>, own: &Option<Bytes>) -> Result<Bytes, NoMemory>
        ensures { IfOk result (λ n. n ≡ spelled_name (seen self.now).unnamed tag.now own.now) }
    {
        match tag {
            Some(name) => copied(self.alloc, name),
            None => own_name(self.alloc, self.unnamed, own),
        }
    }

    fn count_unnamed(&mut self, tag: &Option<Bytes>, own: &Option<Bytes>) -> Result<(), NoMemory>
        ensures seen { OnOk result (seen self.new ≡ count_unnamed tag.now own.now (seen self.old)) }
        ensures same { self.new.table ≡ self.old.table }
    {
        if has_name(tag, own) {
            return Ok(());
        }
        if self.unnamed == u32::MAX {
            return Err(NoMemory);
        }
        self.unnamed += 1;
        Ok(())
    }

    /// A tag names what has this number, unless it names something.
    fn new_tag(&mut self, sort: TagSort, number: u64, tag: &Option<Bytes>) -> Result<(), NoMemory>
        requires { TagBelow (length self.old.table.records) (length self.old.table.enums) sort number }
        ensures seen { OnOk result (seen self.new ≡ new_tag sort number tag.now (seen self.old)) }
        ensures same { self.new.table ≡ self.old.table }
    {
        match tag {
            None => Ok(()),
            Some(name) => self.put_tag(sort, number, name),
        }
    }

    fn put_tag(&mut self, sort: TagSort, number: u64, name: &Bytes) -> Result<(), NoMemory>
        requires { TagBelow (length self.old.table.records) (length self.old.table.enums) sort number }
        ensures seen { OnOk result (seen self.new ≡ new_tag sort number (Some name.now) (seen self.old)) }
        ensures same { self.new.table ≡ self.old.table }
    {
        match self.tags.find(name.as_slice()) {
            Some(_) => Ok(()),
            None => self.add_tag(sort, number, name),
        }
    }

    fn add_tag(&mut self, sort: TagSort, number: u64, name: &Bytes) -> Result<(), NoMemory>
        requires below { TagBelow (length self.old.table.records) (length self.old.table.enums) sort number }
        requires unused { find_tag name.now (seen self.old).tags ≡ None }
        ensures seen { OnOk result (seen self.new ≡ new_tag sort number (Some name.now) (seen self.old)) }
        ensures same { self.new.table ≡ self.old.table }
    {
        let name = copied(self.alloc, name)?;
        self.tags.put(name, TagEntry { sort, number })?;
        Ok(())
    }

    /// The type of a struct or union.
    pub fn record_type(&self, number: u64) -> TypeId
        requires { number < length self.now.table.records }
        ensures is { type_at self.now.table.terms result.0 ≡ c.Record number }
        ensures valid { result.0 < length self.now.table.terms }
    {
        self.record_types.as_slice()[number as usize]
    }

    /// The type of an enumeration.
    pub fn enum_type(&mut self, number: u64) -> Result<TypeId, NoMemory>
        requires { number < length self.old.table.enums }
        ensures seen { seen self.new ≡ seen self.old }
        ensures extends { Extends self.old.table self.new.table }
        ensures is { IfOk result (λ id. type_at self.new.table.terms id.0 ≡ c.Enum number) }
        ensures valid { IfOk result (λ id. id.0 < length self.new.table.terms) }
    {
        self.make(Term::Enum(number))
    }

    /// Whether a struct or union has no members yet.
    pub fn is_unfinished(&self, number: u64) -> bool
        requires { number < length self.now.table.records }
        ensures { result ≡ is_unfinished (seen self.now) number }
    {
        let id = self.record_type(number);
        !self.table.is_finished(id)
    }

    /// A struct or union has these members. Refuses a member without a size, a last array without a length
    /// aside, and a size of 2^28 bytes or more.
    pub fn finish_record(&mut self, number: u64, members: Items<Member>) -> Result<(), TypeEnd>
        requires number { number < length self.old.table.records }
        requires unfinished { IsTrue (is_unfinished (seen self.old) number) }
        requires members { MembersBelow (length self.old.table.terms) members }
        ensures accepted { OnOk result (record_refusal (seen self.old).records.layouts (is_union_at (seen self.old).records.heads number) (member_types self.old.table.terms members) ≡ None) }
        ensures seen { OnOk result (seen self.new ≡ walk.finish_record number (map (member_of self.old.table.terms) members) (seen self.old)) }
        ensures extends { Extends self.old.table self.new.table }
        ensures cause { IfErr result (λ e. e ≢ end.NoMemory → record_refusal (seen self.old).records.layouts (is_union_at (seen self.old).records.heads number) (member_types self.old.table.terms members) ≡ Some e) }
        ensures kept { OnErr result (seen self.new ≡ seen self.old) }
    {
        let id = self.record_type(number);
        self.table.finish_record(id, members)
    }

    /// Whether a type is a union, also behind typedef names and qualifiers.
    pub fn is_union(&self, id: TypeId) -> bool
        requires { id.0 < length self.now.table.terms }
        ensures { result ≡ is_union (seen self.now).records.heads (type_at self.now.table.terms id.0) }
    {
        self.table.is_union(id)
    }

    /// The members of a struct or union, also behind typedef names and qualifiers; what isn't finished has
    /// none.
    pub fn members(&self, id: TypeId) -> &[Member]
        requires { id.0 < length self.now.table.terms }
        ensures are { map (member_of self.now.table.terms) result.now ≡ members_of (seen self.now).records.members (type_at self.now.table.terms id.0) }
        ensures valid { MembersBelow (length self.now.table.terms) result.now }
    {
        if self.table.is_finished(id) {
            self.table.members(id).as_slice()
        } else {
            &[]
        }
    }

    /// Whether the enumerators of an enumeration haven't been given.
    pub fn is_open_enum(&self, number: u64) -> bool
        ensures { result ≡ is_open_enum (seen self.now) number }
    {
        match self.defined.get(number as usize) {
            None => false,
            Some(is_defined) => !*is_defined,
        }
    }

    /// An enumeration is defined.
    pub fn finish_enum(&mut self, number: u64)
        ensures seen { seen self.new ≡ finish_enum number (seen self.old) }
        ensures same { self.new.table ≡ self.old.table }
    {
        let at = number as usize;
        if at < self.defined.len() {
            self.defined.set(at, true);
        }
    }

    /// The type of the member with a name, of a struct or union also behind typedef names and qualifiers;
    /// one that isn't finished has no member.
    pub fn member(&self, id: TypeId, name: &[u8]) -> Option<TypeId>
        requires { id.0 < length self.now.table.terms }
        ensures is { option_map (member_named self.now.table.terms name.now) result ≡ expressions.member_of (seen self.now) (plain.plain (type_at self.now.table.terms id.0)) name.now }
        ensures valid { IfSome result (λ t. t.0 < length self.now.table.terms) }
    {
        match self.place_of(id, name) {
            None => None,
            Some(place) => self.member_at(id, place),
        }
    }

    /// The place of a member among those of its struct or union.
    fn place_of(&self, id: TypeId, name: &[u8]) -> Option<u64>
        requires { id.0 < length self.now.table.terms }
        ensures is { result ≡ place_of name.now (names_in (members_of self.now.table.members (type_at self.now.table.terms id.0))) }
        ensures finished { IfSome result (λ _. IsTrue (is_finished self.now.table.layouts (type_at self.now.table.terms id.0))) }
    {
        if self.table.is_finished(id) {
            self.table.member(id, name)
        } else {
            None
        }
    }

    fn member_at(&self, id: TypeId, place: u64) -> Option<TypeId>
        requires id { id.0 < length self.now.table.terms }
        requires finished { IsTrue (is_finished self.now.table.layouts (type_at self.now.table.terms id.0)) }
        ensures is { result ≡ option_map (λ m. m.ty) (slice_get (members_of self.now.table.members (type_at self.now.table.terms id.0)) place) }
        ensures valid { IfSome result (λ t. t.0 < length self.now.table.terms) }
    {
        match self.table.members(id).get(place as usize) {
            None => None,
            Some(member) => Some(member.ty),
        }
    }

    /// How many bytes into a struct or union its member with a name stands; 0 where it has none. A place
    /// of 2^32 or more counts as out of memory.
    pub fn offset_of(&self, id: TypeId, name: &[u8]) -> Result<u32, NoMemory>
        requires { id.0 < length self.now.table.terms }
        ensures { IfOk result (λ o. o ≡ forms.offset_of (seen self.now) (type_at self.now.table.terms id.0) name.now) }
    {
        match self.place_of(id, name) {
            None => Ok(0),
            Some(place) => self.offset_at(id, place),
        }
    }

    fn offset_at(&self, id: TypeId, place: u64) -> Result<u32, NoMemory>
        requires id { id.0 < length self.now.table.terms }
        requires finished { IsTrue (is_finished self.now.table.layouts (type_at self.now.table.terms id.0)) }
        ensures { IfOk result (λ o. o ≡ offset_at self.now.table.layouts (type_at self.now.table.terms id.0) place) }
    {
        match u32::try_from(place) {
            Ok(place) => Ok(self.table.offset_of(id, place)),
            Err(_) => Err(NoMemory),
        }
    }
}

fn tag_sort(is_union: bool) -> TagSort
    ensures { result ≡ tag_sort is_union }
{
    if is_union {
        TagSort::Union
    } else {
        TagSort::Struct
    }
}

fn is_same_sort(a: TagSort, b: TagSort) -> bool
    ensures { result ≡ (tag_number a == tag_number b) }
{
    a == b
}

fn has_name(tag: &Option<Bytes>, own: &Option<Bytes>) -> bool
    ensures { result ≡ has_name tag.now own.now }
{
    match tag {
        Some(_) => true,
        None => own.is_some(),
    }
}

fn copied(alloc: Global, name: &Bytes) -> Result<Bytes, NoMemory>
    ensures { IfOk result (λ n. n ≡ name.now) }
{
    let copy = Bytes::from_slice(alloc, name.as_slice())?;
    Ok(copy)
}

/// The name of what has no tag: the typedef name that is declared with it, or its place among those that
/// have neither.
fn own_name(alloc: Global, unnamed: u32, own: &Option<Bytes>) -> Result<Bytes, NoMemory>
    ensures { IfOk result (λ n. n ≡ spelled_name unnamed None own.now) }
{
    match own {
        Some(name) => copied(alloc, name),
        None => numbered(alloc, unnamed),
    }
}

fn numbered(alloc: Global, unnamed: u32) -> Result<Bytes, NoMemory>
    ensures { IfOk result (λ n. n ≡ spelled_name unnamed None None) }
{
    let text = format!(in alloc; "(unnamed #{unnamed})")?;
    Ok(Items::from_vec(text.into_bytes()))
}
