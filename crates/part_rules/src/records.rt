//! Structs and unions: rules 5, 7 and 8 (6.7.2.1, 6.7.2.3).

ghost use Rattle.std.specs.Prelude.{◌≡◌, ◌<◌, ◌&&◌, nat_lt, length, map, true, IfOk, OnOk};
ghost use Rattle.c_types.specs.Layout.{record_size};
ghost use Rattle.c_types.specs.Records.{limit};
ghost use Rattle.c_types.specs.Table.{type_at, member_of, MembersBelow};
ghost use Rattle.c_rules.specs.Names as names;
ghost use Rattle.c_rules.specs.Walk as walk;
ghost use Rattle.c_world.specs.Extends.{Extends};
ghost use Rattle.c_world.specs.Seen.{seen, Gives};
ghost use Rattle.part_rules.specs.Records.{finished_record, tried_record};

use crate::sizes::is_small;
use c_rules::TagSort;
use c_tree::At;
use c_types::{Member, TypeId};
use c_world::{CheckEnd, World, keep};
use declarator_rules::{all_differ, ends_well};
use std::alloc::Global;
use tok_base::{Bytes, Items, NoMemory};

/// The number of the struct or union with this tag, which is made where there is none. `own` is the typedef
/// name that is declared with it.
pub fn tagged_record(
    world: &mut World,
    is_union: bool,
    tag: &Option<Bytes>,
    own: &Option<Bytes>,
) -> Result<u64, CheckEnd>
    ensures gives { Gives (walk.record_number is_union tag.now own.now) (seen world.old) result (λ n. n) (seen world.new) }
    ensures extends { OnOk result (Extends world.old.table world.new.table) }
    ensures valid { IfOk result (λ n. n < length world.new.table.records) }
{
    let number = world.record_number(is_union, tag, own)?;
    Ok(number)
}

fn tag_sort(is_union: bool) -> TagSort
    ensures { result ≡ walk.tag_sort is_union }
{
    if is_union {
        TagSort::Union
    } else {
        TagSort::Struct
    }
}

/// 7: whether the tag is of this sort, and its members haven't been given.
fn may_be_defined(world: &World, is_union: bool, tag: &Option<Bytes>, number: u64) -> bool
    requires { number < length world.now.table.records }
    ensures { result ≡ (names.is_tag_of (walk.tag_sort is_union) (walk.tag_found (seen world.now) tag.now) && walk.is_unfinished (seen world.now) number) }
{
    world.is_tag_of(tag_sort(is_union), tag) && world.is_unfinished(number)
}

/// 8: whether the names of the members differ, and an array without a length stands last.
fn may_be_members(
    world: &World,
    alloc: Global,
    is_union: bool,
    members: &[Member],
) -> Result<bool, NoMemory>
    requires { MembersBelow (length world.now.table.terms) members.now }
    ensures { IfOk result (λ b. b ≡ (names.all_differ (map (member_of world.now.table.terms) members.now) && walk.ends_well is_union 0 (map (member_of world.now.table.terms) members.now))) }
{
    let differ = all_differ(alloc, members)?;
    Ok(differ && ends_well(world, is_union, members))
}

/// The members are given; that each has a size was tried at it.
fn finish(world: &mut World, number: u64, members: Items<Member>) -> Result<TypeId, CheckEnd>
    requires number { number < length world.old.table.records }
    requires unfinished { walk.is_unfinished (seen world.old) number ≡ true }
    requires members { MembersBelow (length world.old.table.terms) members }
    ensures gives { Gives (finished_record number (map (member_of world.old.table.terms) members)) (seen world.old) result (λ r. type_at world.new.table.terms r.0) (seen world.new) }
    ensures extends { OnOk result (Extends world.old.table world.new.table) }
    ensures valid { IfOk result (λ r. r.0 < length world.new.table.terms) }
{
    match world.finish_record(number, members) {
        Ok(()) => Ok(world.record_type(number)),
        Err(_) => Err(CheckEnd::NoMemory),
    }
}

/// The trials of a struct or union with its members: 5 for its size, 7 and 8.
fn try_record(
    world: &World,
    alloc: Global,
    at: At,
    is_union: bool,
    tag: &Option<Bytes>,
    number: u64,
    members: &[Member],
) -> Result<(), CheckEnd>
    requires number { number < length world.now.table.records }
    requires members { MembersBelow (length world.now.table.terms) members.now }
    ensures gives { Gives (tried_record at is_union tag.now number (map (member_of world.now.table.terms) members.now)) (seen world.now) result (λ _. tt) (seen world.now) }
    ensures unfinished { OnOk result (walk.is_unfinished (seen world.now) number ≡ true) }
{
    keep(5, at, is_small(world, is_union, members))?;
    keep(7, at, may_be_defined(world, is_union, tag, number))?;
    let may_be = may_be_members(world, alloc, is_union, members)?;
    keep(8, at, may_be)
}

/// A struct or union with its members: 5 for its size, 7 and 8.
pub fn judge_record(
    world: &mut World,
    alloc: Global,
    at: At,
    is_union: bool,
    tag: &Option<Bytes>,
    number: u64,
    members: Items<Member>,
) -> Result<TypeId, CheckEnd>
    requires number { number < length world.old.table.records }
    requires members { MembersBelow (length world.old.table.terms) members }
    ensures gives { Gives (walk.judge_record at is_union tag.now number (map (member_of world.old.table.terms) members)) (seen world.old) result (λ r. type_at world.new.table.terms r.0) (seen world.new) }
    ensures extends { OnOk result (Extends world.old.table world.new.table) }
    ensures valid { IfOk result (λ r. r.0 < length world.new.table.terms) }
{
    match try_record(world, alloc, at, is_union, tag, number, members.as_slice()) {
        Err(end) => Err(end),
        Ok(()) => finish(world, number, members),
    }
}

/// The tag of a struct or union alone: 7.
pub fn judge_record_tag(
    world: &World,
    at: At,
    is_union: bool,
    tag: &Option<Bytes>,
    number: u64,
) -> Result<TypeId, CheckEnd>
    requires { number < length world.now.table.records }
    ensures gives { Gives (walk.judge_record_tag at is_union tag.now number) (seen world.now) result (λ r. type_at world.now.table.terms r.0) (seen world.now) }
    ensures valid { IfOk result (λ r. r.0 < length world.now.table.terms) }
{
    keep(7, at, world.is_tag_of(tag_sort(is_union), tag))?;
    Ok(world.record_type(number))
}
