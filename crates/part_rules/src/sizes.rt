//! Rule 5: the size of a struct or union (6.7.2.1, 6.2.8). A member without a size, which breaks another
//! rule, counts as one of no bytes.

ghost use Rattle.std.specs.Prelude.{◌≡◌, ◌<◌, ◌≤◌, ◌^◌, nat_lt, length, map};
ghost use Rattle.c_types.specs.Layout as layout;
ghost use Rattle.c_types.specs.Records.{limit};
ghost use Rattle.c_types.specs.Table.{type_at, member_of, MembersBelow};
ghost use Rattle.c_rules.specs.Walk.{member_types};
ghost use Rattle.c_world.specs.Seen.{seen};

use c_types::{Member, TypeId};
use c_world::World;

/// The size from which on a type is too large.
const LIMIT: u64 = 1 << 28;

/// The least multiple of an alignment that is not below a place.
fn rounded(at: u32, to: u32) -> u64
    requires { 0 < to }
    ensures is { result ≡ layout.rounded at to }
    ensures small { result < 2 ^ 33 }
{
    let to = to as u64;
    (at as u64 + (to - 1)) / to * to
}

fn bytes(world: &World, id: TypeId) -> u32
    requires { id.0 < length world.now.table.terms }
    ensures { result ≡ layout.bytes (seen world.now).records.layouts (type_at world.now.table.terms id.0) }
{
    world.size_of(id).unwrap_or(0)
}

fn alignment(world: &World, id: TypeId) -> u32
    requires { id.0 < length world.now.table.terms }
    ensures is { result ≡ layout.alignment (seen world.now).records.layouts (type_at world.now.table.terms id.0) }
    ensures positive { 0 < result }
{
    world.align_of(id).unwrap_or(1).max(1)
}

/// Where a member stands behind those that reach to `at`.
fn place(world: &World, is_union: bool, at: u32, id: TypeId) -> u64
    requires { id.0 < length world.now.table.terms }
    ensures is { result ≡ layout.place (seen world.now).records.layouts is_union at (type_at world.now.table.terms id.0) }
    ensures small { result < 2 ^ 33 }
{
    if is_union {
        0
    } else {
        rounded(at, alignment(world, id))
    }
}

/// How far the members reach with this one.
fn reach(world: &World, is_union: bool, at: u32, id: TypeId) -> u64
    requires { id.0 < length world.now.table.terms }
    ensures { result ≡ layout.reach (seen world.now).records.layouts is_union at (type_at world.now.table.terms id.0) }
{
    let end = place(world, is_union, at, id) + bytes(world, id) as u64;
    end.max(at as u64)
}

/// 5: whether a struct or union with these members has less than 2^28 bytes.
pub fn is_small(world: &World, is_union: bool, members: &[Member]) -> bool
    requires { MembersBelow (length world.now.table.terms) members.now }
    ensures { result ≡ nat_lt (layout.record_size (seen world.now).records.layouts is_union (member_types (map (member_of world.now.table.terms) members.now))) limit }
{
    let mut end: u32 = 0;
    let mut align: u32 = 1;
    for member in members {
        let next = reach(world, is_union, end, member.ty);
        if LIMIT <= next {
            return false;
        }
        end = next as u32;
        align = align.max(alignment(world, member.ty));
    }
    rounded(end, align) < LIMIT
}
