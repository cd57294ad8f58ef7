//! Enumerations: rule 7 (6.7.2.2).

ghost use Rattle.std.specs.Prelude.{◌≡◌, ◌<◌, ◌&&◌, length, IfOk, OnOk};
ghost use Rattle.c_types.specs.Table.{type_at};
ghost use Rattle.c_rules.specs.Names.{is_tag_of};
ghost use Rattle.c_rules.specs.Walk as walk;
ghost use Rattle.c_rules.specs.declared.known.TagSort.TheVariants.{Enumeration};
ghost use Rattle.c_world.specs.Extends.{Extends};
ghost use Rattle.c_world.specs.Seen.{seen, Gives};

use c_rules::TagSort;
use c_tree::At;
use c_types::TypeId;
use c_world::{CheckEnd, World, keep};
use tok_base::Bytes;

/// The number of the enumeration with this tag, which is made where there is none. `own` is the typedef name
/// that is declared with it.
pub fn tagged_enum(
    world: &mut World,
    tag: &Option<Bytes>,
    own: &Option<Bytes>,
) -> Result<u64, CheckEnd>
    ensures gives { Gives (walk.enum_number tag.now own.now) (seen world.old) result (λ n. n) (seen world.new) }
    ensures extends { OnOk result (Extends world.old.table world.new.table) }
    ensures valid { IfOk result (λ n. n < length world.new.table.enums) }
{
    let number = world.enum_number(tag, own)?;
    Ok(number)
}

/// 7: whether the tag is an enumeration's, and its enumerators haven't been given.
fn may_be_defined(world: &World, tag: &Option<Bytes>, number: u64) -> bool
    ensures { result ≡ (is_tag_of Enumeration (walk.tag_found (seen world.now) tag.now) && walk.is_open_enum (seen world.now) number) }
{
    world.is_tag_of(TagSort::Enumeration, tag) && world.is_open_enum(number)
}

/// An enumeration with its enumerators: 7.
pub fn judge_enum(
    world: &mut World,
    at: At,
    tag: &Option<Bytes>,
    number: u64,
) -> Result<TypeId, CheckEnd>
    requires { number < length world.old.table.enums }
    ensures gives { Gives (walk.judge_enum at tag.now number) (seen world.old) result (λ r. type_at world.new.table.terms r.0) (seen world.new) }
    ensures extends { OnOk result (Extends world.old.table world.new.table) }
    ensures valid { IfOk result (λ r. r.0 < length world.new.table.terms) }
{
    keep(7, at, may_be_defined(world, tag, number))?;
    world.finish_enum(number);
    let ty = world.enum_type(number)?;
    Ok(ty)
}

/// The tag of an enumeration alone: 7.
pub fn judge_enum_tag(
    world: &mut World,
    at: At,
    tag: &Option<Bytes>,
    number: u64,
) -> Result<TypeId, CheckEnd>
    requires { number < length world.old.table.enums }
    ensures gives { Gives (walk.judge_enum_tag at tag.now number) (seen world.old) result (λ r. type_at world.new.table.terms r.0) (seen world.new) }
    ensures extends { OnOk result (Extends world.old.table world.new.table) }
    ensures valid { IfOk result (λ r. r.0 < length world.new.table.terms) }
{
    keep(7, at, world.is_tag_of(TagSort::Enumeration, tag))?;
    let ty = world.enum_type(number)?;
    Ok(ty)
}
