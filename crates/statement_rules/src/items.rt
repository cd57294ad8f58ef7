//! What stands before and behind the declarator of a declaration's item (6.2.4, 6.7).

ghost use Rattle.std.specs.Prelude.{◌≡◌, ◌||◌, ◌&&◌, not, true, Some, OnOk};
ghost use Rattle.c_rules.specs.Unit as unit;
ghost use Rattle.c_rules.specs.World.{is_file_scope};
ghost use Rattle.c_world.specs.Extends.{Extends};
ghost use Rattle.c_world.specs.Seen.{seen, Gives};
ghost use Rattle.statement_rules.specs.Steps as steps;

use c_world::{CheckEnd, World};
use check_expressions::Whole;
use name_rules::take_number;
use tok_base::NoMemory;

/// Whether file scope declares the name again.
fn is_again(world: &World, name: &[u8]) -> bool
    ensures { result ≡ unit.is_again (seen world.now) name.now }
{
    world.is_file_scope() && world.find(name).is_some()
}

/// Whether an item declares an object for the first time.
pub fn is_new_object(world: &World, is_typedef: bool, is_function: bool, name: &[u8]) -> bool
    ensures { result ≡ (not is_typedef && not is_function && not (unit.is_again (seen world.now) name.now)) }
{
    !is_typedef && !is_function && !is_again(world, name)
}

/// Whether an object has static storage, wherever it is defined; `static` stands there or not.
pub fn is_static_here(world: &World, has_static: bool) -> bool
    ensures { result ≡ (is_file_scope (seen world.now) || has_static) }
{
    world.is_file_scope() || has_static
}

/// Whether an object has static storage and is defined in the unit.
pub fn is_fixed_here(world: &World, whole: &Whole, has_static: bool, name: &[u8]) -> bool
    ensures { result ≡ unit.is_fixed_object (seen world.now) whole.now.objects has_static name.now }
{
    if world.is_file_scope() {
        whole.has_object(name)
    } else {
        has_static
    }
}

/// The place that an automatic object takes among those of its function.
pub fn local_place(world: &World, is_static: bool) -> Option<u32>
    ensures { result ≡ steps.local_place (seen world.now) is_static }
{
    if is_static {
        None
    } else {
        Some(world.locals())
    }
}

fn count_place(world: &mut World, place: u32) -> Result<(), NoMemory>
    ensures seen { OnOk result (seen world.new ≡ unit.count_local true (Some place) (seen world.old)) }
    ensures same { world.new.table ≡ world.old.table }
{
    match place.checked_add(1) {
        Some(count) => {
            world.set_locals(count);
            Ok(())
        }
        None => Err(NoMemory),
    }
}

/// The function has this automatic object too.
fn count_local(world: &mut World, is_new: bool, local: Option<u32>) -> Result<(), NoMemory>
    ensures seen { OnOk result (seen world.new ≡ unit.count_local is_new local (seen world.old)) }
    ensures same { world.new.table ≡ world.old.table }
{
    if !is_new {
        return Ok(());
    }
    match local {
        Some(place) => count_place(world, place),
        None => Ok(()),
    }
}

/// An object that is declared for the first time takes its number, and an automatic one its place; gives the
/// next number anyway.
pub fn begin_item(world: &mut World, is_new: bool, local: Option<u32>) -> Result<u32, CheckEnd>
    ensures gives { Gives (steps.begin_item is_new local) (seen world.old) result (λ n. n) (seen world.new) }
    ensures extends { OnOk result (Extends world.old.table world.new.table) }
{
    let number = take_number(world, is_new, local)?;
    count_local(world, is_new, local)?;
    Ok(number)
}
