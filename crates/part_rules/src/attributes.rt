//! Attributes: rule 12 at each number among the arguments, and 9.

ghost use Rattle.std.specs.Prelude.{◌≡◌, map};
ghost use Rattle.c_tree.specs.View.{view_argument, view_arguments, view_attribute, view_entry};
ghost use Rattle.c_rules.specs.Walk as walk;
ghost use Rattle.c_rules.specs.World.{World as Known};
ghost use Rattle.c_world.specs.Seen.{Gives};

use body_rules::all_known;
use c_constants::constant_of;
use c_tree::{Attribute, AttributeArgument, Entry};
use c_world::{CheckEnd, keep};
use tok_base::Items;

fn judge_argument(argument: &AttributeArgument) -> Result<(), CheckEnd>
    ensures gives { (w : Known) → Gives (walk.judge_argument (view_argument argument.now)) w result (λ _. tt) w }
{
    match argument {
        AttributeArgument::Number(at, number) => {
            keep(12, *at, constant_of(number.as_slice()).is_some())
        }
        AttributeArgument::Text(_, _) => Ok(()),
    }
}

fn judge_arguments(arguments: &[AttributeArgument]) -> Result<(), CheckEnd>
    ensures gives { (w : Known) → Gives (walk.judge_arguments (map view_argument arguments.now)) w result (λ _. tt) w }
{
    for argument in arguments {
        match judge_argument(argument) {
            Ok(()) => {}
            Err(end) => return Err(end),
        }
    }
    Ok(())
}

fn judge_maybe_arguments(arguments: &Option<Items<AttributeArgument>>) -> Result<(), CheckEnd>
    ensures gives { (w : Known) → Gives (walk.judge_maybe_arguments (view_arguments arguments.now)) w result (λ _. tt) w }
{
    match arguments {
        None => Ok(()),
        Some(arguments) => judge_arguments(arguments.as_slice()),
    }
}

fn judge_entries(entries: &[Entry]) -> Result<(), CheckEnd>
    ensures gives { (w : Known) → Gives (walk.judge_entries (map view_entry entries.now)) w result (λ _. tt) w }
{
    for entry in entries {
        match judge_maybe_arguments(&entry.arguments) {
            Ok(()) => {}
            Err(end) => return Err(end),
        }
    }
    Ok(())
}

/// An attribute: 12 at each number among its arguments, and 9.
pub fn judge_attribute(attribute: &Attribute) -> Result<(), CheckEnd>
    ensures gives { (w : Known) → Gives (walk.judge_attribute (view_attribute attribute.now)) w result (λ _. tt) w }
{
    match judge_entries(attribute.entries.as_slice()) {
        Err(end) => Err(end),
        Ok(()) => keep(9, attribute.at, all_known(attribute.entries.as_slice())),
    }
}
