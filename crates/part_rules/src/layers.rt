//! The parentheses of a function's declarator (6.7.6.3).

ghost use Rattle.std.specs.Prelude.{◌≡◌, length, IfOk, OnOk};
ghost use Rattle.c_types.specs.Table.{AllBelow};
ghost use Rattle.c_world.specs.Extends.{Extends};
ghost use Rattle.c_world.specs.Seen.{seen, Gives};
ghost use Rattle.declarator_rules.specs.Layers.{LayersBelow, all_types, laid_of};
ghost use Rattle.part_rules.specs.Layers.{function_ended};

use c_types::TypeId;
use c_world::{CheckEnd, World};
use declarator_rules::Laid;
use tok_base::Items;

/// The parentheses end behind parameters of these types; their names are kept with the declarator.
pub fn end_function(
    world: &mut World,
    laid: Laid,
    parameters: Items<TypeId>,
) -> Result<Laid, CheckEnd>
    requires layers { LayersBelow (length world.old.table.terms) laid.layers }
    requires parameters { AllBelow (length world.old.table.terms) parameters }
    ensures gives { Gives (function_ended (all_types world.old.table.terms parameters) (laid_of world.old.table.terms laid)) (seen world.old) result (laid_of world.new.table.terms) (seen world.new) }
    ensures same { OnOk result (world.new.table ≡ world.old.table) }
    ensures valid { IfOk result (λ l. LayersBelow (length world.new.table.terms) l.layers) }
{
    let names = world.leave_with()?;
    let mut laid = laid;
    laid.put_function(parameters, names)?;
    Ok(laid)
}
