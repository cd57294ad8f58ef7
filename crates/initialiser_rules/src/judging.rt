//! Rules 10, 11 and 23, tried at the item that has the initialiser.

ghost use Rattle.std.specs.Prelude.{◌≡◌, ◌<◌, ◌∷◌, [], ◌||◌, not, is_some, length, IfOk, IfSome, OnOk};
ghost use Rattle.c_types.specs.Table.{type_at};
ghost use Rattle.c_rules.specs.Initialisers.{Given};
ghost use Rattle.c_rules.specs.Unit as unit;
ghost use Rattle.c_world.specs.Extends.{Extends};
ghost use Rattle.c_world.specs.Seen.{seen, Gives};
ghost use Rattle.initialiser_rules.specs.Entries.{AllBelow, FitsBelow, fits_in, reads};
ghost use Rattle.initialiser_rules.specs.Filling as filling;
ghost use Rattle.initialiser_rules.specs.Steps as steps;

use crate::fitting::fit;
use crate::given::{Entry, Fitted};
use crate::rules::{all_convert, are_fixed, note_constants_if, note_targets};
use c_rules::Declares;
use c_tree::At;
use c_types::TypeId;
use c_world::{CheckEnd, World, keep};
use std::alloc::Global;
use tok_base::{Items, NoMemory};

/// Which expression initialises which part, where an object is declared that it may initialise.
fn found(
    world: &World,
    alloc: Global,
    what: Declares,
    ty: TypeId,
    is_fixed: bool,
    entries: &[Entry],
) -> Result<Option<Items<Fitted>>, NoMemory>
    requires ty { ty.0 < length world.now.table.terms }
    requires entries { AllBelow (length world.now.table.terms) entries.now }
    ensures is { IfOk result (λ o. (g : Given) → reads world.now.table.terms entries.now ≡ g ∷ [] → is_some o ≡ steps.is_initialised (seen world.now) what (type_at world.now.table.terms ty.0) is_fixed g) }
    ensures fits { IfOk result (λ o. IfSome o (λ fs. (g : Given) → reads world.now.table.terms entries.now ≡ g ∷ [] → fits_in world.now.table.terms fs ≡ filling.fits_of (seen world.now) (type_at world.now.table.terms ty.0) g)) }
    ensures below { IfOk result (λ o. IfSome o (λ fs. FitsBelow (length world.now.table.terms) fs)) }
{
    match what {
        Declares::Object => fit(world, alloc, is_fixed, ty, entries),
        _ => Ok(None),
    }
}

/// Rule 10.
fn judge_found(
    world: &World,
    alloc: Global,
    at: At,
    what: Declares,
    ty: TypeId,
    is_fixed: bool,
    entries: &[Entry],
) -> Result<Items<Fitted>, CheckEnd>
    requires ty { ty.0 < length world.now.table.terms }
    requires entries { AllBelow (length world.now.table.terms) entries.now }
    ensures gives { (g : Given) → reads world.now.table.terms entries.now ≡ g ∷ [] → Gives (steps.judge_found (seen world.now) at what (type_at world.now.table.terms ty.0) is_fixed g) (seen world.now) result (λ fs. fits_in world.now.table.terms fs) (seen world.now) }
    ensures below { IfOk result (λ fs. FitsBelow (length world.now.table.terms) fs) }
{
    match found(world, alloc, what, ty, is_fixed, entries) {
        Ok(Some(fits)) => Ok(fits),
        Ok(None) => Err(CheckEnd::Rule(10, at)),
        Err(_) => Err(CheckEnd::NoMemory),
    }
}

/// Whether rule 11 is kept.
fn may_be_static(world: &World, is_fixed: bool, fits: &[Fitted]) -> bool
    requires { FitsBelow (length world.now.table.terms) fits.now }
    ensures { result ≡ (not is_fixed || filling.all_fixed (fits_in world.now.table.terms fits.now)) }
{
    !is_fixed || are_fixed(world, fits)
}

fn note_fits(world: &mut World, is_fixed: bool, fits: &[Fitted])
    requires { FitsBelow (length world.old.table.terms) fits.now }
    ensures seen { seen world.new ≡ filling.constants_if is_fixed (fits_in world.old.table.terms fits.now) (filling.targets_noted (fits_in world.old.table.terms fits.now) (seen world.old)) }
    ensures same { world.new.table ≡ world.old.table }
{
    note_targets(world, fits);
    note_constants_if(world, is_fixed, fits);
}

/// Rules 11 and 23, and what is noted.
fn judge_fits(world: &mut World, at: At, is_fixed: bool, fits: &[Fitted]) -> Result<(), CheckEnd>
    requires { FitsBelow (length world.old.table.terms) fits.now }
    ensures gives { Gives (filling.judge_fits at is_fixed (fits_in world.old.table.terms fits.now)) (seen world.old) result (λ _. tt) (seen world.new) }
    ensures extends { OnOk result (Extends world.old.table world.new.table) }
{
    keep(11, at, may_be_static(world, is_fixed, fits))?;
    let converted = all_convert(world, fits)?;
    keep(23, at, converted)?;
    note_fits(world, is_fixed, fits);
    Ok(())
}

/// Rules 10, 11 and 23 of an initialiser, and what is noted of its expressions.
pub fn judge_given(
    world: &mut World,
    alloc: Global,
    at: At,
    what: Declares,
    ty: TypeId,
    is_fixed: bool,
    entries: &[Entry],
) -> Result<(), CheckEnd>
    requires ty { ty.0 < length world.old.table.terms }
    requires entries { AllBelow (length world.old.table.terms) entries.now }
    ensures gives { (g : Given) → reads world.old.table.terms entries.now ≡ g ∷ [] → Gives (unit.judge_given at what (type_at world.old.table.terms ty.0) is_fixed g) (seen world.old) result (λ _. tt) (seen world.new) }
    ensures extends { OnOk result (Extends world.old.table world.new.table) }
{
    match judge_found(world, alloc, at, what, ty, is_fixed, entries) {
        Ok(fits) => judge_fits(world, at, is_fixed, fits.as_slice()),
        Err(end) => Err(end),
    }
}
