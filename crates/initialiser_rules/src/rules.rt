//! Rules 11 and 23 of the expressions of an initialiser, and what is noted of them.

ghost use Rattle.std.specs.Prelude.{◌≡◌, ◌<◌, length, IfOk};
ghost use Rattle.c_rules.specs.Initialisers as rules;
ghost use Rattle.c_rules.specs.Typed as typed;
ghost use Rattle.c_world.specs.Extends.{Extends};
ghost use Rattle.c_world.specs.Seen.{seen};
ghost use Rattle.expression_rules.specs.Typed.{typed_of};
ghost use Rattle.initialiser_rules.specs.Entries.{FitBelow, FitsBelow, fit_of, fits_in};
ghost use Rattle.initialiser_rules.specs.Filling as filling;
ghost use Rattle.initialiser_rules.specs.Filling.{constant_noted, constants_if, constants_noted, fit_converts, target_noted, targets_noted};

use crate::fitting::text_fits;
use crate::given::Fitted;
use c_rules::ConstantValue;
use c_world::World;
use constant_values::constant_value;
use expression_rules::{Typed, converts, is_null_constant, pointed};
use tok_base::NoMemory;

/// Whether a static object may have this value: an integer constant expression, a null pointer constant, a
/// string literal, a function, or the address of a static object.
fn is_fixed_value(world: &World, x: &Typed) -> bool
    requires { x.now.ty.0 < length world.now.table.terms }
    ensures { result ≡ rules.is_fixed_value (typed_of world.now.table.terms x.now) }
{
    x.value.has_value() || is_null_constant(x) || x.text.is_some() || pointed(world, x).is_known()
}

/// 11: whether a static object may have all these values.
pub fn are_fixed(world: &World, fits: &[Fitted]) -> bool
    requires { FitsBelow (length world.now.table.terms) fits.now }
    ensures { result ≡ filling.all_fixed (fits_in world.now.table.terms fits.now) }
{
    for fit in fits {
        if !is_fixed_value(world, &fit.typed) {
            return false;
        }
    }
    true
}

/// Whether it is a string literal that gives an array of characters its bytes.
fn is_text(world: &World, fit: &Fitted) -> bool
    requires { fit.now.ty.0 < length world.now.table.terms }
    ensures { result ≡ filling.is_text (fit_of world.now.table.terms fit.now) }
{
    text_fits(world, world.plain(fit.ty), fit.typed.text)
}

/// Whether an expression is converted to the type of its part, where it isn't such a string literal.
fn fit_converts(world: &mut World, fit: &Fitted) -> Result<bool, NoMemory>
    requires { FitBelow (length world.old.table.terms) fit.now }
    ensures seen { seen world.new ≡ seen world.old }
    ensures extends { Extends world.old.table world.new.table }
    ensures is { IfOk result (λ b. b ≡ fit_converts (fit_of world.old.table.terms fit.now)) }
{
    if is_text(world, fit) {
        Ok(true)
    } else {
        converts(world, fit.ty, &fit.typed)
    }
}

/// 23: whether each expression is converted to the type of its part.
pub fn all_convert(world: &mut World, fits: &[Fitted]) -> Result<bool, NoMemory>
    requires { FitsBelow (length world.old.table.terms) fits.now }
    ensures seen { seen world.new ≡ seen world.old }
    ensures extends { Extends world.old.table world.new.table }
    ensures is { IfOk result (λ b. b ≡ filling.all_convert (fits_in world.old.table.terms fits.now)) }
{
    for fit in fits {
        match fit_converts(world, fit) {
            Ok(true) => {}
            Ok(false) => return Ok(false),
            Err(end) => return Err(end),
        }
    }
    Ok(true)
}

fn note_target(world: &mut World, fit: &Fitted)
    requires { FitBelow (length world.old.table.terms) fit.now }
    ensures seen { seen world.new ≡ target_noted (fit_of world.old.table.terms fit.now) (seen world.old) }
    ensures same { world.new.table ≡ world.old.table }
{
    if !is_text(world, fit) {
        world.note_target(fit.at.id, fit.ty);
    }
}

/// The type of its part is noted at each expression.
pub fn note_targets(world: &mut World, fits: &[Fitted])
    requires { FitsBelow (length world.old.table.terms) fits.now }
    ensures seen { seen world.new ≡ targets_noted (fits_in world.old.table.terms fits.now) (seen world.old) }
    ensures same { world.new.table ≡ world.old.table }
{
    for fit in fits {
        note_target(world, fit);
    }
}

/// The value of a constant, as it stands before it is converted.
#[tactic(auto, using(constant_values::specs::Forms::constant_value_is))]
fn value_of(world: &World, x: &Typed) -> Option<ConstantValue>
    requires { x.now.ty.0 < length world.now.table.terms }
    ensures { result ≡ typed.constant_value (typed_of world.now.table.terms x.now) }
{
    constant_value(x.value, x.is_null, pointed(world, x))
}

fn note_constant(world: &mut World, fit: &Fitted)
    requires { FitBelow (length world.old.table.terms) fit.now }
    ensures seen { seen world.new ≡ constant_noted (fit_of world.old.table.terms fit.now) (seen world.old) }
    ensures same { world.new.table ≡ world.old.table }
{
    if !is_text(world, fit) {
        let value = value_of(world, &fit.typed);
        world.note_constant(fit.at.id, value);
    }
}

/// The value is noted at each expression that gives a static scalar its value.
pub fn note_constants(world: &mut World, fits: &[Fitted])
    requires { FitsBelow (length world.old.table.terms) fits.now }
    ensures seen { seen world.new ≡ constants_noted (fits_in world.old.table.terms fits.now) (seen world.old) }
    ensures same { world.new.table ≡ world.old.table }
{
    for fit in fits {
        note_constant(world, fit);
    }
}

/// The same, of a static object.
pub(crate) fn note_constants_if(world: &mut World, is_fixed: bool, fits: &[Fitted])
    requires { FitsBelow (length world.old.table.terms) fits.now }
    ensures seen { seen world.new ≡ constants_if is_fixed (fits_in world.old.table.terms fits.now) (seen world.old) }
    ensures same { world.new.table ≡ world.old.table }
{
    if is_fixed {
        note_constants(world, fits);
    }
}
