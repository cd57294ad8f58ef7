//! Rule 3 at declarations and definitions.

ghost use Rattle.std.specs.Prelude.{◌≡◌, ℕ, List};
ghost use Rattle.c_types.specs.declared.terms.Term.{Term as TypeTerm};
ghost use Rattle.c_rules.specs.Unit as unit;
ghost use Rattle.c_rules.specs.World.{World as Known};
ghost use Rattle.c_world.specs.Seen.{seen, Gives};
ghost use Rattle.specifier_rules.specs.Specified.{specified_of};
ghost use Rattle.statement_rules.specs.Steps as steps;

use c_rules::Holder;
use c_tree::At;
use c_world::{CheckEnd, World, keep};
use specifier_rules::{Specified, are_specifiers};

fn holder_of(world: &World) -> Holder
    ensures { result ≡ unit.holder_of (seen world.now) }
{
    if world.is_file_scope() {
        Holder::FileDeclaration
    } else {
        Holder::BlockDeclaration
    }
}

/// 3, at a declaration, by whether it has items and whether one of them declares a function.
pub fn judge_specifiers(
    world: &World,
    at: At,
    specified: &Specified,
    has_items: bool,
    has_function: bool,
) -> Result<(), CheckEnd>
    ensures { (n : ℕ) (ts : List TypeTerm) → Gives (steps.judge_specifiers n at (specified_of ts specified.now) has_items has_function) (seen world.now) result (λ _. tt) (seen world.now) }
{
    keep(
        3,
        at,
        are_specifiers(holder_of(world), specified, has_items, has_function),
    )
}

/// 3, at a function definition.
pub fn judge_definition_specifiers(at: At, specified: &Specified) -> Result<(), CheckEnd>
    ensures { (n : ℕ) (ts : List TypeTerm) (w : Known) → Gives (steps.judge_definition n at (specified_of ts specified.now)) w result (λ _. tt) w }
{
    keep(
        3,
        at,
        are_specifiers(Holder::Definition, specified, true, true),
    )
}
