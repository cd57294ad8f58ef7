//! Rule 3, tried at what has specifiers.

ghost use Rattle.std.specs.Prelude.{◌≡◌, ◌<◌, ℕ, List, length, map, is_some, IfOk, OnOk};
ghost use Rattle.c_tree.specs.View.{view_keyword};
ghost use Rattle.c_types.specs.Table.{type_at, AllBelow};
ghost use Rattle.c_types.specs.declared.terms.Term.{Term as TypeTerm};
ghost use Rattle.c_rules.specs.Specifiers as rules;
ghost use Rattle.c_rules.specs.Walk as walk;
ghost use Rattle.c_world.specs.Extends.{Extends};
ghost use Rattle.c_world.specs.Seen.{seen, Gives};
ghost use Rattle.specifier_rules.specs.Specified.{all_types, specified_of};

use crate::counts::count_storages;
use crate::specified::{Specified, base_type};
use crate::words::{has_extern, has_type_word, has_typedef};
use crate::written::written;
use c_rules::Holder;
use c_tree::{At, Keyword};
use c_types::TypeId;
use c_world::{CheckEnd, World, keep};

/// Whether the specifiers have one type.
fn has_one_type(specified: &Specified) -> bool
    ensures { (ts : List TypeTerm) → result ≡ is_some (rules.type_specified (all_types ts specified.now.types) (map view_keyword specified.now.words)) }
{
    let words = specified.words.as_slice();
    match specified.types.as_slice() {
        [] => written(words).is_some(),
        [_] => !has_type_word(words),
        _ => false,
    }
}

/// `typedef` and functions are declared at file scope, and `extern` stands there only.
pub fn may_hold(holder: Holder, words: &[Keyword], has_function: bool) -> bool
    ensures { result ≡ rules.may_hold holder (map view_keyword words.now) has_function }
{
    match holder {
        Holder::FileDeclaration => true,
        Holder::BlockDeclaration => !has_typedef(words) && !has_extern(words) && !has_function,
        Holder::Definition => !has_typedef(words),
        Holder::Part => !has_typedef(words) && !has_extern(words),
    }
}

/// 3: one type, at most one storage class, and without a declarator a struct, a union or an enumeration.
pub fn are_specifiers(
    holder: Holder,
    specified: &Specified,
    has_declarator: bool,
    has_function: bool,
) -> bool
    ensures { (ts : List TypeTerm) → result ≡ rules.are_specifiers holder (specified_of ts specified.now) has_declarator has_function }
{
    has_one_type(specified)
        && count_storages(specified.words.as_slice()) <= 1
        && may_hold(holder, specified.words.as_slice(), has_function)
        && (has_declarator || specified.has_tag)
}

/// 3, at a field, a parameter or a type name, and the type that its specifiers give.
pub fn judge_part(world: &mut World, at: At, specified: &Specified) -> Result<TypeId, CheckEnd>
    requires { AllBelow (length world.old.table.terms) specified.now.types }
    ensures gives { (before : ℕ) → Gives (walk.judge_part before at (specified_of world.old.table.terms specified.now)) (seen world.old) result (λ r. type_at world.new.table.terms r.0) (seen world.new) }
    ensures extends { OnOk result (Extends world.old.table world.new.table) }
    ensures valid { IfOk result (λ r. r.0 < length world.new.table.terms) }
{
    keep(3, at, are_specifiers(Holder::Part, specified, true, false))?;
    let ty = base_type(world, specified)?;
    Ok(ty)
}
