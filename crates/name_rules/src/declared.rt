//! Rules 2, 4, 5, 6, 8 and 34, tried at the outermost node of a declarator that declares a name.

ghost use Rattle.std.specs.Prelude.{◌≡◌, ◌<◌, length, IfOk, OnOk};
ghost use Rattle.c_types.specs.Table.{type_at};
ghost use Rattle.c_rules.specs.Declarators as rules;
ghost use Rattle.c_rules.specs.Forms as forms;
ghost use Rattle.c_rules.specs.Unit as unit;
ghost use Rattle.c_rules.specs.World.{is_listed};
ghost use Rattle.c_world.specs.Extends.{Extends};
ghost use Rattle.c_world.specs.Seen.{seen, Gives};
ghost use Rattle.declarator_rules.specs.Built.{BuiltBelow, IsBuilt};
ghost use Rattle.name_rules.specs.Introducing.{declared_type, judge_known, made_in};

use crate::introducing::introduce;
use crate::library::keeps_library;
use crate::names::may_be_named;
use c_rules::{Declares, Sort};
use c_tree::At;
use c_types::TypeId;
use c_world::{CheckEnd, World, keep};
use declarator_rules::{Built, judge_built};
use std::alloc::Global;
use tok_base::NoMemory;

/// What a declarator declares.
#[derive(Clone, Copy)]
pub struct Declared<'a> {
    pub what: Declares,
    /// The number of an object that is declared anew.
    pub number: u32,
    /// The node of the name.
    pub at: At,
    /// The name, empty where the declarator has none.
    pub name: &'a [u8],
    /// Whether it has static storage and is defined in the unit.
    pub is_fixed: bool,
    /// Whether a body or an initialiser follows.
    pub completes: bool,
    /// Whether the unit has a body for a function of this name.
    pub has_body: bool,
}

fn sort_declared(what: Declares) -> Sort
    ensures { result ≡ unit.sort_declared what }
{
    match what {
        Declares::Type => Sort::Alias,
        Declares::Object => Sort::Object(0, false),
        Declares::Function => Sort::Function(0),
        Declares::Member => Sort::Object(0, false),
    }
}

/// The type that a declarator makes, if it makes one.
pub(crate) fn made_type(built: Built) -> Option<TypeId>
    ensures { result ≡ made_in built }
{
    match built {
        Built::Made(made) => Some(made.ty),
        _ => None,
    }
}

/// 34: whether a function has the library's type, where the unit has no body for it.
fn keeps_known(
    world: &mut World,
    alloc: Global,
    declared: &Declared,
    ty: TypeId,
) -> Result<bool, NoMemory>
    requires { ty.0 < length world.old.table.terms }
    ensures seen { seen world.new ≡ seen world.old }
    ensures extends { Extends world.old.table world.new.table }
    ensures is { IfOk result (λ b. (whole : forms.Whole) → is_listed declared.now.name.now whole.bodies ≡ declared.now.has_body → b ≡ unit.keeps_known whole declared.now.what declared.now.name.now (type_at world.old.table.terms ty.0)) }
{
    match declared.what {
        Declares::Function => keeps_library(world, alloc, declared.has_body, declared.name, ty),
        _ => Ok(true),
    }
}

/// 34, and the name comes into scope; gives the type.
fn judge_known(
    world: &mut World,
    alloc: Global,
    at: At,
    declared: &Declared,
    ty: TypeId,
) -> Result<TypeId, CheckEnd>
    requires { ty.0 < length world.old.table.terms }
    ensures gives { (whole : forms.Whole) → is_listed declared.now.name.now whole.bodies ≡ declared.now.has_body → Gives (judge_known whole at declared.now (type_at world.old.table.terms ty.0)) (seen world.old) result (λ r. type_at world.new.table.terms r.0) (seen world.new) }
    ensures extends { OnOk result (Extends world.old.table world.new.table) }
    ensures valid { IfOk result (λ r. r.0 < length world.new.table.terms) }
{
    let keeps = keeps_known(world, alloc, declared, ty)?;
    keep(34, at, keeps)?;
    introduce(world, alloc, declared, ty)?;
    Ok(ty)
}

/// 2, 4, 5, 6, 8 and 34 at the outermost node of a declarator, and the name comes into scope; gives the type.
pub fn judge_declared(
    world: &mut World,
    alloc: Global,
    at: At,
    declared: &Declared,
    built: Built,
) -> Result<TypeId, CheckEnd>
    requires { BuiltBelow (length world.old.table.terms) built }
    ensures gives { (whole : forms.Whole) (d : rules.Laid) (b : rules.Built) → is_listed declared.now.name.now whole.bodies ≡ declared.now.has_body → unit.name_or_none d.name ≡ declared.now.name.now → d.name_at ≡ declared.now.at → IsBuilt (seen world.old) world.old.table.terms built b → Gives (declared_type whole declared.now at d b) (seen world.old) result (λ r. type_at world.new.table.terms r.0) (seen world.new) }
    ensures extends { OnOk result (Extends world.old.table world.new.table) }
    ensures valid { IfOk result (λ r. r.0 < length world.new.table.terms) }
{
    let sort = sort_declared(declared.what);
    let may_be = may_be_named(
        world,
        declared.name,
        sort,
        made_type(built),
        declared.completes,
    );
    keep(2, at, may_be)?;
    match judge_built(world, at, declared.what, built) {
        Err(end) => Err(end),
        Ok(ty) => judge_known(world, alloc, at, declared, ty),
    }
}
