//! The specifiers of one declaration, field, parameter or type name.

ghost use Rattle.std.specs.Prelude.{◌≡◌, ◌<◌, [], ◌∷◌, length, map, false, unwrap_or, ℕ, List, OnOk, IfOk};
ghost use Rattle.c_tree.specs.View.{view_keyword};
ghost use Rattle.num_ops.specs.declared.kinds.IntKind.TheVariants as kind;
ghost use Rattle.c_types.specs.CTypes as c;
ghost use Rattle.c_types.specs.Canonical as canonical;
ghost use Rattle.c_types.specs.Table.{type_at, AllBelow};
ghost use Rattle.c_types.specs.declared.terms.Term.{Term as TypeTerm};
ghost use Rattle.c_rules.specs.Specifiers as rules;
ghost use Rattle.c_rules.specs.Walk.{with_tagged};
ghost use Rattle.c_world.specs.Extends.{Extends};
ghost use Rattle.c_world.specs.Seen.{seen};
ghost use Rattle.specifier_rules.specs.Specified.{basic_or_int, specified_of, type_by};

use crate::words::{has_type_word, qualifiers_in};
use crate::written::{Basic, written};
use c_tree::Keyword;
use c_types::{Term, TypeId};
use c_world::World;
use num_ops::IntKind;
use std::alloc::Global;
use tok_base::{Items, NoMemory};

/// The specifiers that were read: the keywords, and the types that are none.
#[derive(Drop)]
pub struct Specified {
    pub words: Items<Keyword>,
    pub types: Items<TypeId>,
    /// Whether a struct, union or enumeration stands there.
    pub has_tag: bool,
}

impl Specified {
    /// No specifiers yet.
    pub fn new(alloc: Global) -> Specified
        ensures { result ≡ record { words = []; types = []; has_tag = false } }
    {
        Specified {
            words: Items::new(alloc),
            types: Items::new(alloc),
            has_tag: false,
        }
    }

    /// A keyword follows.
    pub fn put_word(&mut self, word: Keyword) -> Result<(), NoMemory>
        ensures is { OnOk result ((ts : List TypeTerm) → specified_of ts self.new ≡ rules.with_word (view_keyword word) (specified_of ts self.old)) }
        ensures valid { OnOk result (self.new.types ≡ self.old.types) }
    {
        self.words.push(word)?;
        Ok(())
    }

    /// A typedef name of this type follows.
    pub fn put_type(&mut self, ty: TypeId) -> Result<(), NoMemory>
        ensures is { OnOk result ((ts : List TypeTerm) → specified_of ts self.new ≡ rules.with_type (type_at ts ty.0) (specified_of ts self.old)) }
        ensures valid { OnOk result ((n : ℕ) → AllBelow n self.old.types → ty.0 < n → AllBelow n self.new.types) }
    {
        self.types.push(ty)?;
        Ok(())
    }

    /// A struct, a union or an enumeration of this type follows.
    pub fn put_tagged(&mut self, ty: TypeId) -> Result<(), NoMemory>
        ensures is { OnOk result ((ts : List TypeTerm) → specified_of ts self.new ≡ with_tagged (type_at ts ty.0) (specified_of ts self.old)) }
        ensures valid { OnOk result ((n : ℕ) → AllBelow n self.old.types → ty.0 < n → AllBelow n self.new.types) }
    {
        self.types.push(ty)?;
        self.has_tag = true;
        Ok(())
    }
}

/// A type that words write.
fn basic_type(world: &mut World, basic: Option<Basic>) -> Result<TypeId, NoMemory>
    ensures seen { seen world.new ≡ seen world.old }
    ensures extends { Extends world.old.table world.new.table }
    ensures is { IfOk result (λ r. type_at world.new.table.terms r.0 ≡ basic_or_int basic) }
    ensures valid { IfOk result (λ r. r.0 < length world.new.table.terms) }
{
    match basic {
        None => world.make(Term::Int(IntKind::Int)),
        Some(Basic::Void) => world.make(Term::Void),
        Some(Basic::Int(kind)) => world.make(Term::Int(kind)),
    }
}

/// The one type of the specifiers, or `int` where they have none or several.
fn specified_type(world: &mut World, specified: &Specified) -> Result<TypeId, NoMemory>
    requires { AllBelow (length world.old.table.terms) specified.now.types }
    ensures seen { seen world.new ≡ seen world.old }
    ensures extends { Extends world.old.table world.new.table }
    ensures is { IfOk result (λ r. type_at world.new.table.terms r.0 ≡ type_by (specified_of world.old.table.terms specified.now)) }
    ensures valid { IfOk result (λ r. r.0 < length world.new.table.terms) }
{
    let words = specified.words.as_slice();
    match specified.types.as_slice() {
        [] => basic_type(world, written(words)),
        [ty] => alone(world, words, *ty),
        _ => world.make(Term::Int(IntKind::Int)),
    }
}

/// A type beside which words stand.
fn alone(world: &mut World, words: &[Keyword], ty: TypeId) -> Result<TypeId, NoMemory>
    requires { ty.0 < length world.old.table.terms }
    ensures seen { seen world.new ≡ seen world.old }
    ensures extends { Extends world.old.table world.new.table }
    ensures is { IfOk result (λ r. type_at world.new.table.terms r.0 ≡ unwrap_or (rules.type_specified (type_at world.old.table.terms ty.0 ∷ []) (map view_keyword words.now)) (c.Int kind.Int)) }
    ensures valid { IfOk result (λ r. r.0 < length world.new.table.terms) }
{
    if has_type_word(words) {
        world.make(Term::Int(IntKind::Int))
    } else {
        Ok(ty)
    }
}

/// A type that is not qualified yet, with these qualifiers: const is 1, volatile 2, restrict 4.
fn with_qualifiers(world: &mut World, qualifiers: u8, id: TypeId) -> Result<TypeId, NoMemory>
    requires small { qualifiers < 8 }
    requires valid { id.0 < length world.old.table.terms }
    ensures seen { seen world.new ≡ seen world.old }
    ensures extends { Extends world.old.table world.new.table }
    ensures is { IfOk result (λ r. type_at world.new.table.terms r.0 ≡ canonical.with_qualifiers qualifiers (type_at world.old.table.terms id.0)) }
    ensures valid { IfOk result (λ r. r.0 < length world.new.table.terms) }
{
    if qualifiers == 0 {
        Ok(id)
    } else {
        world.make(Term::Qualified(qualifiers, id))
    }
}

/// The type that the specifiers give what is declared: `int` where they give none, which breaks rule 3.
pub fn base_type(world: &mut World, specified: &Specified) -> Result<TypeId, NoMemory>
    requires { AllBelow (length world.old.table.terms) specified.now.types }
    ensures seen { seen world.new ≡ seen world.old }
    ensures extends { Extends world.old.table world.new.table }
    ensures is { IfOk result (λ r. type_at world.new.table.terms r.0 ≡ rules.base_type (specified_of world.old.table.terms specified.now)) }
    ensures valid { IfOk result (λ r. r.0 < length world.new.table.terms) }
{
    let qualifiers = qualifiers_in(specified.words.as_slice());
    let ty = specified_type(world, specified)?;
    let r = with_qualifiers(world, qualifiers, ty)?;
    Ok(r)
}
