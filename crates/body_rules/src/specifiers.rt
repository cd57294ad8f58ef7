//! The words among specifiers that are looked for before they are read.

ghost use Rattle.std.specs.Prelude.{◌≡◌, ◌||◌, map, IfOk, option_copied};
ghost use Rattle.c_tree.specs.Marked as tree;
ghost use Rattle.c_tree.specs.View.{view_item, view_spec, specs_of};
ghost use Rattle.c_rules.specs.Unit as unit;

use crate::declarators::bare_name;
use c_tree::{Item, Keyword, Spec};
use std::alloc::Global;
use tok_base::{Bytes, Items, NoMemory};

fn is_typedef_spec(spec: &Spec) -> bool
    ensures { (more : tree.Specs) → unit.is_typedef_specs (view_spec spec.now more) ≡ (result || unit.is_typedef_specs more) }
{
    match spec {
        Spec::Keyword(Keyword::Typedef) => true,
        _ => false,
    }
}

/// Whether `typedef` is among the specifiers.
pub fn is_typedef_specs(specs: &Items<Spec>) -> bool
    ensures { result ≡ unit.is_typedef_specs (specs_of specs.now) }
{
    for spec in specs.as_slice() {
        if is_typedef_spec(spec) {
            return true;
        }
    }
    false
}

fn is_extern_spec(spec: &Spec) -> bool
    ensures { (more : tree.Specs) → unit.is_extern_specs (view_spec spec.now more) ≡ (result || unit.is_extern_specs more) }
{
    match spec {
        Spec::Keyword(Keyword::Extern) => true,
        _ => false,
    }
}

/// Whether `extern` is among the specifiers.
pub fn is_extern_specs(specs: &Items<Spec>) -> bool
    ensures { result ≡ unit.is_extern_specs (specs_of specs.now) }
{
    for spec in specs.as_slice() {
        if is_extern_spec(spec) {
            return true;
        }
    }
    false
}

/// The first of the items whose declarator is the bare name, by its name.
fn first_bare(items: &[Item]) -> Option<&[u8]>
    ensures { option_copied result ≡ unit.first_bare (map view_item items.now) }
{
    for item in items {
        let name = bare_name(&item.declarator);
        if name.is_some() {
            return name;
        }
    }
    None
}

/// The typedef name that is declared with a struct, a union or an enumeration.
pub fn own_name(
    alloc: Global,
    specs: &Items<Spec>,
    items: &[Item],
) -> Result<Option<Bytes>, NoMemory>
    ensures { IfOk result (λ n. n ≡ unit.own_name (specs_of specs.now) (map view_item items.now)) }
{
    if is_typedef_specs(specs) {
        copied(alloc, first_bare(items))
    } else {
        Ok(None)
    }
}

fn copied(alloc: Global, name: Option<&[u8]>) -> Result<Option<Bytes>, NoMemory>
    ensures { IfOk result (λ n. n ≡ option_copied name.entry) }
{
    match name {
        Some(name) => {
            let copy = Bytes::from_slice(alloc, name)?;
            Ok(Some(copy))
        }
        None => Ok(None),
    }
}
