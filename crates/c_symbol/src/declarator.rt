//! What a declarator declares.

ghost use Rattle.std.specs.Prelude.{◌≡◌, IfOk};
ghost use Rattle.c_tree.specs.Bare.{bare_declarator};
ghost use Rattle.c_tree.specs.Wf as wf;
ghost use Rattle.c_reader.specs.Declarations as machine;
ghost use Rattle.c_symbol.specs.Made.{made_name};
ghost use Rattle.c_symbol.specs.Shown.{shown_declarator};

use c_tree::Declarator;
use std::alloc::{AllocError, Global};
use tok_base::{Bytes, Items};

/// The name that a declarator declares.
#[tactic(auto, unfolding(crate::specs::Shown::shown_declarator))]
pub fn declared_name(alloc: Global, d: &Declarator) -> Result<Option<Bytes>, AllocError>
    ensures { IfOk result (λ n. n ≡ wf.declared_name (bare_declarator (shown_declarator d.now))) }
{
    match d {
        Declarator::PointerTo(_, _, d) => declared_name(alloc, d),
        Declarator::Declared(_, None) => Ok(None),
        Declarator::Declared(_, Some(name)) => {
            Ok(Some(Items::from_slice(alloc, name.as_slice())?))
        }
        Declarator::Group(_, d) => declared_name(alloc, d),
        Declarator::ArrayOf(_, d, _) => declared_name(alloc, d),
        Declarator::FunctionOf(_, d, _) => declared_name(alloc, d),
    }
}

/// The typedef name that a declarator makes.
pub fn name_made(alloc: Global, typedef: bool, d: &Declarator) -> Result<Option<Bytes>, AllocError>
    ensures { IfOk result (λ n. n ≡ made_name typedef (wf.declared_name (bare_declarator (shown_declarator d.now)))) }
{
    if typedef {
        declared_name(alloc, d)
    } else {
        Ok(None)
    }
}

/// Whether it is a name, perhaps in parentheses.
#[tactic(auto, unfolding(crate::specs::Shown::shown_declarator))]
pub fn is_plain(d: &Declarator) -> bool
    ensures { result ≡ machine.is_plain (bare_declarator (shown_declarator d.now)) }
{
    match d {
        Declarator::PointerTo(..) => false,
        Declarator::Declared(..) => true,
        Declarator::Group(_, d) => is_plain(d),
        Declarator::ArrayOf(..) => false,
        Declarator::FunctionOf(..) => false,
    }
}

/// Whether it declares a function.
#[tactic(auto, unfolding(crate::specs::Shown::shown_declarator))]
pub fn is_function(d: &Declarator) -> bool
    ensures { result ≡ machine.is_function (bare_declarator (shown_declarator d.now)) }
{
    match d {
        Declarator::PointerTo(_, _, d) => is_function(d),
        Declarator::Declared(..) => false,
        Declarator::Group(_, d) => is_function(d),
        Declarator::ArrayOf(_, d, _) => is_function(d),
        Declarator::FunctionOf(_, d, _) => is_plain(d) || is_function(d),
    }
}
