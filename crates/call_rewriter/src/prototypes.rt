//! The prototypes of the entry points, which stand before a rewritten unit.

ghost use Rattle.std.specs.Prelude.{◌≡◌, ◌++◌, ◌∷◌, [], map, IfOk};
ghost use Rattle.c_tree.specs.Tree as u;
ghost use Rattle.c_tree.specs.Tok.{KVoid};
ghost use Rattle.c_tree.specs.View.{view_declarator, view_external, view_keyword, params_of, specs_of};
ghost use Rattle.c_tree.specs.Bare.{bare_declarator, bare_external, bare_params, bare_specs};
ghost use Rattle.call_rewriter.specs.Plans.{callee_seen};
ghost use Rattle.call_rewriter.specs.Tagged.{Malloc, Calloc, Realloc, address_then, entry_declarator, entry_params, prototype, size_then};
ghost use Rattle.call_rewriter.specs.Tagger.{behind_params, put_param, those};

use crate::made;
use crate::site::Callee;
use crate::survey::Each;
use c_held as held;
use c_tree::{At, Declaration, Declarator, External, Item, Keyword, Param, Spec};
use std::alloc::Global;
use tok_base::{Items, NoMemory, Span};

/// The place of what is added to a unit.
fn added() -> At {
    At {
        span: Span { start: 0, end: 0 },
        id: 0,
    }
}

fn void(alloc: Global) -> Result<held::Specs, NoMemory>
    ensures { IfOk result (λ ss. bare_specs (specs_of ss) ≡ u.Keyword KVoid u.no_specs) }
{
    let mut specs = held::Specs::new(alloc);
    specs.push(Spec::Keyword(Keyword::Void))?;
    Ok(specs)
}

/// A parameter of type `unsigned long`.
fn size(alloc: Global) -> Result<Param, NoMemory>
    ensures { IfOk result (λ p. put_param p u.no_params ≡ size_then u.no_params) }
{
    let mut specs = held::Specs::new(alloc);
    specs.push(Spec::Keyword(Keyword::Unsigned))?;
    specs.push(Spec::Keyword(Keyword::Long))?;
    Ok(Param {
        at: added(),
        specs: specs.open(),
        declarator: None,
    })
}

/// A parameter of type `void *`.
fn address(alloc: Global) -> Result<Param, NoMemory>
    ensures { IfOk result (λ p. put_param p u.no_params ≡ address_then u.no_params) }
{
    let specs = void(alloc)?;
    let nameless = held::Declarator::new(Declarator::Declared(added(), None));
    let nameless = nameless.boxed(alloc)?;
    let pointer = Declarator::PointerTo(added(), Items::new(alloc), nameless.open());
    let pointer = held::Declarator::new(pointer).boxed(alloc)?;
    Ok(Param {
        at: added(),
        specs: specs.open(),
        declarator: Some(pointer.open()),
    })
}

/// The parameters with one more.
fn with_param(mut ps: held::Params, p: Param) -> Result<held::Params, NoMemory>
    ensures { IfOk result (λ qs. bare_params (params_of qs) ≡ behind_params (bare_params (params_of ps)) (put_param p u.no_params)) }
{
    ps.push(p)?;
    Ok(ps)
}

/// The parameters with one more of type `unsigned long`.
fn with_size(alloc: Global, ps: held::Params) -> Result<held::Params, NoMemory>
    ensures { IfOk result (λ qs. bare_params (params_of qs) ≡ behind_params (bare_params (params_of ps)) (size_then u.no_params)) }
{
    let p = size(alloc)?;
    with_param(ps, p)
}

/// The parameters of the allocation function.
fn params(alloc: Global, callee: Callee) -> Result<held::Params, NoMemory>
    ensures { IfOk result (λ ps. behind_params (bare_params (params_of ps)) (size_then u.no_params) ≡ entry_params (callee_seen callee)) }
{
    match callee {
        Callee::Malloc => with_size(alloc, held::Params::new(alloc)),
        Callee::Calloc => {
            let ps = with_size(alloc, held::Params::new(alloc))?;
            with_size(alloc, ps)
        }
        Callee::Realloc => {
            let p = address(alloc)?;
            let ps = with_param(held::Params::new(alloc), p)?;
            with_size(alloc, ps)
        }
    }
}

/// The entry point's declarator.
fn declarator(alloc: Global, callee: Callee) -> Result<held::Declarator, NoMemory>
    ensures { IfOk result (λ d. bare_declarator (view_declarator d) ≡ entry_declarator (callee_seen callee)) }
{
    let name = Items::from_slice(alloc, callee.entry_point())?;
    let ps = params(alloc, callee)?;
    let ps = with_size(alloc, ps)?;
    let named = held::Declarator::new(Declarator::Declared(added(), Some(name)));
    let function = made::function_of(alloc, added(), named, ps)?;
    let function = function.boxed(alloc)?;
    let pointer = Declarator::PointerTo(added(), Items::new(alloc), function.open());
    Ok(held::Declarator::new(pointer))
}

fn prototype(alloc: Global, callee: Callee) -> Result<External, NoMemory>
    ensures { IfOk result (λ x. bare_external (view_external x) ≡ prototype (callee_seen callee)) }
{
    let specs = void(alloc)?;
    let declarator = declarator(alloc, callee)?;
    let mut items = held::DeclaredItems::new(alloc);
    items.push(Item {
        at: added(),
        declarator: declarator.open(),
        attributes: Items::new(alloc),
        init: None,
    })?;
    Ok(External::Declaration(Declaration {
        at: added(),
        specs: specs.open(),
        items: items.open(),
    }))
}

/// The external declarations with one more.
fn with_external(mut xs: held::Externals, x: External) -> Result<held::Externals, NoMemory>
    ensures { IfOk result (λ ys. ys ≡ xs ++ x ∷ []) }
{
    xs.push(x)?;
    Ok(xs)
}

/// The external declarations, and the entry point's prototype behind them if it is used.
fn with_entry(
    alloc: Global,
    xs: held::Externals,
    is_used: bool,
    callee: Callee,
) -> Result<held::Externals, NoMemory>
    ensures { IfOk result (λ ys. map bare_external (map view_external ys) ≡ map bare_external (map view_external xs) ++ those is_used (prototype (callee_seen callee))) }
{
    if is_used {
        let x = prototype(alloc, callee)?;
        with_external(xs, x)
    } else {
        Ok(xs)
    }
}

/// The prototypes of these entry points.
pub fn prototypes(alloc: Global, used: Each) -> Result<held::Externals, NoMemory>
    ensures { IfOk result (λ xs. map bare_external (map view_external xs) ≡ those used.malloc (prototype Malloc) ++ those used.calloc (prototype Calloc) ++ those used.realloc (prototype Realloc)) }
{
    let xs = with_entry(
        alloc,
        held::Externals::new(alloc),
        used.malloc,
        Callee::Malloc,
    )?;
    let xs = with_entry(alloc, xs, used.calloc, Callee::Calloc)?;
    with_entry(alloc, xs, used.realloc, Callee::Realloc)
}
