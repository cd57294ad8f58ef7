//! Copies declarations, statements and units with their sites tagged.

ghost use Rattle.std.specs.Prelude.{◌≡◌, map, IfOk};
ghost use Rattle.c_tree.specs.View.{view_declaration, view_definition, view_external, view_first, view_init, view_item, view_maybe_expr, view_maybe_init, view_stmt, inits_of, items_of};
ghost use Rattle.c_tree.specs.Bare.{bare_block, bare_declaration, bare_external, bare_first, bare_init, bare_inits, bare_item, bare_maybe, bare_maybe_init, bare_stmt};
ghost use Rattle.call_rewriter.specs.Plans.{hooks_seen};
ghost use Rattle.call_rewriter.specs.Tagger.{HeadsList, Tags, block_tagging, externals_tagging, inits_tagging, items_tagging, put_block_item};
ghost use Rattle.call_rewriter.specs.Tagged as tagged;

use crate::copy::attributes;
use crate::plan::Plan;
use crate::tag::{declarator, expr, specs};
use c_held as held;
use c_tree::{
    Block, BlockItem, Declaration, Definition, Expr, External, ForFirst, Init, Item, Stmt, make,
};
use std::alloc::Global;
use tok_base::{Items, NoMemory};

/// The expression, if there is one.
fn opened(a: Option<held::Expr>) -> Option<Expr>
    ensures { result ≡ a }
{
    match a {
        Some(a) => Some(a.open()),
        None => None,
    }
}

fn maybe(
    alloc: Global,
    plan: Plan,
    k: &mut u32,
    a: &Option<Expr>,
) -> Result<Option<held::Expr>, NoMemory>
    ensures { IfOk result (λ e. Tags plan.max k.old k.new (tagged.tag_maybe plan.max (hooks_seen plan.hooks) (bare_maybe (view_maybe_expr a.now))) (bare_maybe (view_maybe_expr e))) }
{
    match a {
        Some(a) => {
            let a = expr(alloc, plan, k, a)?;
            Ok(Some(a))
        }
        None => Ok(None),
    }
}

#[cycle(inits)]
fn init(alloc: Global, plan: Plan, k: &mut u32, i: &Init) -> Result<Init, NoMemory>
    ensures { IfOk result (λ j. Tags plan.max k.old k.new (tagged.tag_init plan.max (hooks_seen plan.hooks) (bare_init (view_init i.now))) (bare_init (view_init j))) }
{
    match i {
        Init::Expr(a) => {
            let a = expr(alloc, plan, k, a)?;
            Ok(Init::Expr(a.open()))
        }
        Init::Braces(at, is, has_comma) => {
            let is = inits(alloc, plan, k, is)?;
            Ok(make::braces(*at, is.open(), *has_comma))
        }
    }
}

#[cycle(inits)]
fn inits(alloc: Global, plan: Plan, k: &mut u32, xs: &Items<Init>) -> Result<held::Inits, NoMemory>
    ensures { IfOk result (λ ys. Tags plan.max k.old k.new (inits_tagging plan.max (hooks_seen plan.hooks) xs.now) (bare_inits (inits_of ys))) }
{
    let mut ys = held::Inits::new(alloc);
    for x in xs.as_slice() {
        let y = init(alloc, plan, k, x)?;
        ys.push(y)?;
    }
    Ok(ys)
}

fn maybe_init(
    alloc: Global,
    plan: Plan,
    k: &mut u32,
    i: &Option<Init>,
) -> Result<Option<Init>, NoMemory>
    ensures { IfOk result (λ j. Tags plan.max k.old k.new (tagged.tag_maybe_init plan.max (hooks_seen plan.hooks) (bare_maybe_init (view_maybe_init i.now))) (bare_maybe_init (view_maybe_init j))) }
{
    match i {
        Some(i) => {
            let i = init(alloc, plan, k, i)?;
            Ok(Some(i))
        }
        None => Ok(None),
    }
}

fn item(alloc: Global, plan: Plan, k: &mut u32, i: &Item) -> Result<Item, NoMemory>
    ensures { IfOk result (λ j. Tags plan.max k.old k.new (tagged.tag_item plan.max (hooks_seen plan.hooks) (bare_item (view_item i.now))) (bare_item (view_item j))) }
{
    let declarator = declarator(alloc, plan, k, &i.declarator)?;
    let attributes = attributes(alloc, &i.attributes)?;
    let init = maybe_init(alloc, plan, k, &i.init)?;
    Ok(Item {
        at: i.at,
        declarator: declarator.open(),
        attributes: attributes.open(),
        init,
    })
}

fn items(
    alloc: Global,
    plan: Plan,
    k: &mut u32,
    xs: &Items<Item>,
) -> Result<held::DeclaredItems, NoMemory>
    ensures { IfOk result (λ ys. Tags plan.max k.old k.new (items_tagging plan.max (hooks_seen plan.hooks) xs.now) (map bare_item (map view_item ys))) }
{
    let mut ys = held::DeclaredItems::new(alloc);
    for x in xs.as_slice() {
        let y = item(alloc, plan, k, x)?;
        ys.push(y)?;
    }
    Ok(ys)
}

fn declaration(
    alloc: Global,
    plan: Plan,
    k: &mut u32,
    d: &Declaration,
) -> Result<Declaration, NoMemory>
    ensures { IfOk result (λ e. Tags plan.max k.old k.new (tagged.tag_declaration plan.max (hooks_seen plan.hooks) (bare_declaration (view_declaration d.now))) (bare_declaration (view_declaration e))) }
{
    let specs = specs(alloc, plan, k, &d.specs)?;
    let items = items(alloc, plan, k, &d.items)?;
    Ok(Declaration {
        at: d.at,
        specs: specs.open(),
        items: items.open(),
    })
}

fn for_first(
    alloc: Global,
    plan: Plan,
    k: &mut u32,
    i: &ForFirst,
) -> Result<held::ForFirst, NoMemory>
    ensures { IfOk result (λ j. Tags plan.max k.old k.new (tagged.tag_first plan.max (hooks_seen plan.hooks) (bare_first (view_first i.now))) (bare_first (view_first j))) }
{
    match i {
        ForFirst::Declaration(d) => {
            let d = declaration(alloc, plan, k, d)?;
            Ok(held::ForFirst::new(ForFirst::Declaration(d)))
        }
        ForFirst::Expr(a) => {
            let a = maybe(alloc, plan, k, a)?;
            Ok(held::ForFirst::new(ForFirst::Expr(opened(a))))
        }
    }
}

#[cycle(statements)]
fn statement(alloc: Global, plan: Plan, k: &mut u32, s: &Stmt) -> Result<held::Stmt, NoMemory>
    ensures { IfOk result (λ t. Tags plan.max k.old k.new (tagged.tag_stmt plan.max (hooks_seen plan.hooks) (bare_stmt (view_stmt s.now))) (bare_stmt (view_stmt t))) }
{
    match s {
        Stmt::Block(b) => {
            let items = block(alloc, plan, k, &b.items)?;
            Ok(held::Stmt::new(make::block(b.at, items.open())))
        }
        Stmt::Expr(at, a) => {
            let a = maybe(alloc, plan, k, a)?;
            Ok(held::Stmt::new(Stmt::Expr(*at, opened(a))))
        }
        Stmt::If(at, c, s) => {
            let c = expr(alloc, plan, k, c)?;
            let s = inner(alloc, plan, k, s)?;
            Ok(held::Stmt::new(Stmt::If(*at, c.open(), s.open())))
        }
        Stmt::IfElse(at, c, s, t) => {
            let c = expr(alloc, plan, k, c)?;
            let s = inner(alloc, plan, k, s)?;
            let t = inner(alloc, plan, k, t)?;
            Ok(held::Stmt::new(Stmt::IfElse(*at, c.open(), s.open(), t.open())))
        }
        Stmt::While(at, c, s) => {
            let c = expr(alloc, plan, k, c)?;
            let s = inner(alloc, plan, k, s)?;
            Ok(held::Stmt::new(Stmt::While(*at, c.open(), s.open())))
        }
        Stmt::Do(at, s, c) => {
            let s = inner(alloc, plan, k, s)?;
            let c = expr(alloc, plan, k, c)?;
            Ok(held::Stmt::new(Stmt::Do(*at, s.open(), c.open())))
        }
        Stmt::For(at, i, c, e, s) => {
            let i = for_first(alloc, plan, k, i)?;
            let c = maybe(alloc, plan, k, c)?;
            let e = maybe(alloc, plan, k, e)?;
            let s = inner(alloc, plan, k, s)?;
            Ok(held::Stmt::new(Stmt::For(*at, i.open(), opened(c), opened(e), s.open())))
        }
        Stmt::Break(at) => Ok(held::Stmt::new(Stmt::Break(*at))),
        Stmt::Continue(at) => Ok(held::Stmt::new(Stmt::Continue(*at))),
        Stmt::Return(at, a) => {
            let a = maybe(alloc, plan, k, a)?;
            Ok(held::Stmt::new(Stmt::Return(*at, opened(a))))
        }
    }
}

/// A statement in another.
#[cycle(statements)]
fn inner(alloc: Global, plan: Plan, k: &mut u32, s: &Stmt) -> Result<held::StmtBox, NoMemory>
    ensures { IfOk result (λ t. Tags plan.max k.old k.new (tagged.tag_stmt plan.max (hooks_seen plan.hooks) (bare_stmt (view_stmt s.now))) (bare_stmt (view_stmt t.value))) }
{
    let s = statement(alloc, plan, k, s)?;
    Ok(s.boxed(alloc)?)
}

#[cycle(statements)]
fn block(
    alloc: Global,
    plan: Plan,
    k: &mut u32,
    xs: &Items<BlockItem>,
) -> Result<held::BlockItems, NoMemory>
    ensures { IfOk result (λ ys. Tags plan.max k.old k.new (block_tagging plan.max (hooks_seen plan.hooks) xs.now) (bare_block (items_of ys))) }
{
    let mut ys = held::BlockItems::new(alloc);
    for x in xs.as_slice() {
        let y = block_item(alloc, plan, k, x)?;
        ys.push(y)?;
    }
    Ok(ys)
}

#[cycle(statements)]
fn block_item(alloc: Global, plan: Plan, k: &mut u32, i: &BlockItem) -> Result<BlockItem, NoMemory>
    ensures { IfOk result (λ j. HeadsList (block_tagging plan.max (hooks_seen plan.hooks)) put_block_item plan.max k.old k.new i.now j) }
{
    match i {
        BlockItem::Declaration(d) => {
            let d = declaration(alloc, plan, k, d)?;
            Ok(BlockItem::Declaration(d))
        }
        BlockItem::Stmt(s) => {
            let s = statement(alloc, plan, k, s)?;
            Ok(BlockItem::Stmt(s.open()))
        }
    }
}

fn definition(
    alloc: Global,
    plan: Plan,
    k: &mut u32,
    d: &Definition,
) -> Result<Definition, NoMemory>
    ensures { IfOk result (λ e. Tags plan.max k.old k.new (tagged.tag_external plan.max (hooks_seen plan.hooks) (bare_external (view_definition d.now))) (bare_external (view_definition e))) }
{
    let specs = specs(alloc, plan, k, &d.specs)?;
    let declarator = declarator(alloc, plan, k, &d.declarator)?;
    let items = block(alloc, plan, k, &d.body.items)?;
    Ok(Definition {
        at: d.at,
        specs: specs.open(),
        declarator: declarator.open(),
        body: Block {
            at: d.body.at,
            items: items.open(),
        },
    })
}

fn external(alloc: Global, plan: Plan, k: &mut u32, x: &External) -> Result<External, NoMemory>
    ensures { IfOk result (λ y. Tags plan.max k.old k.new (tagged.tag_external plan.max (hooks_seen plan.hooks) (bare_external (view_external x.now))) (bare_external (view_external y))) }
{
    match x {
        External::Declaration(d) => {
            let d = declaration(alloc, plan, k, d)?;
            Ok(External::Declaration(d))
        }
        External::Definition(d) => {
            let d = definition(alloc, plan, k, d)?;
            Ok(External::Definition(d))
        }
    }
}

/// The external declarations, with their sites tagged.
pub fn externals(
    alloc: Global,
    plan: Plan,
    k: &mut u32,
    xs: &Items<External>,
) -> Result<held::Externals, NoMemory>
    ensures { IfOk result (λ ys. Tags plan.max k.old k.new (externals_tagging plan.max (hooks_seen plan.hooks) xs.now) (map bare_external (map view_external ys))) }
{
    let mut ys = held::Externals::new(alloc);
    for x in xs.as_slice() {
        let y = external(alloc, plan, k, x)?;
        ys.push(y)?;
    }
    Ok(ys)
}
