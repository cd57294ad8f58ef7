//! The walk over a unit for its sites.

ghost use Rattle.std.specs.Prelude.{◌≡◌, ◌∷◌, map, All, IfOk, OnOk, option_copied};
ghost use Rattle.c_tree.specs.View.{view, view_block_item, view_declaration, view_declarator, view_definition, view_external, view_first, view_init, view_item, view_maybe_expr, view_maybe_init, view_stmt, view_unit, exprs_of, inits_of, items_of};
ghost use Rattle.c_tree.specs.Marked as tree;
ghost use Rattle.c_rules.specs.Unit as rules;
ghost use Rattle.c_rules.specs.World.{is_listed};
ghost use Rattle.c_checked.specs.Found.{known_of};
ghost use Rattle.c_checked.specs.Told as told;
ghost use Rattle.alloc_infer.specs.Adds.{AddsSites, KeepsSites, SiteIsIn, site_of, in_item};
ghost use Rattle.alloc_infer.specs.Sites as spec;
ghost use Rattle.alloc_infer.specs.Walked as walked;

use crate::around::Around;
use crate::inferred::inferred;
use crate::site::{Callee, Site};
use crate::untagged::untagged;
use body_rules::{at_of_expr, declared_name};
use c_checked::Checked;
use c_rules::Binding;
use c_tree::{
    At, BlockItem, Declaration, Declarator, Definition, Expr, External, ForFirst, Init, Item, Stmt,
};
use c_world::NameSet;
use std::alloc::Global;
use tok_base::{Items, NoMemory, Span};

fn callee_numbered(number: u32) -> Option<Callee>
    ensures { result ≡ spec.callee_numbered number }
{
    match number {
        0 => Some(Callee::Malloc),
        1 => Some(Callee::Calloc),
        2 => Some(Callee::Realloc),
        _ => None,
    }
}

fn callee_bound(binding: Option<Binding>) -> Option<Callee>
    ensures { result ≡ spec.callee_bound binding }
{
    match binding {
        Some(Binding::Library(number)) => callee_numbered(number),
        Some(Binding::Function(_)) => None,
        Some(Binding::Object(_)) => None,
        Some(Binding::Enumerator(_)) => None,
        None => None,
    }
}

/// The allocation function that an expression names, perhaps in parentheses.
fn callee_of(c: &Checked, f: &Expr) -> Option<Callee>
    ensures { result ≡ spec.callee_of (known_of c.now.notes) (view f.now) }
{
    match f {
        Expr::Name(at, _) => callee_bound(c.noted_binding(at.id)),
        Expr::Paren(_, f) => callee_of(c, f),
        _ => None,
    }
}

fn name_span(f: &Expr) -> Span
    ensures { result ≡ spec.name_span (view f.now) }
{
    match f {
        Expr::Name(at, _) => at.span,
        Expr::Paren(_, f) => name_span(f),
        _ => Span { start: 0, end: 0 },
    }
}

fn last_byte(span: Span) -> Span
    ensures { result ≡ spec.last_byte span }
{
    Span {
        start: span.end.saturating_sub(1),
        end: span.end,
    }
}

fn site_at(c: &Checked, around: Around, at: At, f: &Expr, es: &Items<Expr>, callee: Callee) -> Site
    ensures is { site_of c.now.notes.table.terms result ≡ spec.site_at (known_of c.now.notes) around at (view f.now) (exprs_of es.now) callee }
    ensures valid { SiteIsIn c.now.notes.table.terms result }
{
    Site {
        node: at.id,
        name: name_span(f),
        close: last_byte(at.span),
        callee,
        inferred: inferred(c, around, es),
    }
}

fn put(_c: &Checked, site: Site, found: &mut Items<Site>) -> Result<(), NoMemory>
    requires { SiteIsIn _c.now.notes.table.terms site }
    ensures adds { OnOk result (AddsSites _c.now.notes found.old found.new (λ more. site_of _c.now.notes.table.terms site ∷ more)) }
    ensures valid { OnOk result (KeepsSites _c.now.notes found.old found.new) }
{
    found.push(site)?;
    Ok(())
}

fn put_call(
    c: &Checked,
    around: Around,
    at: At,
    f: &Expr,
    es: &Items<Expr>,
    found: &mut Items<Site>,
) -> Result<(), NoMemory>
    ensures adds { OnOk result (AddsSites c.now.notes found.old found.new (spec.with_call (known_of c.now.notes) around at (view f.now) (exprs_of es.now) (spec.callee_of (known_of c.now.notes) (view f.now)))) }
    ensures valid { OnOk result (KeepsSites c.now.notes found.old found.new) }
{
    match callee_of(c, f) {
        Some(callee) => put(c, site_at(c, around, at, f, es, callee), found),
        None => Ok(()),
    }
}

fn converted(e: &Expr) -> Around
    ensures { result ≡ walked.converted (view e.now) }
{
    Around::Converted(at_of_expr(e).id)
}

#[cycle(sites)]
fn expr(c: &Checked, around: Around, e: &Expr, found: &mut Items<Site>) -> Result<(), NoMemory>
    ensures adds { OnOk result (AddsSites c.now.notes found.old found.new (spec.sites (known_of c.now.notes) around (view e.now))) }
    ensures valid { OnOk result (KeepsSites c.now.notes found.old found.new) }
{
    match e {
        Expr::Comma(_, a, b) => {
            expr(c, Around::Nothing, a, found)?;
            expr(c, Around::Nothing, b, found)
        }
        Expr::Assign(_, a, _, b) => {
            expr(c, Around::Nothing, a, found)?;
            expr(c, converted(b), b, found)
        }
        Expr::Cond(_, z, a, b) => {
            expr(c, Around::Nothing, z, found)?;
            expr(c, Around::Nothing, a, found)?;
            expr(c, Around::Nothing, b, found)
        }
        Expr::Binary(_, a, _, b) => {
            expr(c, Around::Nothing, a, found)?;
            expr(c, Around::Nothing, b, found)
        }
        Expr::Cast(at, _, a) => expr(c, Around::Cast(at.id), a, found),
        Expr::Prefix(_, _, a) => expr(c, Around::Nothing, a, found),
        Expr::SizeofExpr(_, _) => Ok(()),
        Expr::SizeofType(_, _) => Ok(()),
        Expr::Index(_, a, b) => {
            expr(c, Around::Nothing, a, found)?;
            expr(c, Around::Nothing, b, found)
        }
        Expr::Call(at, f, es) => {
            put_call(c, around, *at, f, es, found)?;
            expr(c, Around::Nothing, f, found)?;
            exprs(c, es, found)
        }
        Expr::Dot(_, a, _) => expr(c, Around::Nothing, a, found),
        Expr::Arrow(_, a, _) => expr(c, Around::Nothing, a, found),
        Expr::Post(_, a, _) => expr(c, Around::Nothing, a, found),
        Expr::Name(_, _) => Ok(()),
        Expr::Number(_, _) => Ok(()),
        Expr::Char(_, _) => Ok(()),
        Expr::Text(_, _) => Ok(()),
        Expr::Paren(_, a) => expr(c, around, a, found),
        Expr::Builtin(_, _) => Ok(()),
    }
}

#[cycle(sites)]
fn exprs(c: &Checked, es: &Items<Expr>, found: &mut Items<Site>) -> Result<(), NoMemory>
    ensures adds { OnOk result (AddsSites c.now.notes found.old found.new (spec.sites_all (known_of c.now.notes) (exprs_of es.now))) }
    ensures valid { OnOk result (KeepsSites c.now.notes found.old found.new) }
{
    for e in es.as_slice() {
        expr(c, converted(e), e, found)?;
    }
    Ok(())
}

fn maybe(c: &Checked, e: &Option<Expr>, found: &mut Items<Site>) -> Result<(), NoMemory>
    ensures adds { OnOk result (AddsSites c.now.notes found.old found.new (walked.in_maybe (spec.sites (known_of c.now.notes)) (view_maybe_expr e.now))) }
    ensures valid { OnOk result (KeepsSites c.now.notes found.old found.new) }
{
    match e {
        Some(e) => expr(c, Around::Nothing, e, found),
        None => Ok(()),
    }
}

/// The operand of `return`.
fn returned(c: &Checked, e: &Option<Expr>, found: &mut Items<Site>) -> Result<(), NoMemory>
    ensures adds { OnOk result (AddsSites c.now.notes found.old found.new (walked.in_result (spec.sites (known_of c.now.notes)) (view_maybe_expr e.now))) }
    ensures valid { OnOk result (KeepsSites c.now.notes found.old found.new) }
{
    match e {
        Some(e) => expr(c, converted(e), e, found),
        None => Ok(()),
    }
}

#[cycle(inits)]
fn init(c: &Checked, g: &Init, found: &mut Items<Site>) -> Result<(), NoMemory>
    ensures adds { OnOk result (AddsSites c.now.notes found.old found.new (walked.in_init (spec.sites (known_of c.now.notes)) (view_init g.now))) }
    ensures valid { OnOk result (KeepsSites c.now.notes found.old found.new) }
{
    match g {
        Init::Expr(e) => expr(c, converted(e), e, found),
        Init::Braces(_, gs, _) => inits(c, gs, found),
    }
}

#[cycle(inits)]
fn inits(c: &Checked, gs: &Items<Init>, found: &mut Items<Site>) -> Result<(), NoMemory>
    ensures adds { OnOk result (AddsSites c.now.notes found.old found.new (walked.in_inits (spec.sites (known_of c.now.notes)) (inits_of gs.now))) }
    ensures valid { OnOk result (KeepsSites c.now.notes found.old found.new) }
{
    for g in gs.as_slice() {
        init(c, g, found)?;
    }
    Ok(())
}

fn maybe_init(c: &Checked, g: &Option<Init>, found: &mut Items<Site>) -> Result<(), NoMemory>
    ensures adds { OnOk result (AddsSites c.now.notes found.old found.new (walked.in_maybe_init (spec.sites (known_of c.now.notes)) (view_maybe_init g.now))) }
    ensures valid { OnOk result (KeepsSites c.now.notes found.old found.new) }
{
    match g {
        Some(g) => init(c, g, found),
        None => Ok(()),
    }
}

fn items(c: &Checked, items: &Items<Item>, found: &mut Items<Site>) -> Result<(), NoMemory>
    ensures adds { OnOk result (AddsSites c.now.notes found.old found.new (walked.in_items (spec.sites (known_of c.now.notes)) (map view_item items.now))) }
    ensures valid { OnOk result (KeepsSites c.now.notes found.old found.new) }
{
    for item in items.as_slice() {
        maybe_init(c, &item.init, found)?;
    }
    Ok(())
}

fn declaration(c: &Checked, d: &Declaration, found: &mut Items<Site>) -> Result<(), NoMemory>
    ensures adds { OnOk result (AddsSites c.now.notes found.old found.new (walked.in_declaration (spec.sites (known_of c.now.notes)) (view_declaration d.now))) }
    ensures valid { OnOk result (KeepsSites c.now.notes found.old found.new) }
{
    items(c, &d.items, found)
}

fn for_first(c: &Checked, f: &ForFirst, found: &mut Items<Site>) -> Result<(), NoMemory>
    ensures adds { OnOk result (AddsSites c.now.notes found.old found.new (walked.in_first (spec.sites (known_of c.now.notes)) (view_first f.now))) }
    ensures valid { OnOk result (KeepsSites c.now.notes found.old found.new) }
{
    match f {
        ForFirst::Declaration(d) => declaration(c, d, found),
        ForFirst::Expr(e) => maybe(c, e, found),
    }
}

/// What stands between the parentheses of a `for`.
fn clauses(
    c: &Checked,
    f: &ForFirst,
    test: &Option<Expr>,
    step: &Option<Expr>,
    found: &mut Items<Site>,
) -> Result<(), NoMemory>
    ensures adds { OnOk result (AddsSites c.now.notes found.old found.new (λ more. walked.in_first (spec.sites (known_of c.now.notes)) (view_first f.now) (walked.in_maybe (spec.sites (known_of c.now.notes)) (view_maybe_expr test.now) (walked.in_maybe (spec.sites (known_of c.now.notes)) (view_maybe_expr step.now) more)))) }
    ensures valid { OnOk result (KeepsSites c.now.notes found.old found.new) }
{
    for_first(c, f, found)?;
    maybe(c, test, found)?;
    maybe(c, step, found)
}

#[cycle(statements)]
fn statement(c: &Checked, s: &Stmt, found: &mut Items<Site>) -> Result<(), NoMemory>
    ensures adds { OnOk result (AddsSites c.now.notes found.old found.new (walked.in_stmt (spec.sites (known_of c.now.notes)) (view_stmt s.now))) }
    ensures valid { OnOk result (KeepsSites c.now.notes found.old found.new) }
{
    match s {
        Stmt::Block(b) => block(c, &b.items, found),
        Stmt::Expr(_, e) => maybe(c, e, found),
        Stmt::If(_, z, s) => {
            expr(c, Around::Nothing, z, found)?;
            statement(c, s, found)
        }
        Stmt::IfElse(_, z, s, r) => {
            expr(c, Around::Nothing, z, found)?;
            statement(c, s, found)?;
            statement(c, r, found)
        }
        Stmt::While(_, z, s) => {
            expr(c, Around::Nothing, z, found)?;
            statement(c, s, found)
        }
        Stmt::Do(_, s, z) => {
            statement(c, s, found)?;
            expr(c, Around::Nothing, z, found)
        }
        Stmt::For(_, f, test, step, s) => {
            clauses(c, f, test, step, found)?;
            statement(c, s, found)
        }
        Stmt::Break(_) => Ok(()),
        Stmt::Continue(_) => Ok(()),
        Stmt::Return(_, e) => returned(c, e, found),
    }
}

#[cycle(statements)]
fn block(c: &Checked, items: &Items<BlockItem>, found: &mut Items<Site>) -> Result<(), NoMemory>
    ensures adds { OnOk result (AddsSites c.now.notes found.old found.new (walked.in_block (spec.sites (known_of c.now.notes)) (items_of items.now))) }
    ensures valid { OnOk result (KeepsSites c.now.notes found.old found.new) }
{
    for item in items.as_slice() {
        block_item(c, item, found)?;
    }
    Ok(())
}

#[cycle(statements)]
fn block_item(c: &Checked, item: &BlockItem, found: &mut Items<Site>) -> Result<(), NoMemory>
    ensures adds { OnOk result (AddsSites c.now.notes found.old found.new (in_item (spec.sites (known_of c.now.notes)) item.now)) }
    ensures valid { OnOk result (KeepsSites c.now.notes found.old found.new) }
{
    match item {
        BlockItem::Declaration(d) => declaration(c, d, found),
        BlockItem::Stmt(s) => statement(c, s, found),
    }
}

fn is_name_listed(declarator: &Declarator, names: &NameSet) -> bool
    ensures { result ≡ is_listed (rules.name_of (view_declarator declarator.now)) names.now }
{
    match declared_name(declarator) {
        Some(name) => names.contains(name),
        None => names.contains(b""),
    }
}

fn definition(
    c: &Checked,
    names: &NameSet,
    d: &Definition,
    found: &mut Items<Site>,
) -> Result<(), NoMemory>
    ensures adds { OnOk result (AddsSites c.now.notes found.old found.new (spec.sites_in (known_of c.now.notes) names.now (view_definition d.now))) }
    ensures valid { OnOk result (KeepsSites c.now.notes found.old found.new) }
{
    if is_name_listed(&d.declarator, names) {
        Ok(())
    } else {
        block(c, &d.body.items, found)
    }
}

fn external(
    c: &Checked,
    names: &NameSet,
    x: &External,
    found: &mut Items<Site>,
) -> Result<(), NoMemory>
    ensures adds { OnOk result (AddsSites c.now.notes found.old found.new (spec.sites_in (known_of c.now.notes) names.now (view_external x.now))) }
    ensures valid { OnOk result (KeepsSites c.now.notes found.old found.new) }
{
    match x {
        External::Declaration(d) => declaration(c, d, found),
        External::Definition(d) => definition(c, names, d, found),
    }
}

fn externals(
    c: &Checked,
    names: &NameSet,
    xs: &Items<External>,
    found: &mut Items<Site>,
) -> Result<(), NoMemory>
    ensures adds { OnOk result (AddsSites c.now.notes found.old found.new (spec.sites_among (known_of c.now.notes) names.now (map view_external xs.now))) }
    ensures valid { OnOk result (KeepsSites c.now.notes found.old found.new) }
{
    for x in xs.as_slice() {
        external(c, names, x, found)?;
    }
    Ok(())
}

/// The calls that take a token, in the order of the called names.
pub fn sites(alloc: Global, c: &Checked) -> Result<Items<Site>, NoMemory>
    ensures are { IfOk result (λ found. map (site_of c.now.notes.table.terms) found ≡ spec.sites_of (known_of c.now.notes) (view_unit c.now.unit)) }
    ensures valid { IfOk result (λ found. All (SiteIsIn c.now.notes.table.terms) found) }
{
    let names = untagged(alloc, c.unit())?;
    let mut found = Items::new(alloc);
    externals(c, &names, &c.unit().items, &mut found)?;
    Ok(found)
}
