//! The end of an item, of a declaration and of an initialiser.

ghost use Rattle.std.specs.Prelude.{◌≡◌, suc, [], if◌then◌else◌, None, IfOk, IfErr, map};
ghost use Rattle.c_tree.specs.Wf.{Env};
ghost use Rattle.c_tree.specs.Marked as marked;
ghost use Rattle.c_reader.specs.Begin as begin;
ghost use Rattle.c_reader.specs.Declarations as machine;
ghost use Rattle.c_reader.specs.MarkedDeclarations as reader;
ghost use Rattle.c_reader.specs.MarkedInside as inside;
ghost use Rattle.c_reader.specs.MarkedParts as parts;
ghost use Rattle.c_stack.specs.Gives.{Gives};
ghost use Rattle.c_symbol.specs.Seen.{view_operator, view_symbol};
ghost use Rattle.c_symbol.specs.Shown.{shown_block_item, shown_declaration, shown_declarator, shown_external, shown_init, shown_maybe_init, shown_specs};
ghost use Rattle.c_stack.specs.Views.{view_body_place, view_declaration_place, view_in_items, view_init_place, view_item_read};
ghost use Rattle.c_symbol.specs.Nodes.{view_had, view_open};
ghost use Rattle.c_symbol.specs.declared.step.StepEnd.TheVariants.{NoMemory};

use c_held::{Attributes, BlockItems, Declarator, Externals, Init, Inits, Specs};
use c_parts::statement::{
    braces, declaration, declared_item, declares, first_declaration, item, no_init, some_init,
    with_block_item, with_external, with_init, with_item,
};
use c_stack::inside::{
    AttributeMode, DeclaratorMode, InAttribute, InItems, ItemHead, ItemRead, ItemsRead, Mode, Next,
    StmtMode,
};
use c_stack::place::{
    BodyFrame, BodyPlace, DeclarationFrame, DeclarationPlace, DeclaratorFrame, DeclaratorPlace,
    InitFrame, InitPlace, StmtFrame, StmtPlace,
};
use c_symbol::declarator::{is_function, name_made};
use c_symbol::node::{Had, Open, mark};
use c_symbol::step::{StepEnd, following};
use c_symbol::symbol::{Operator, Symbol, is_equals};
use c_tree::Declaration;
use std::alloc::Global;
use tok_base::Span;

// ---- parts

/// The declaration with one more item, which ends with the last token; `deep` is the depth of its
/// initialiser.
fn add_item(
    id: u32,
    end: u32,
    deep: u32,
    r: ItemRead,
    init: Option<Init>,
) -> Result<InItems, StepEnd>
    ensures ok { IfOk result (λ q. view_in_items q ≡ reader.add_item id end deep (view_item_read r) (shown_maybe_init init)) }
    ensures err { IfErr result (λ e. e ≡ NoMemory) }
{
    let ItemRead { head, place } = r;
    let whole = head.node.whole(deep)?;
    let ItemHead {
        node: item_node,
        before,
        declarator,
        attributes,
    } = head;
    let ItemsRead {
        node,
        specs,
        typedef,
        items,
    } = before;
    let one = item(mark(item_node.from, end, id), declarator, attributes, init);
    let items = with_item(items, one)?;
    let read = ItemsRead {
        node: node.with_part(whole),
        specs,
        typedef,
        items,
    };
    Ok(InItems { read, place })
}

// ---- the end of a declaration

/// The end of a declaration among external ones.
fn external_done(
    deep: u32,
    id: u32,
    before: u32,
    done: Externals,
    x: Declaration,
) -> Result<Next, StepEnd>
    ensures step { (env : Env) → Gives env result (reader.declaration_done id env deep (inside.of_external before (map shown_external done)) (shown_declaration x)) }
    ensures unnamed { IfOk result (λ n. n.name ≡ None) }
{
    let done = with_external(done, declares(x))?;
    Ok(Next {
        id,
        name: None,
        mode: Mode::WantExternal(before.max(deep), done),
    })
}

/// The end of a declaration in a block.
fn block_item_done(
    alloc: Global,
    id: u32,
    deep: u32,
    o: Open,
    items: BlockItems,
    body: BodyPlace,
    x: Declaration,
) -> Result<Next, StepEnd>
    ensures step { (env : Env) → Gives env result (reader.declaration_done id env deep (inside.of_block (view_open o) (map shown_block_item items) (view_body_place body)) (shown_declaration x)) }
    ensures unnamed { IfOk result (λ n. n.name ≡ None) }
{
    let items = with_block_item(items, declared_item(x))?;
    let place = StmtPlace::new(alloc, StmtFrame::Block(o.with_part(deep), items, body))?;
    Ok(Next::at_stmt(id, StmtMode::WantStmt(place)))
}

/// The end of a declaration of this depth.
fn declaration_done(
    alloc: Global,
    id: u32,
    deep: u32,
    q: DeclarationPlace,
    x: Declaration,
) -> Result<Next, StepEnd>
    ensures step { (env : Env) → Gives env result (reader.declaration_done id env deep (view_declaration_place q) (shown_declaration x)) }
    ensures unnamed { IfOk result (λ n. n.name ≡ None) }
{
    match q.open() {
        DeclarationFrame::External(before, done) => external_done(deep, id, before, done, x),
        DeclarationFrame::Block(o, items, body) => {
            block_item_done(alloc, id, deep, o, items, body, x)
        }
        DeclarationFrame::For(o, k) => {
            let first = first_declaration(x);
            Ok(Next::at_stmt(id, StmtMode::WantCondition(o.with_part(deep), first, k)))
        }
    }
}

/// The semicolon of a declaration.
pub fn items_done(alloc: Global, id: u32, q: InItems, span: Span) -> Result<Next, StepEnd>
    ensures step { (env : Env) → Gives env result (reader.items_done id env (view_in_items q) span) }
    ensures unnamed { IfOk result (λ n. n.name ≡ None) }
{
    let InItems { read, place } = q;
    let next = following(id)?;
    let deep = read.node.whole(0)?;
    let ItemsRead {
        node,
        specs,
        typedef: _,
        items,
    } = read;
    let whole = declaration(mark(node.from, span.end, id), specs, items);
    declaration_done(alloc, next, deep, place, whole)
}

// ---- items

/// The token behind an item.
fn item_end(alloc: Global, id: u32, q: InItems, y: Symbol, span: Span) -> Result<Next, StepEnd>
    ensures step { (env : Env) → Gives env result (reader.item_end id env (view_in_items q) (view_symbol y.entry) span) }
    ensures unnamed { IfOk result (λ n. n.name ≡ None) }
{
    match y {
        Symbol::Comma => {
            let place = DeclaratorPlace::new(alloc, DeclaratorFrame::Item(q.read, q.place))?;
            Ok(Next::at_declarator(id, DeclaratorMode::WantDeclarator(place)))
        }
        Symbol::Semicolon => items_done(alloc, id, q, span),
        _ => Err(StepEnd::Wrong),
    }
}

/// The operator behind an item's declarator, which must be `=`.
fn item_init(alloc: Global, id: u32, r: ItemRead, operator: Operator) -> Result<Next, StepEnd>
    ensures step { (env : Env) → Gives env result (if machine.is_equals (view_operator operator) then inside.go_on id env (inside.want_init (inside.of_item (view_item_read r))) else None) }
    ensures unnamed { IfOk result (λ n. n.name ≡ None) }
{
    if is_equals(operator) {
        let place = InitPlace::new(alloc, InitFrame::Item(r.head, r.place))?;
        Ok(Next {
            id,
            name: None,
            mode: Mode::WantInit(place),
        })
    } else {
        Err(StepEnd::Wrong)
    }
}

/// An item without an initialiser ends before this token.
fn plain_item(
    alloc: Global,
    id: u32,
    end: u32,
    r: ItemRead,
    y: Symbol,
    span: Span,
) -> Result<Next, StepEnd>
    ensures step { (env : Env) → Gives env result (reader.item_end (suc id) env (reader.add_item id end 0 (view_item_read r) marked.no_init) (view_symbol y.entry) span) }
    ensures unnamed { IfOk result (λ n. n.name ≡ None) }
{
    let next = following(id)?;
    let q = add_item(id, end, 0, r, no_init())?;
    item_end(alloc, next, q, y, span)
}

/// The token behind an item's declarator and attributes.
pub fn item_next(
    alloc: Global,
    id: u32,
    end: u32,
    r: ItemRead,
    y: Symbol,
    span: Span,
) -> Result<Next, StepEnd>
    ensures step { (env : Env) → Gives env result (reader.item_next id end env (view_item_read r) (view_symbol y.entry) span) }
    ensures unnamed { IfOk result (λ n. n.name ≡ None) }
{
    match y {
        Symbol::Attribute => {
            let o = Open::at(r.head.node.level, span.start)?;
            Ok(Next {
                id,
                name: None,
                mode: Mode::Attribute(o, AttributeMode::Word, InAttribute::Read(r)),
            })
        }
        Symbol::Operator(operator) => item_init(alloc, id, r, operator),
        _ => plain_item(alloc, id, end, r, y, span),
    }
}

/// The body of a function opens.
fn body_begin(
    alloc: Global,
    id: u32,
    o: Open,
    before: u32,
    done: Externals,
    specs: Specs,
    d: Declarator,
    span: Span,
) -> Result<Next, StepEnd>
    ensures step { (env : Env) → Gives env result (reader.open_body id env (view_open o) (inside.of_external before (map shown_external done)) (shown_specs specs) (shown_declarator d) span) }
    ensures unnamed { IfOk result (λ n. n.name ≡ None) }
{
    if is_function(d.get()) {
        let block = Open::at(o.level, span.start)?;
        let body = BodyPlace::new(alloc, BodyFrame::Definition(before, o, done, specs, d))?;
        let place = StmtPlace::new(alloc, StmtFrame::Block(block, BlockItems::new(alloc), body))?;
        Ok(Next::at_stmt(id, StmtMode::WantStmt(place)))
    } else {
        Err(StepEnd::Wrong)
    }
}

/// The left brace behind the first declarator, which must declare a function.
fn open_body(
    alloc: Global,
    id: u32,
    o: Open,
    q: DeclarationPlace,
    specs: Specs,
    d: Declarator,
    span: Span,
) -> Result<Next, StepEnd>
    ensures step { (env : Env) → Gives env result (reader.open_body id env (view_open o) (view_declaration_place q) (shown_specs specs) (shown_declarator d) span) }
    ensures unnamed { IfOk result (λ n. n.name ≡ None) }
{
    match q.open() {
        DeclarationFrame::External(before, done) => {
            body_begin(alloc, id, o, before, done, specs, d, span)
        }
        DeclarationFrame::Block(..) => Err(StepEnd::Wrong),
        DeclarationFrame::For(..) => Err(StepEnd::Wrong),
    }
}

/// The left brace behind a declarator.
fn item_body(
    alloc: Global,
    id: u32,
    had: Had,
    q: InItems,
    d: Declarator,
    span: Span,
) -> Result<Next, StepEnd>
    ensures step { (env : Env) → Gives env result (if begin.is_empty (view_in_items q).items then reader.open_body id env (parts.with_part (view_in_items q).node had.deep) (view_declaration_place q.place) (view_in_items q).specs (shown_declarator d) span else None) }
    ensures unnamed { IfOk result (λ n. n.name ≡ None) }
{
    let InItems { read, place } = q;
    if read.items.is_empty() {
        let ItemsRead {
            node,
            specs,
            typedef: _,
            items: _,
        } = read;
        open_body(alloc, id, node.with_part(had.deep), place, specs, d, span)
    } else {
        Err(StepEnd::Wrong)
    }
}

/// The declarator is an item's.
fn item_begin(
    alloc: Global,
    id: u32,
    end: u32,
    had: Had,
    q: InItems,
    d: Declarator,
    y: Symbol,
    span: Span,
) -> Result<Next, StepEnd>
    ensures step { (env : Env) → Gives env result (reader.item_next id end env (record { node = parts.takes (view_in_items q).node.level (view_had had); before = view_in_items q; declarator = shown_declarator d; attributes = [] }) (view_symbol y.entry) span) }
    ensures unnamed { IfOk result (λ n. n.name ≡ None) }
{
    let InItems { read, place } = q;
    let node = Open::taking(read.node.level, had)?;
    let head = ItemHead {
        node,
        before: read,
        declarator: d,
        attributes: Attributes::new(alloc),
    };
    let r = ItemRead { head, place };
    item_next(alloc, id, end, r, y, span)
}

fn item_declarator_next(
    alloc: Global,
    id: u32,
    end: u32,
    had: Had,
    q: InItems,
    d: Declarator,
    y: Symbol,
    span: Span,
) -> Result<Next, StepEnd>
    ensures step { (env : Env) → Gives env result (reader.item_declarator_next id end env (view_had had) (view_in_items q) (shown_declarator d) (view_symbol y.entry) span) }
    ensures unnamed { IfOk result (λ n. n.name ≡ None) }
{
    match y {
        Symbol::LeftBrace => item_body(alloc, id, had, q, d, span),
        _ => item_begin(alloc, id, end, had, q, d, y, span),
    }
}

/// The token behind an item's declarator: from there on its name may be a typedef name.
#[tactic(auto, using(crate::proofs::Named::named, crate::proofs::Named::unnamed))]
pub fn close_item(
    alloc: Global,
    id: u32,
    end: u32,
    had: Had,
    q: InItems,
    d: Declarator,
    y: Symbol,
    span: Span,
) -> Result<Next, StepEnd>
    ensures { (env : Env) → Gives env result (reader.close_item id end env (view_had had) (view_in_items q) (shown_declarator d) (view_symbol y.entry) span) }
{
    let name = name_made(alloc, q.read.typedef, d.get())?;
    let next = item_declarator_next(alloc, id, end, had, q, d, y, span)?;
    Ok(Next {
        id: next.id,
        name,
        mode: next.mode,
    })
}

// ---- initialisers

/// The token behind an initialiser in braces.
fn braces_next(
    alloc: Global,
    id: u32,
    o: Open,
    list: Inits,
    k: InitPlace,
    y: Symbol,
    span: Span,
) -> Result<Next, StepEnd>
    ensures { (env : Env) → Gives env result (reader.braces_next id env (view_open o) (map shown_init list) (view_init_place k) (view_symbol y.entry) span) }
{
    match y {
        Symbol::Comma => {
            let place = InitPlace::new(alloc, InitFrame::Braces(o, list, k))?;
            Ok(Next {
                id,
                name: None,
                mode: Mode::WantInit(place),
            })
        }
        Symbol::RightBrace => {
            let next = following(id)?;
            let deep = o.whole(0)?;
            let whole = braces(mark(o.from, span.end, id), list, false);
            Ok(Next {
                id: next,
                name: None,
                mode: Mode::AfterInit(deep, k, whole),
            })
        }
        _ => Err(StepEnd::Wrong),
    }
}

/// The token behind an initialiser of this depth.
pub fn init_next(
    alloc: Global,
    id: u32,
    end: u32,
    deep: u32,
    k: InitPlace,
    init: Init,
    y: Symbol,
    span: Span,
) -> Result<Next, StepEnd>
    ensures { (env : Env) → Gives env result (reader.init_next id end env deep (view_init_place k) (shown_init init) (view_symbol y.entry) span) }
{
    match k.open() {
        InitFrame::Item(head, place) => {
            let next = following(id)?;
            let q = add_item(id, end, deep, ItemRead { head, place }, some_init(init))?;
            item_end(alloc, next, q, y, span)
        }
        InitFrame::Braces(o, list, k) => {
            let list = with_init(list, init)?;
            braces_next(alloc, id, o.with_part(deep), list, k, y, span)
        }
    }
}
