//! Declarations and statements, each with what it is seen as.

ghost use Rattle.std.specs.Prelude.{◌≡◌, [], ◌∷◌, ◌++◌, IfOk, map};
ghost use Rattle.c_reader.specs.MarkedParts as reader;
ghost use Rattle.c_tree.specs.Marked as marked;
ghost use Rattle.c_symbol.specs.Shown.{shown, shown_attribute, shown_block_item, shown_declaration, shown_declarator, shown_external, shown_first, shown_init, shown_item, shown_maybe, shown_maybe_init, shown_specs, shown_stmt};

use crate::raw;
use c_held::{
    Attributes, BlockItems, Declarator, DeclaredItems, Expr, Externals, ForFirst, Init, Inits,
    Specs, Stmt,
};
use c_tree::{At, BlockItem, Declaration, External, Item};
use std::alloc::{AllocError, Global};

// ---- initialisers and declarations

/// An expression as an initialiser.
#[tactic(auto, unfolding(c_symbol::specs::Shown::shown_init, c_symbol::specs::Shown::shown))]
pub fn plain_init(a: Expr) -> Init
    ensures { shown_init result ≡ marked.Plain (shown a) }
{
    Init::new(c_tree::Init::Expr(a.open()))
}

/// `{ list }`, with a comma behind the list where it has one
pub fn braces(at: At, list: Inits, has_comma: bool) -> Init
    ensures { shown_init result ≡ marked.Braces at (reader.inits_of (map shown_init list)) has_comma }
{
    Init::new(raw::braces(at, list.open(), has_comma))
}

/// The initialisers with one more.
pub fn with_init(list: Inits, i: Init) -> Result<Inits, AllocError>
    ensures { IfOk result (λ is. map shown_init is ≡ map shown_init list ++ shown_init i ∷ []) }
{
    list.with(i.open())
}

/// The initialiser of an item that has none.
#[tactic(auto, unfolding(c_symbol::specs::Shown::shown_maybe_init))]
pub fn no_init() -> Option<Init>
    ensures { shown_maybe_init result ≡ marked.no_init }
{
    None
}

/// The initialiser of an item.
#[tactic(auto, unfolding(c_symbol::specs::Shown::shown_maybe_init, c_symbol::specs::Shown::shown_init))]
pub fn some_init(i: Init) -> Option<Init>
    ensures { shown_maybe_init result ≡ marked.some_init (shown_init i) }
{
    Some(i)
}

/// An item of a declaration.
#[tactic(auto, unfolding(c_symbol::specs::Shown::shown_item, c_symbol::specs::Shown::shown_declarator, c_symbol::specs::Shown::shown_attribute, c_symbol::specs::Shown::shown_maybe_init))]
pub fn item(at: At, declarator: Declarator, attributes: Attributes, init: Option<Init>) -> Item
    ensures { shown_item result ≡ record { at = at; declarator = shown_declarator declarator; attributes = map shown_attribute attributes; init = shown_maybe_init init } }
{
    let init = match init {
        Some(i) => Some(i.open()),
        None => None,
    };
    Item {
        at,
        declarator: declarator.open(),
        attributes: attributes.open(),
        init,
    }
}

/// The items with one more.
pub fn with_item(items: DeclaredItems, i: Item) -> Result<DeclaredItems, AllocError>
    ensures { IfOk result (λ is. map shown_item is ≡ map shown_item items ++ shown_item i ∷ []) }
{
    items.with(i)
}

/// A declaration.
#[tactic(auto, unfolding(c_symbol::specs::Shown::shown_declaration, c_symbol::specs::Shown::shown_specs, c_symbol::specs::Shown::shown_item))]
pub fn declaration(at: At, specs: Specs, items: DeclaredItems) -> Declaration
    ensures { shown_declaration result ≡ record { at = at; specs = shown_specs specs; items = map shown_item items } }
{
    Declaration {
        at,
        specs: specs.open(),
        items: items.open(),
    }
}

// ---- statements

/// The expression, if there is one, as a part of a tree.
fn opened(a: Option<Expr>) -> Option<c_tree::Expr>
    ensures { result ≡ a }
{
    match a {
        Some(a) => Some(a.open()),
        None => None,
    }
}

/// `{ items }`
pub fn block(at: At, items: BlockItems) -> Stmt
    ensures { shown_stmt result ≡ marked.Block at (reader.items_of (map shown_block_item items)) }
{
    Stmt::new(raw::block(at, items.open()))
}

/// A declaration as an item of a block.
#[tactic(auto, unfolding(c_symbol::specs::Shown::shown_block_item, c_symbol::specs::Shown::shown_declaration))]
pub fn declared_item(d: Declaration) -> BlockItem
    ensures { shown_block_item result ≡ reader.declared (shown_declaration d) }
{
    BlockItem::Declaration(d)
}

/// A statement as an item of a block.
#[tactic(auto, unfolding(c_symbol::specs::Shown::shown_block_item, c_symbol::specs::Shown::shown_stmt))]
pub fn statement_item(s: Stmt) -> BlockItem
    ensures { shown_block_item result ≡ reader.statement (shown_stmt s) }
{
    BlockItem::Stmt(s.open())
}

/// The items of a block with one more.
pub fn with_block_item(items: BlockItems, i: BlockItem) -> Result<BlockItems, AllocError>
    ensures { IfOk result (λ is. map shown_block_item is ≡ map shown_block_item items ++ shown_block_item i ∷ []) }
{
    items.with(i)
}

/// `;`
#[tactic(auto, unfolding(c_symbol::specs::Shown::shown_stmt))]
pub fn empty(at: At) -> Stmt
    ensures { shown_stmt result ≡ marked.ExprStmt at marked.no_expr }
{
    Stmt::new(c_tree::Stmt::Expr(at, None))
}

/// `a;`
#[tactic(auto, unfolding(c_symbol::specs::Shown::shown_stmt, c_symbol::specs::Shown::shown))]
pub fn plain(at: At, a: Expr) -> Stmt
    ensures { shown_stmt result ≡ marked.ExprStmt at (marked.some_expr (shown a)) }
{
    Stmt::new(c_tree::Stmt::Expr(at, Some(a.open())))
}

/// `if (c) s`
#[tactic(auto, unfolding(c_symbol::specs::Shown::shown_stmt, c_symbol::specs::Shown::shown))]
pub fn if_(alloc: Global, at: At, c: Expr, s: Stmt) -> Result<Stmt, AllocError>
    ensures { IfOk result (λ x. shown_stmt x ≡ marked.If at (shown c) (shown_stmt s)) }
{
    let s = s.boxed(alloc)?;
    Ok(Stmt::new(c_tree::Stmt::If(at, c.open(), s.open())))
}

/// `if (c) s else t`
#[tactic(auto, unfolding(c_symbol::specs::Shown::shown_stmt, c_symbol::specs::Shown::shown))]
pub fn if_else(alloc: Global, at: At, c: Expr, s: Stmt, t: Stmt) -> Result<Stmt, AllocError>
    ensures { IfOk result (λ x. shown_stmt x ≡ marked.IfElse at (shown c) (shown_stmt s) (shown_stmt t)) }
{
    let s = s.boxed(alloc)?;
    let t = t.boxed(alloc)?;
    Ok(Stmt::new(c_tree::Stmt::IfElse(at, c.open(), s.open(), t.open())))
}

/// `while (c) s`
#[tactic(auto, unfolding(c_symbol::specs::Shown::shown_stmt, c_symbol::specs::Shown::shown))]
pub fn while_(alloc: Global, at: At, c: Expr, s: Stmt) -> Result<Stmt, AllocError>
    ensures { IfOk result (λ x. shown_stmt x ≡ marked.While at (shown c) (shown_stmt s)) }
{
    let s = s.boxed(alloc)?;
    Ok(Stmt::new(c_tree::Stmt::While(at, c.open(), s.open())))
}

/// `do s while (c);`
#[tactic(auto, unfolding(c_symbol::specs::Shown::shown_stmt, c_symbol::specs::Shown::shown))]
pub fn do_while(alloc: Global, at: At, s: Stmt, c: Expr) -> Result<Stmt, AllocError>
    ensures { IfOk result (λ x. shown_stmt x ≡ marked.Do at (shown_stmt s) (shown c)) }
{
    let s = s.boxed(alloc)?;
    Ok(Stmt::new(c_tree::Stmt::Do(at, s.open(), c.open())))
}

/// `for (first c; step) s`, where the first part has its semicolon
#[tactic(auto, unfolding(c_symbol::specs::Shown::shown_stmt, c_symbol::specs::Shown::shown_first, c_symbol::specs::Shown::shown_maybe))]
pub fn for_(
    alloc: Global,
    at: At,
    first: ForFirst,
    c: Option<Expr>,
    step: Option<Expr>,
    s: Stmt,
) -> Result<Stmt, AllocError>
    ensures { IfOk result (λ x. shown_stmt x ≡ marked.For at (shown_first first) (shown_maybe c) (shown_maybe step) (shown_stmt s)) }
{
    let s = s.boxed(alloc)?;
    let c = opened(c);
    let step = opened(step);
    Ok(Stmt::new(c_tree::Stmt::For(at, first.open(), c, step, s.open())))
}

/// A declaration as the first part of `for`.
#[tactic(auto, unfolding(c_symbol::specs::Shown::shown_first, c_symbol::specs::Shown::shown_declaration))]
pub fn first_declaration(d: Declaration) -> ForFirst
    ensures { shown_first result ≡ marked.FirstDeclaration (shown_declaration d) }
{
    ForFirst::new(c_tree::ForFirst::Declaration(d))
}

/// An expression, which may be absent, as the first part of `for`.
#[tactic(auto, unfolding(c_symbol::specs::Shown::shown_first, c_symbol::specs::Shown::shown_maybe))]
pub fn first_expr(a: Option<Expr>) -> ForFirst
    ensures { shown_first result ≡ marked.FirstExpr (shown_maybe a) }
{
    ForFirst::new(c_tree::ForFirst::Expr(opened(a)))
}

/// `break;`
#[tactic(auto, unfolding(c_symbol::specs::Shown::shown_stmt))]
pub fn break_(at: At) -> Stmt
    ensures { shown_stmt result ≡ marked.Break at }
{
    Stmt::new(c_tree::Stmt::Break(at))
}

/// `continue;`
#[tactic(auto, unfolding(c_symbol::specs::Shown::shown_stmt))]
pub fn continue_(at: At) -> Stmt
    ensures { shown_stmt result ≡ marked.Continue at }
{
    Stmt::new(c_tree::Stmt::Continue(at))
}

/// `return a;` or `return;`
#[tactic(auto, unfolding(c_symbol::specs::Shown::shown_stmt, c_symbol::specs::Shown::shown_maybe))]
pub fn return_(at: At, a: Option<Expr>) -> Stmt
    ensures { shown_stmt result ≡ marked.Return at (shown_maybe a) }
{
    Stmt::new(c_tree::Stmt::Return(at, opened(a)))
}

// ---- the unit

/// A declaration among the external ones.
#[tactic(auto, unfolding(c_symbol::specs::Shown::shown_external, c_symbol::specs::Shown::shown_declaration))]
pub fn declares(d: Declaration) -> External
    ensures { shown_external result ≡ marked.Declares (shown_declaration d) }
{
    External::Declaration(d)
}

/// `specs declarator { items }`
pub fn defines(
    at: At,
    specs: Specs,
    declarator: Declarator,
    body_at: At,
    items: BlockItems,
) -> External
    ensures { shown_external result ≡ marked.Definition at (shown_specs specs) (shown_declarator declarator) body_at (reader.items_of (map shown_block_item items)) }
{
    raw::defines(at, specs.open(), declarator.open(), body_at, items.open())
}

/// The external declarations with one more.
pub fn with_external(done: Externals, x: External) -> Result<Externals, AllocError>
    ensures { IfOk result (λ xs. map shown_external xs ≡ map shown_external done ++ shown_external x ∷ []) }
{
    done.with(x)
}
