//! The tokens that initialisers, declarations, statements and a unit spell.

ghost use Rattle.std.specs.Prelude.{◌≡◌, ◌∷◌, [], OnOk, IfOk, map};
ghost use Rattle.c_tree.specs.Tok.{mark, word, LBrace, LParen, RBrace, RParen, Semi, KFor};
ghost use Rattle.c_tree.specs.Lexeme.{lexeme};
ghost use Rattle.c_tree.specs.Reading.{spelled};
ghost use Rattle.c_tree.specs.Spelling.{Adds, HeadsItems, word_of};
ghost use Rattle.c_tree.specs.View.{view, view_attribute, view_block_item, view_declaration, view_definition, view_external, view_first, view_init, view_item, view_maybe_expr, view_maybe_init, view_stmt, view_unit};
ghost use Rattle.c_tree.specs.View.{inits_of, items_of};
ghost use Rattle.c_tree.specs.Bare.{bare, bare_attribute, bare_block, bare_declaration, bare_external, bare_first, bare_init, bare_inits, bare_item, bare_maybe, bare_maybe_init, bare_stmt, bare_unit};
ghost use Rattle.c_tree.specs.Put.{put, put_all, put_attribute, put_block, put_commas, put_declaration, put_external, put_first, put_init, put_inits, put_item, put_maybe, put_maybe_init, put_stmt, put_unit};

use crate::expression::{Attribute, Expr};
use crate::spell::{attribute, comma_if, declarator, expr, in_parens, specs};
use crate::statement::{
    Block, BlockItem, Declaration, Definition, External, ForFirst, Init, Item, Stmt, Unit,
};
use crate::tokens::{Mark, Tokens, Word};
use std::alloc::Global;
use tok_base::{Items, Lexeme, NoMemory};

#[cycle(spell)]
fn init(out: &mut Tokens, i: &Init) -> Result<(), NoMemory>
    ensures { OnOk result (Adds out.old out.new (put_init (bare_init (view_init i.now)))) }
{
    match i {
        Init::Expr(a) => expr(out, a),
        Init::Braces(_, list, has_comma) => {
            out.mark(Mark::LeftBrace)?;
            inits(out, list)?;
            comma_if(out, *has_comma)?;
            out.mark(Mark::RightBrace)
        }
    }
}

#[cycle(spell)]
fn inits(out: &mut Tokens, list: &Items<Init>) -> Result<(), NoMemory>
    ensures { OnOk result (Adds out.old out.new (put_inits (bare_inits (inits_of list.now)))) }
{
    let Some((first, more)) = list.as_slice().split_first() else {
        return Ok(());
    };
    init(out, first)?;
    for i in more {
        out.mark(Mark::Comma)?;
        init(out, i)?;
    }
    Ok(())
}

fn maybe_init(out: &mut Tokens, i: &Option<Init>) -> Result<(), NoMemory>
    ensures { OnOk result (Adds out.old out.new (put_maybe_init (bare_maybe_init (view_maybe_init i.now)))) }
{
    match i {
        Some(i) => {
            out.mark(Mark::Equals)?;
            init(out, i)
        }
        None => Ok(()),
    }
}

fn attributes(out: &mut Tokens, xs: &Items<Attribute>) -> Result<(), NoMemory>
    ensures { OnOk result (Adds out.old out.new (put_all put_attribute (map bare_attribute (map view_attribute xs.now)))) }
{
    for a in xs.as_slice() {
        attribute(out, a)?;
    }
    Ok(())
}

fn item(out: &mut Tokens, i: &Item) -> Result<(), NoMemory>
    ensures { OnOk result (Adds out.old out.new (put_item (bare_item (view_item i.now)))) }
{
    declarator(out, &i.declarator)?;
    attributes(out, &i.attributes)?;
    maybe_init(out, &i.init)
}

fn items(out: &mut Tokens, xs: &Items<Item>) -> Result<(), NoMemory>
    ensures { OnOk result (Adds out.old out.new (put_commas put_item (map bare_item (map view_item xs.now)))) }
{
    let Some((first, more)) = xs.as_slice().split_first() else {
        return Ok(());
    };
    item(out, first)?;
    for i in more {
        out.mark(Mark::Comma)?;
        item(out, i)?;
    }
    Ok(())
}

fn declaration(out: &mut Tokens, d: &Declaration) -> Result<(), NoMemory>
    ensures { OnOk result (Adds out.old out.new (put_declaration (bare_declaration (view_declaration d.now)))) }
{
    specs(out, &d.specs)?;
    items(out, &d.items)?;
    out.mark(Mark::Semicolon)
}

fn maybe_expr(out: &mut Tokens, a: &Option<Expr>) -> Result<(), NoMemory>
    ensures { OnOk result (Adds out.old out.new (put_maybe (bare_maybe (view_maybe_expr a.now)))) }
{
    match a {
        Some(a) => expr(out, a),
        None => Ok(()),
    }
}

/// An expression, if there is one, and its semicolon.
fn full_expr(out: &mut Tokens, a: &Option<Expr>) -> Result<(), NoMemory>
    ensures { OnOk result (Adds out.old out.new (λ rest. put_maybe (bare_maybe (view_maybe_expr a.now)) (mark Semi ∷ rest))) }
{
    maybe_expr(out, a)?;
    out.mark(Mark::Semicolon)
}

fn jump(out: &mut Tokens, w: Word) -> Result<(), NoMemory>
    ensures { OnOk result (Adds out.old out.new (λ rest. word (word_of w) ∷ mark Semi ∷ rest)) }
{
    out.word(w)?;
    out.mark(Mark::Semicolon)
}

fn condition(out: &mut Tokens, w: Word, c: &Expr) -> Result<(), NoMemory>
    ensures { OnOk result (Adds out.old out.new (λ rest. word (word_of w) ∷ mark LParen ∷ put (bare (view c.now)) (mark RParen ∷ rest))) }
{
    out.word(w)?;
    in_parens(out, c)
}

fn first(out: &mut Tokens, f: &ForFirst) -> Result<(), NoMemory>
    ensures { OnOk result (Adds out.old out.new (put_first (bare_first (view_first f.now)))) }
{
    match f {
        ForFirst::Declaration(d) => declaration(out, d),
        ForFirst::Expr(a) => full_expr(out, a),
    }
}

fn for_head(
    out: &mut Tokens,
    f: &ForFirst,
    c: &Option<Expr>,
    e: &Option<Expr>,
) -> Result<(), NoMemory>
    ensures { OnOk result (Adds out.old out.new (λ rest. word KFor ∷ mark LParen ∷ put_first (bare_first (view_first f.now)) (put_maybe (bare_maybe (view_maybe_expr c.now)) (mark Semi ∷ put_maybe (bare_maybe (view_maybe_expr e.now)) (mark RParen ∷ rest))))) }
{
    out.word(Word::For)?;
    out.mark(Mark::LeftParen)?;
    first(out, f)?;
    full_expr(out, c)?;
    maybe_expr(out, e)?;
    out.mark(Mark::RightParen)
}

#[cycle(statements)]
fn statement(out: &mut Tokens, s: &Stmt) -> Result<(), NoMemory>
    ensures { OnOk result (Adds out.old out.new (put_stmt (bare_stmt (view_stmt s.now)))) }
{
    match s {
        Stmt::Block(b) => block(out, b),
        Stmt::Expr(_, a) => full_expr(out, a),
        Stmt::If(_, c, s) => {
            condition(out, Word::If, c)?;
            statement(out, s)
        }
        Stmt::IfElse(_, c, s, t) => {
            condition(out, Word::If, c)?;
            statement(out, s)?;
            out.word(Word::Else)?;
            statement(out, t)
        }
        Stmt::While(_, c, s) => {
            condition(out, Word::While, c)?;
            statement(out, s)
        }
        Stmt::Do(_, s, c) => {
            out.word(Word::Do)?;
            statement(out, s)?;
            condition(out, Word::While, c)?;
            out.mark(Mark::Semicolon)
        }
        Stmt::For(_, f, c, e, s) => {
            for_head(out, f, c, e)?;
            statement(out, s)
        }
        Stmt::Break(_) => jump(out, Word::Break),
        Stmt::Continue(_) => jump(out, Word::Continue),
        Stmt::Return(_, a) => {
            out.word(Word::Return)?;
            full_expr(out, a)
        }
    }
}

#[cycle(statements)]
fn block(out: &mut Tokens, b: &Block) -> Result<(), NoMemory>
    ensures { OnOk result (Adds out.old out.new (λ rest. mark LBrace ∷ put_block (bare_block (items_of b.now.items)) (mark RBrace ∷ rest))) }
{
    out.mark(Mark::LeftBrace)?;
    for item in b.items.as_slice() {
        block_item(out, item)?;
    }
    out.mark(Mark::RightBrace)
}

#[cycle(statements)]
fn block_item(out: &mut Tokens, item: &BlockItem) -> Result<(), NoMemory>
    ensures { OnOk result (HeadsItems out.old out.new (view_block_item item.now)) }
{
    match item {
        BlockItem::Declaration(d) => declaration(out, d),
        BlockItem::Stmt(s) => statement(out, s),
    }
}

fn definition(out: &mut Tokens, d: &Definition) -> Result<(), NoMemory>
    ensures { OnOk result (Adds out.old out.new (put_external (bare_external (view_definition d.now)))) }
{
    specs(out, &d.specs)?;
    declarator(out, &d.declarator)?;
    block(out, &d.body)
}

fn external(out: &mut Tokens, x: &External) -> Result<(), NoMemory>
    ensures { OnOk result (Adds out.old out.new (put_external (bare_external (view_external x.now)))) }
{
    match x {
        External::Declaration(d) => declaration(out, d),
        External::Definition(d) => definition(out, d),
    }
}

fn externals(out: &mut Tokens, u: &Unit) -> Result<(), NoMemory>
    ensures { OnOk result (Adds out.old out.new (put_unit (bare_unit (view_unit u.now)))) }
{
    for x in u.items.as_slice() {
        external(out, x)?;
    }
    Ok(())
}

/// The tokens that an external declaration spells.
pub fn spell_external(alloc: Global, x: &External) -> Result<Items<Lexeme>, NoMemory>
    ensures { IfOk result (λ ls. ls ≡ map lexeme (put_external (bare_external (view_external x.now)) [])) }
{
    let mut out = Tokens::new(alloc);
    external(&mut out, x)?;
    Ok(out.list)
}

/// The tokens that the unit spells.
pub fn spell_tree(alloc: Global, u: &Unit) -> Result<Items<Lexeme>, NoMemory>
    ensures { IfOk result (λ ls. ls ≡ spelled (bare_unit (view_unit u.now))) }
{
    let mut out = Tokens::new(alloc);
    externals(&mut out, u)?;
    Ok(out.list)
}
