//! The tokens that attributes, expressions, specifiers and declarators spell.

ghost use Rattle.std.specs.Prelude.{◌∷◌, OnOk, map};
ghost use Rattle.c_tree.specs.Marks as marks;
ghost use Rattle.c_tree.specs.Tok.{mark, word, name, LParen, RParen, LBracket, RBracket, Quest, Colon};
ghost use Rattle.c_tree.specs.Spelling.{Adds, HeadsSpecs, mark_of};
ghost use Rattle.c_tree.specs.View.{view, view_argument, view_attribute, view_entry, view_declarator, view_qualifier, view_spec, view_record, view_enum, view_enumerator_list};
ghost use Rattle.c_tree.specs.View.{boxed_declarator, boxed_expr, declarators_of, enumerators_of, exprs_of, fields_of, params_of, specs_of};
ghost use Rattle.c_tree.specs.Bare.{bare, bare_argument, bare_attribute, bare_declarator, bare_declarators, bare_entry, bare_enumerators, bare_exprs, bare_fields, bare_list, bare_maybe, bare_maybe_declarator, bare_params, bare_specs};
ghost use Rattle.c_tree.specs.Put.{put, put_all, put_argument, put_attribute, put_commas, put_comma_if, put_declarator, put_declarators, put_entry, put_enumerators, put_exprs, put_fields, put_list, put_maybe, put_maybe_declarator, put_name, put_params, put_specs, put_text, put_value, put_word};

use crate::expression::{
    Attribute, AttributeArgument, Declarator, Entry, Enum, Enumerator, EnumeratorList, Expr, Field,
    Param, Record, Spec, TypeName,
};
use crate::operator::Qualifier;
use crate::tokens::{Mark, Tokens, Word};
use tok_base::{Bytes, Items, NoMemory};

fn texts(out: &mut Tokens, ts: &Items<Bytes>) -> Result<(), NoMemory>
    ensures { OnOk result (Adds out.old out.new (put_all put_text ts.now)) }
{
    for t in ts.as_slice() {
        out.text(t)?;
    }
    Ok(())
}

fn maybe_name(out: &mut Tokens, n: &Option<Bytes>) -> Result<(), NoMemory>
    ensures { OnOk result (Adds out.old out.new (put_name n.now)) }
{
    match n {
        Some(n) => out.name(n),
        None => Ok(()),
    }
}

pub fn comma_if(out: &mut Tokens, has_comma: bool) -> Result<(), NoMemory>
    ensures { OnOk result (Adds out.old out.new (put_comma_if has_comma)) }
{
    if has_comma {
        out.mark(Mark::Comma)
    } else {
        Ok(())
    }
}

fn argument(out: &mut Tokens, a: &AttributeArgument) -> Result<(), NoMemory>
    ensures { OnOk result (Adds out.old out.new (put_argument (bare_argument (view_argument a.now)))) }
{
    match a {
        AttributeArgument::Number(_, n) => out.number(n),
        AttributeArgument::Text(_, ts) => texts(out, ts),
    }
}

fn attribute_arguments(out: &mut Tokens, xs: &Items<AttributeArgument>) -> Result<(), NoMemory>
    ensures { OnOk result (Adds out.old out.new (put_commas put_argument (map bare_argument (map view_argument xs.now)))) }
{
    let Some((first, more)) = xs.as_slice().split_first() else {
        return Ok(());
    };
    argument(out, first)?;
    for a in more {
        out.mark(Mark::Comma)?;
        argument(out, a)?;
    }
    Ok(())
}

fn entry(out: &mut Tokens, e: &Entry) -> Result<(), NoMemory>
    ensures { OnOk result (Adds out.old out.new (put_entry (bare_entry (view_entry e.now)))) }
{
    out.name(&e.name)?;
    match &e.arguments {
        Some(xs) => {
            out.mark(Mark::LeftParen)?;
            attribute_arguments(out, xs)?;
            out.mark(Mark::RightParen)
        }
        None => Ok(()),
    }
}

fn entries(out: &mut Tokens, es: &Items<Entry>) -> Result<(), NoMemory>
    ensures { OnOk result (Adds out.old out.new (put_commas put_entry (map bare_entry (map view_entry es.now)))) }
{
    let Some((first, more)) = es.as_slice().split_first() else {
        return Ok(());
    };
    entry(out, first)?;
    for e in more {
        out.mark(Mark::Comma)?;
        entry(out, e)?;
    }
    Ok(())
}

pub fn attribute(out: &mut Tokens, a: &Attribute) -> Result<(), NoMemory>
    ensures { OnOk result (Adds out.old out.new (put_attribute (bare_attribute (view_attribute a.now)))) }
{
    out.word(Word::Attribute)?;
    out.mark(Mark::LeftParen)?;
    out.mark(Mark::LeftParen)?;
    entries(out, &a.entries)?;
    out.mark(Mark::RightParen)?;
    out.mark(Mark::RightParen)
}

fn record_word(out: &mut Tokens, is_union: bool) -> Result<(), NoMemory>
    ensures { OnOk result (Adds out.old out.new (λ rest. word (marks.record_word is_union) ∷ rest)) }
{
    out.word(if is_union { Word::Union } else { Word::Struct })
}

fn qualifiers(out: &mut Tokens, qs: &Items<Qualifier>) -> Result<(), NoMemory>
    ensures { OnOk result (Adds out.old out.new (put_all put_word (map view_qualifier qs.now))) }
{
    for q in qs.as_slice() {
        out.word(Word::Qualifier(*q))?;
    }
    Ok(())
}

#[cycle(spell)]
pub fn expr(out: &mut Tokens, a: &Expr) -> Result<(), NoMemory>
    ensures { OnOk result (Adds out.old out.new (put (bare (view a.now)))) }
{
    match a {
        Expr::Comma(_, a, b) => pair(out, a, Mark::Comma, b),
        Expr::Assign(_, a, op, b) => pair(out, a, Mark::Assign(*op), b),
        Expr::Cond(_, c, a, b) => choice(out, c, a, b),
        Expr::Binary(_, a, op, b) => pair(out, a, Mark::Binary(*op), b),
        Expr::Cast(_, name, a) => cast(out, name, a),
        Expr::Prefix(_, op, a) => prefixed(out, Mark::Prefix(*op), a),
        Expr::SizeofExpr(_, a) => {
            out.word(Word::Sizeof)?;
            expr(out, a)
        }
        Expr::SizeofType(_, name) => {
            out.word(Word::Sizeof)?;
            type_name(out, name)
        }
        Expr::Index(_, a, b) => index(out, a, b),
        Expr::Call(_, f, xs) => {
            expr(out, f)?;
            arguments(out, xs)
        }
        Expr::Dot(_, a, n) => member(out, a, Mark::Point, n),
        Expr::Arrow(_, a, n) => member(out, a, Mark::Arrow, n),
        Expr::Post(_, a, op) => postfixed(out, a, Mark::Post(*op)),
        Expr::Name(_, n) => out.name(n),
        Expr::Number(_, n) => out.number(n),
        Expr::Char(_, c) => out.char(c),
        Expr::Text(_, ts) => texts(out, ts),
        Expr::Paren(_, a) => in_parens(out, a),
        Expr::Builtin(_, xs) => {
            out.word(Word::Builtin)?;
            arguments(out, xs)
        }
    }
}

#[cycle(spell)]
fn pair(out: &mut Tokens, a: &Expr, between: Mark, b: &Expr) -> Result<(), NoMemory>
    ensures { OnOk result (Adds out.old out.new (λ rest. put (bare (view a.now)) (mark (mark_of between) ∷ put (bare (view b.now)) rest))) }
{
    expr(out, a)?;
    out.mark(between)?;
    expr(out, b)
}

#[cycle(spell)]
fn choice(out: &mut Tokens, c: &Expr, a: &Expr, b: &Expr) -> Result<(), NoMemory>
    ensures { OnOk result (Adds out.old out.new (λ rest. put (bare (view c.now)) (mark Quest ∷ put (bare (view a.now)) (mark Colon ∷ put (bare (view b.now)) rest)))) }
{
    expr(out, c)?;
    out.mark(Mark::Question)?;
    expr(out, a)?;
    out.mark(Mark::Colon)?;
    expr(out, b)
}

#[cycle(spell)]
fn cast(out: &mut Tokens, t: &TypeName, a: &Expr) -> Result<(), NoMemory>
    ensures { OnOk result (Adds out.old out.new (λ rest. mark LParen ∷ put_specs (bare_specs (specs_of t.now.specs)) (put_maybe_declarator (bare_maybe_declarator (boxed_declarator t.now.declarator)) (mark RParen ∷ put (bare (view a.now)) rest)))) }
{
    type_name(out, t)?;
    expr(out, a)
}

#[cycle(spell)]
fn prefixed(out: &mut Tokens, before: Mark, a: &Expr) -> Result<(), NoMemory>
    ensures { OnOk result (Adds out.old out.new (λ rest. mark (mark_of before) ∷ put (bare (view a.now)) rest)) }
{
    out.mark(before)?;
    expr(out, a)
}

#[cycle(spell)]
fn postfixed(out: &mut Tokens, a: &Expr, behind: Mark) -> Result<(), NoMemory>
    ensures { OnOk result (Adds out.old out.new (λ rest. put (bare (view a.now)) (mark (mark_of behind) ∷ rest))) }
{
    expr(out, a)?;
    out.mark(behind)
}

#[cycle(spell)]
fn index(out: &mut Tokens, a: &Expr, b: &Expr) -> Result<(), NoMemory>
    ensures { OnOk result (Adds out.old out.new (λ rest. put (bare (view a.now)) (mark LBracket ∷ put (bare (view b.now)) (mark RBracket ∷ rest)))) }
{
    expr(out, a)?;
    out.mark(Mark::LeftBracket)?;
    expr(out, b)?;
    out.mark(Mark::RightBracket)
}

#[cycle(spell)]
pub fn in_parens(out: &mut Tokens, a: &Expr) -> Result<(), NoMemory>
    ensures { OnOk result (Adds out.old out.new (λ rest. mark LParen ∷ put (bare (view a.now)) (mark RParen ∷ rest))) }
{
    out.mark(Mark::LeftParen)?;
    expr(out, a)?;
    out.mark(Mark::RightParen)
}

#[cycle(spell)]
fn member(out: &mut Tokens, a: &Expr, between: Mark, n: &Bytes) -> Result<(), NoMemory>
    ensures { OnOk result (Adds out.old out.new (λ rest. put (bare (view a.now)) (mark (mark_of between) ∷ name n.now ∷ rest))) }
{
    expr(out, a)?;
    out.mark(between)?;
    out.name(n)
}

/// Arguments with commas between them, in parentheses.
#[cycle(spell)]
fn arguments(out: &mut Tokens, xs: &Items<Expr>) -> Result<(), NoMemory>
    ensures { OnOk result (Adds out.old out.new (λ rest. mark LParen ∷ put_exprs (bare_exprs (exprs_of xs.now)) (mark RParen ∷ rest))) }
{
    out.mark(Mark::LeftParen)?;
    if let Some((first, more)) = xs.as_slice().split_first() {
        expr(out, first)?;
        for a in more {
            out.mark(Mark::Comma)?;
            expr(out, a)?;
        }
    }
    out.mark(Mark::RightParen)
}

/// A type name in parentheses.
#[cycle(spell)]
fn type_name(out: &mut Tokens, t: &TypeName) -> Result<(), NoMemory>
    ensures { OnOk result (Adds out.old out.new (λ rest. mark LParen ∷ put_specs (bare_specs (specs_of t.now.specs)) (put_maybe_declarator (bare_maybe_declarator (boxed_declarator t.now.declarator)) (mark RParen ∷ rest)))) }
{
    out.mark(Mark::LeftParen)?;
    specs(out, &t.specs)?;
    maybe_declarator(out, &t.declarator)?;
    out.mark(Mark::RightParen)
}

#[cycle(spell)]
fn maybe(out: &mut Tokens, a: &Option<Box<Expr>>) -> Result<(), NoMemory>
    ensures { OnOk result (Adds out.old out.new (put_maybe (bare_maybe (boxed_expr a.now)))) }
{
    match a {
        Some(a) => expr(out, a),
        None => Ok(()),
    }
}

#[cycle(spell)]
fn maybe_declarator(out: &mut Tokens, d: &Option<Box<Declarator>>) -> Result<(), NoMemory>
    ensures { OnOk result (Adds out.old out.new (put_maybe_declarator (bare_maybe_declarator (boxed_declarator d.now)))) }
{
    match d {
        Some(d) => declarator(out, d),
        None => Ok(()),
    }
}

#[cycle(spell)]
pub fn specs(out: &mut Tokens, ss: &Items<Spec>) -> Result<(), NoMemory>
    ensures { OnOk result (Adds out.old out.new (put_specs (bare_specs (specs_of ss.now)))) }
{
    for s in ss.as_slice() {
        spec(out, s)?;
    }
    Ok(())
}

#[cycle(spell)]
fn spec(out: &mut Tokens, s: &Spec) -> Result<(), NoMemory>
    ensures { OnOk result (HeadsSpecs out.old out.new (view_spec s.now)) }
{
    match s {
        Spec::Keyword(k) => out.word(Word::Keyword(*k)),
        Spec::Typedef(n) => out.name(n),
        Spec::Attribute(a) => attribute(out, a),
        Spec::Record(r) => record(out, r),
        Spec::Enum(e) => enumeration(out, e),
    }
}

#[cycle(spell)]
fn record(out: &mut Tokens, r: &Record) -> Result<(), NoMemory>
    ensures { OnOk result (HeadsSpecs out.old out.new (view_record r.now)) }
{
    record_word(out, r.is_union)?;
    maybe_name(out, &r.tag)?;
    match &r.fields {
        Some(fs) => {
            out.mark(Mark::LeftBrace)?;
            fields(out, fs)?;
            out.mark(Mark::RightBrace)
        }
        None => Ok(()),
    }
}

#[cycle(spell)]
fn fields(out: &mut Tokens, fs: &Items<Field>) -> Result<(), NoMemory>
    ensures { OnOk result (Adds out.old out.new (put_fields (bare_fields (fields_of fs.now)))) }
{
    for f in fs.as_slice() {
        specs(out, &f.specs)?;
        declarators(out, &f.declarators)?;
        out.mark(Mark::Semicolon)?;
    }
    Ok(())
}

#[cycle(spell)]
fn declarators(out: &mut Tokens, ds: &Items<Declarator>) -> Result<(), NoMemory>
    ensures { OnOk result (Adds out.old out.new (put_declarators (bare_declarators (declarators_of ds.now)))) }
{
    let Some((first, more)) = ds.as_slice().split_first() else {
        return Ok(());
    };
    declarator(out, first)?;
    for d in more {
        out.mark(Mark::Comma)?;
        declarator(out, d)?;
    }
    Ok(())
}

#[cycle(spell)]
fn enumeration(out: &mut Tokens, e: &Enum) -> Result<(), NoMemory>
    ensures { OnOk result (HeadsSpecs out.old out.new (view_enum e.now)) }
{
    out.word(Word::Enum)?;
    maybe_name(out, &e.tag)?;
    match &e.list {
        Some(l) => enumerator_list(out, l),
        None => Ok(()),
    }
}

#[cycle(spell)]
fn enumerator_list(out: &mut Tokens, l: &EnumeratorList) -> Result<(), NoMemory>
    ensures { OnOk result (Adds out.old out.new (put_list (bare_list (view_enumerator_list l.now)))) }
{
    out.mark(Mark::LeftBrace)?;
    enumerators(out, &l.enumerators)?;
    comma_if(out, l.has_comma)?;
    out.mark(Mark::RightBrace)
}

#[cycle(spell)]
fn enumerators(out: &mut Tokens, es: &Items<Enumerator>) -> Result<(), NoMemory>
    ensures { OnOk result (Adds out.old out.new (put_enumerators (bare_enumerators (enumerators_of es.now)))) }
{
    let Some((first, more)) = es.as_slice().split_first() else {
        return Ok(());
    };
    enumerator(out, first)?;
    for e in more {
        out.mark(Mark::Comma)?;
        enumerator(out, e)?;
    }
    Ok(())
}

#[cycle(spell)]
fn enumerator(out: &mut Tokens, e: &Enumerator) -> Result<(), NoMemory>
    ensures { OnOk result (Adds out.old out.new (λ rest. name e.now.name ∷ put_value (bare_maybe (boxed_expr e.now.value)) rest)) }
{
    out.name(&e.name)?;
    match &e.value {
        Some(a) => {
            out.mark(Mark::Equals)?;
            expr(out, a)
        }
        None => Ok(()),
    }
}

#[cycle(spell)]
pub fn declarator(out: &mut Tokens, d: &Declarator) -> Result<(), NoMemory>
    ensures { OnOk result (Adds out.old out.new (put_declarator (bare_declarator (view_declarator d.now)))) }
{
    match d {
        Declarator::PointerTo(_, qs, d) => {
            out.mark(Mark::Star)?;
            qualifiers(out, qs)?;
            declarator(out, d)
        }
        Declarator::Declared(_, n) => maybe_name(out, n),
        Declarator::Group(_, d) => {
            out.mark(Mark::LeftParen)?;
            declarator(out, d)?;
            out.mark(Mark::RightParen)
        }
        Declarator::ArrayOf(_, d, n) => {
            declarator(out, d)?;
            out.mark(Mark::LeftBracket)?;
            maybe(out, n)?;
            out.mark(Mark::RightBracket)
        }
        Declarator::FunctionOf(_, d, ps) => {
            declarator(out, d)?;
            out.mark(Mark::LeftParen)?;
            params(out, ps)?;
            out.mark(Mark::RightParen)
        }
    }
}

#[cycle(spell)]
fn params(out: &mut Tokens, ps: &Items<Param>) -> Result<(), NoMemory>
    ensures { OnOk result (Adds out.old out.new (put_params (bare_params (params_of ps.now)))) }
{
    let Some((first, more)) = ps.as_slice().split_first() else {
        return Ok(());
    };
    param(out, first)?;
    for p in more {
        out.mark(Mark::Comma)?;
        param(out, p)?;
    }
    Ok(())
}

#[cycle(spell)]
fn param(out: &mut Tokens, p: &Param) -> Result<(), NoMemory>
    ensures { OnOk result (Adds out.old out.new (λ rest. put_specs (bare_specs (specs_of p.now.specs)) (put_maybe_declarator (bare_maybe_declarator (boxed_declarator p.now.declarator)) rest))) }
{
    specs(out, &p.specs)?;
    maybe_declarator(out, &p.declarator)
}
