//! Copies expressions, specifiers and declarators with their sites tagged.

ghost use Rattle.std.specs.Prelude.{◌≡◌, ◌%◌, ◌+◌, ◌≤◌, ◌++◌, ◌∷◌, [], ℕ, IfOk, option_map};
ghost use Rattle.c_tree.specs.Tree as u;
ghost use Rattle.c_tree.specs.declared.expression.Record.{out-Record};
ghost use Rattle.c_tree.specs.View.{view, view_assign, view_declarator, view_op, body_of, boxed_declarator, boxed_expr, declarators_of, enumerators_of, exprs_of, fields_of, list_of, params_of, specs_of};
ghost use Rattle.c_tree.specs.Bare.{bare, bare_body, bare_declarator, bare_declarators, bare_enumerators, bare_fields, bare_params, bare_exprs, bare_list, bare_maybe, bare_maybe_declarator, bare_specs};
ghost use Rattle.call_rewriter.specs.Plans.{callee_seen, hooks_seen};
ghost use Rattle.call_rewriter.specs.Tagged.{with_last, entry_point, no_hooks, two};
ghost use Rattle.call_rewriter.specs.Tagger.{HeadsEnum, HeadsList, HeadsRecord, Tags, arguments_tagging, declarators_tagging, enumerators_tagging, exprs_tagging, fields_tagging, params_tagging, specs_tagging, token_text};
ghost use Rattle.call_rewriter.specs.Tagger.{put_declarator, put_enum, put_enumerator, put_expr, put_field, put_param, put_record, put_spec};
ghost use Rattle.call_rewriter.specs.Tagged as tagged;

use crate::copy::{attribute, bytes, maybe_bytes, qualifiers, texts};
use crate::made;
use crate::plan::Plan;
use crate::site::{Callee, Hooks};
use c_held as held;
use c_tree::{
    AssignOp, At, BinaryOp, Declarator, Enum, Enumerator, EnumeratorList, Expr, Field, Param,
    Record, Spec, TypeName, make,
};
use itoa::Buffer;
use std::alloc::Global;
use tok_base::{Bytes, Items, NoMemory};

impl Plan {
    /// In an operand of `sizeof` or of the builtin, where no call is a site.
    fn operand(self) -> Plan
        ensures max { result.max ≡ self.max }
        ensures hooks { hooks_seen result.hooks ≡ no_hooks }
    {
        Plan {
            hooks: Hooks {
                malloc: false,
                calloc: false,
                realloc: false,
            },
            max: self.max,
        }
    }
}

/// The token of the site behind the one with token k.
fn next_token(max: u32, k: u32) -> u32
    requires { 1 ≤ max }
    ensures { (n : ℕ) → n % max ≡ k → (n + 1) % max ≡ result }
{
    if k < max - 1 { k + 1 } else { 0 }
}

/// The function that a call of this expression is a site of.
fn site_in(hooks: Hooks, f: &Expr) -> Option<Callee>
    ensures { option_map callee_seen result ≡ tagged.site_in (hooks_seen hooks) (bare (view f.now)) }
{
    match f {
        Expr::Paren(_, f) => site_in(hooks, f),
        Expr::Name(_, n) => hooks.site_of(n.as_slice()),
        _ => None,
    }
}

/// A token as a constant of type unsigned long.
fn token(alloc: Global, at: At, k: u32) -> Result<held::Expr, NoMemory>
    ensures { IfOk result (λ e. bare (view e) ≡ u.Number (token_text k)) }
{
    let mut buffer = Buffer::new();
    let digits = buffer.format(k).as_bytes();
    let mut text = Vec::new(alloc);
    text.extend_from_slice(digits)?;
    text.extend_from_slice(b"UL")?;
    Ok(held::Expr::new(Expr::Number(at, Items::from_vec(text))))
}

/// The arguments with one more behind them.
fn with_last(mut args: held::Exprs, last: Expr) -> Result<held::Exprs, NoMemory>
    ensures { IfOk result (λ xs. bare_exprs (exprs_of xs) ≡ with_last (bare_exprs (exprs_of args)) (bare (view last))) }
{
    args.push(last)?;
    Ok(args)
}

/// The called name, with its parentheses, as the entry point's.
fn entered(alloc: Global, at: At, callee: Callee, f: &Expr) -> Result<held::Expr, NoMemory>
    ensures { IfOk result (λ e. bare (view e) ≡ tagged.entered (callee_seen callee) (bare (view f.now))) }
{
    match f {
        Expr::Paren(own, f) => {
            let f = entered(alloc, at, callee, f)?;
            let f = f.boxed(alloc)?;
            Ok(held::Expr::new(Expr::Paren(*own, f.open())))
        }
        Expr::Name(own, _) => entry(alloc, *own, callee),
        _ => entry(alloc, at, callee),
    }
}

/// The name of an entry point.
fn entry(alloc: Global, at: At, callee: Callee) -> Result<held::Expr, NoMemory>
    ensures { IfOk result (λ e. bare (view e) ≡ u.Name (entry_point (callee_seen callee))) }
{
    let name = Items::from_slice(alloc, callee.entry_point())?;
    Ok(held::Expr::new(Expr::Name(at, name)))
}

/// The record with this tag and these fields.
fn with_fields(r: &Record, tag: Option<Bytes>, fields: Option<Items<Field>>) -> Record
    ensures { (ss : u.Specs) → put_record result ss ≡ u.Record (out-Record r.now).is_union tag (bare_body (body_of fields)) ss }
{
    Record {
        at: r.at,
        is_union: r.is_union,
        tag,
        fields,
    }
}

#[cycle(tag)]
pub fn expr(alloc: Global, plan: Plan, k: &mut u32, a: &Expr) -> Result<held::Expr, NoMemory>
    ensures { IfOk result (λ e. Tags plan.max k.old k.new (tagged.tag plan.max (hooks_seen plan.hooks) (bare (view a.now))) (bare (view e))) }
{
    match a {
        Expr::Comma(at, a, b) => comma(alloc, plan, k, *at, a, b),
        Expr::Assign(at, a, op, b) => assign(alloc, plan, k, *at, a, *op, b),
        Expr::Cond(at, c, a, b) => conditional(alloc, plan, k, *at, c, a, b),
        Expr::Binary(at, a, op, b) => binary(alloc, plan, k, *at, a, *op, b),
        Expr::Cast(at, t, a) => cast(alloc, plan, k, *at, t, a),
        Expr::Prefix(at, op, a) => {
            let a = boxed(alloc, plan, k, a)?;
            Ok(held::Expr::new(Expr::Prefix(*at, *op, a.open())))
        }
        Expr::SizeofExpr(at, a) => {
            let a = boxed(alloc, plan.operand(), k, a)?;
            Ok(held::Expr::new(Expr::SizeofExpr(*at, a.open())))
        }
        Expr::SizeofType(at, t) => sizeof_type(alloc, plan, k, *at, t),
        Expr::Index(at, a, b) => index(alloc, plan, k, *at, a, b),
        Expr::Call(at, f, xs) => match site_in(plan.hooks, f) {
            Some(callee) => {
                let name = entered(alloc, *at, callee, f)?;
                let xs = site_arguments(alloc, plan, k, *at, xs)?;
                made::call(alloc, *at, name, xs)
            }
            None => {
                let f = expr(alloc, plan, k, f)?;
                let xs = exprs(alloc, plan, k, xs)?;
                made::call(alloc, *at, f, xs)
            }
        },
        Expr::Dot(at, a, n) => dot(alloc, plan, k, *at, a, n),
        Expr::Arrow(at, a, n) => arrow(alloc, plan, k, *at, a, n),
        Expr::Post(at, a, op) => {
            let a = boxed(alloc, plan, k, a)?;
            Ok(held::Expr::new(Expr::Post(*at, a.open(), *op)))
        }
        Expr::Name(at, n) => {
            let n = bytes(alloc, n)?;
            Ok(held::Expr::new(Expr::Name(*at, n)))
        }
        Expr::Number(at, n) => {
            let n = bytes(alloc, n)?;
            Ok(held::Expr::new(Expr::Number(*at, n)))
        }
        Expr::Char(at, n) => {
            let n = bytes(alloc, n)?;
            Ok(held::Expr::new(Expr::Char(*at, n)))
        }
        Expr::Text(at, ts) => {
            let ts = texts(alloc, ts)?;
            Ok(held::Expr::new(Expr::Text(*at, ts)))
        }
        Expr::Paren(at, a) => {
            let a = boxed(alloc, plan, k, a)?;
            Ok(held::Expr::new(Expr::Paren(*at, a.open())))
        }
        Expr::Builtin(at, xs) => builtin(alloc, plan, k, *at, xs),
    }
}

#[cycle(tag)]
fn comma(
    alloc: Global,
    plan: Plan,
    k: &mut u32,
    at: At,
    a: &Expr,
    b: &Expr,
) -> Result<held::Expr, NoMemory>
    ensures { IfOk result (λ e. Tags plan.max k.old k.new (two u.Comma (tagged.tag plan.max (hooks_seen plan.hooks) (bare (view a.now))) (tagged.tag plan.max (hooks_seen plan.hooks) (bare (view b.now)))) (bare (view e))) }
{
    let a = boxed(alloc, plan, k, a)?;
    let b = boxed(alloc, plan, k, b)?;
    Ok(held::Expr::new(Expr::Comma(at, a.open(), b.open())))
}

#[cycle(tag)]
fn assign(
    alloc: Global,
    plan: Plan,
    k: &mut u32,
    at: At,
    a: &Expr,
    op: AssignOp,
    b: &Expr,
) -> Result<held::Expr, NoMemory>
    ensures { IfOk result (λ e. Tags plan.max k.old k.new (two (λ a b. u.Assign a (view_assign op) b) (tagged.tag plan.max (hooks_seen plan.hooks) (bare (view a.now))) (tagged.tag plan.max (hooks_seen plan.hooks) (bare (view b.now)))) (bare (view e))) }
{
    let a = boxed(alloc, plan, k, a)?;
    let b = boxed(alloc, plan, k, b)?;
    Ok(held::Expr::new(Expr::Assign(at, a.open(), op, b.open())))
}

#[cycle(tag)]
fn conditional(
    alloc: Global,
    plan: Plan,
    k: &mut u32,
    at: At,
    c: &Expr,
    a: &Expr,
    b: &Expr,
) -> Result<held::Expr, NoMemory>
    ensures { IfOk result (λ e. Tags plan.max k.old k.new (tagged.three u.Cond (tagged.tag plan.max (hooks_seen plan.hooks) (bare (view c.now))) (tagged.tag plan.max (hooks_seen plan.hooks) (bare (view a.now))) (tagged.tag plan.max (hooks_seen plan.hooks) (bare (view b.now)))) (bare (view e))) }
{
    let c = boxed(alloc, plan, k, c)?;
    let a = boxed(alloc, plan, k, a)?;
    let b = boxed(alloc, plan, k, b)?;
    Ok(held::Expr::new(Expr::Cond(at, c.open(), a.open(), b.open())))
}

#[cycle(tag)]
fn binary(
    alloc: Global,
    plan: Plan,
    k: &mut u32,
    at: At,
    a: &Expr,
    op: BinaryOp,
    b: &Expr,
) -> Result<held::Expr, NoMemory>
    ensures { IfOk result (λ e. Tags plan.max k.old k.new (two (λ a b. u.Binary a (view_op op) b) (tagged.tag plan.max (hooks_seen plan.hooks) (bare (view a.now))) (tagged.tag plan.max (hooks_seen plan.hooks) (bare (view b.now)))) (bare (view e))) }
{
    let a = boxed(alloc, plan, k, a)?;
    let b = boxed(alloc, plan, k, b)?;
    Ok(held::Expr::new(Expr::Binary(at, a.open(), op, b.open())))
}

#[cycle(tag)]
fn cast(
    alloc: Global,
    plan: Plan,
    k: &mut u32,
    at: At,
    t: &TypeName,
    a: &Expr,
) -> Result<held::Expr, NoMemory>
    ensures { IfOk result (λ e. Tags plan.max k.old k.new (tagged.three u.Cast (specs_tagging plan.max (hooks_seen plan.hooks) t.now.specs) (tagged.tag_maybe_declarator plan.max (hooks_seen plan.hooks) (bare_maybe_declarator (boxed_declarator t.now.declarator))) (tagged.tag plan.max (hooks_seen plan.hooks) (bare (view a.now)))) (bare (view e))) }
{
    let t = type_name(alloc, plan, k, t)?;
    let a = expr(alloc, plan, k, a)?;
    made::cast(alloc, at, t, a)
}

/// The size of a type, in which no call is a site.
#[cycle(tag)]
fn sizeof_type(
    alloc: Global,
    plan: Plan,
    k: &mut u32,
    at: At,
    t: &TypeName,
) -> Result<held::Expr, NoMemory>
    ensures { IfOk result (λ e. Tags plan.max k.old k.new (two u.SizeofType (specs_tagging plan.max no_hooks t.now.specs) (tagged.tag_maybe_declarator plan.max no_hooks (bare_maybe_declarator (boxed_declarator t.now.declarator)))) (bare (view e))) }
{
    let t = type_name(alloc, plan.operand(), k, t)?;
    made::sizeof_type(alloc, at, t)
}

#[cycle(tag)]
fn index(
    alloc: Global,
    plan: Plan,
    k: &mut u32,
    at: At,
    a: &Expr,
    b: &Expr,
) -> Result<held::Expr, NoMemory>
    ensures { IfOk result (λ e. Tags plan.max k.old k.new (two u.Index (tagged.tag plan.max (hooks_seen plan.hooks) (bare (view a.now))) (tagged.tag plan.max (hooks_seen plan.hooks) (bare (view b.now)))) (bare (view e))) }
{
    let a = boxed(alloc, plan, k, a)?;
    let b = boxed(alloc, plan, k, b)?;
    Ok(held::Expr::new(Expr::Index(at, a.open(), b.open())))
}

#[cycle(tag)]
fn dot(
    alloc: Global,
    plan: Plan,
    k: &mut u32,
    at: At,
    a: &Expr,
    n: &Bytes,
) -> Result<held::Expr, NoMemory>
    ensures { IfOk result (λ e. Tags plan.max k.old k.new (tagged.one (λ a. u.Dot a n.now) (tagged.tag plan.max (hooks_seen plan.hooks) (bare (view a.now)))) (bare (view e))) }
{
    let n = bytes(alloc, n)?;
    let a = boxed(alloc, plan, k, a)?;
    Ok(held::Expr::new(Expr::Dot(at, a.open(), n)))
}

#[cycle(tag)]
fn arrow(
    alloc: Global,
    plan: Plan,
    k: &mut u32,
    at: At,
    a: &Expr,
    n: &Bytes,
) -> Result<held::Expr, NoMemory>
    ensures { IfOk result (λ e. Tags plan.max k.old k.new (tagged.one (λ a. u.Arrow a n.now) (tagged.tag plan.max (hooks_seen plan.hooks) (bare (view a.now)))) (bare (view e))) }
{
    let n = bytes(alloc, n)?;
    let a = boxed(alloc, plan, k, a)?;
    Ok(held::Expr::new(Expr::Arrow(at, a.open(), n)))
}

/// The builtin, in whose operands no call is a site.
#[cycle(tag)]
fn builtin(
    alloc: Global,
    plan: Plan,
    k: &mut u32,
    at: At,
    xs: &Items<Expr>,
) -> Result<held::Expr, NoMemory>
    ensures { IfOk result (λ e. Tags plan.max k.old k.new (tagged.one u.Builtin (exprs_tagging plan.max no_hooks xs.now)) (bare (view e))) }
{
    let xs = exprs(alloc, plan.operand(), k, xs)?;
    Ok(held::Expr::new(make::builtin(at, xs.open())))
}

#[cycle(tag)]
fn boxed(alloc: Global, plan: Plan, k: &mut u32, a: &Expr) -> Result<held::ExprBox, NoMemory>
    ensures { IfOk result (λ e. Tags plan.max k.old k.new (tagged.tag plan.max (hooks_seen plan.hooks) (bare (view a.now))) (bare (view e.value))) }
{
    let a = expr(alloc, plan, k, a)?;
    Ok(a.boxed(alloc)?)
}

/// The arguments of a site's call, with the token behind them.
#[cycle(tag)]
fn site_arguments(
    alloc: Global,
    plan: Plan,
    k: &mut u32,
    at: At,
    xs: &Items<Expr>,
) -> Result<held::Exprs, NoMemory>
    ensures { IfOk result (λ ys. Tags plan.max k.old k.new (arguments_tagging plan.max (exprs_tagging plan.max (hooks_seen plan.hooks) xs.now)) (bare_exprs (exprs_of ys))) }
{
    let token = token(alloc, at, *k)?;
    *k = next_token(plan.max, *k);
    let xs = exprs(alloc, plan, k, xs)?;
    with_last(xs, token.open())
}

#[cycle(tag)]
fn exprs(alloc: Global, plan: Plan, k: &mut u32, xs: &Items<Expr>) -> Result<held::Exprs, NoMemory>
    ensures { IfOk result (λ ys. Tags plan.max k.old k.new (exprs_tagging plan.max (hooks_seen plan.hooks) xs.now) (bare_exprs (exprs_of ys))) }
{
    let mut ys = held::Exprs::new(alloc);
    for x in xs.as_slice() {
        let y = expr(alloc, plan, k, x)?;
        ys.push(y.open())?;
    }
    Ok(ys)
}

#[cycle(tag)]
fn maybe(
    alloc: Global,
    plan: Plan,
    k: &mut u32,
    a: &Option<Box<Expr>>,
) -> Result<Option<Box<Expr>>, NoMemory>
    ensures { IfOk result (λ e. Tags plan.max k.old k.new (tagged.tag_maybe plan.max (hooks_seen plan.hooks) (bare_maybe (boxed_expr a.now))) (bare_maybe (boxed_expr e))) }
{
    match a {
        Some(a) => {
            let a = boxed(alloc, plan, k, a)?;
            Ok(Some(a.open()))
        }
        None => Ok(None),
    }
}

#[cycle(tag)]
fn type_name(
    alloc: Global,
    plan: Plan,
    k: &mut u32,
    t: &TypeName,
) -> Result<held::TypeName, NoMemory>
    ensures { IfOk result (λ n. Tags {A = u.Specs × u.MaybeDeclarator} plan.max k.old k.new
        (two (λ x y. (x, y)) (specs_tagging plan.max (hooks_seen plan.hooks) t.now.specs) (tagged.tag_maybe_declarator plan.max (hooks_seen plan.hooks) (bare_maybe_declarator (boxed_declarator t.now.declarator))))
        (bare_specs (specs_of n.specs), bare_maybe_declarator (boxed_declarator n.declarator))) }
{
    let specs = specs(alloc, plan, k, &t.specs)?;
    let declarator = maybe_declarator(alloc, plan, k, &t.declarator)?;
    Ok(held::TypeName::new(TypeName {
        at: t.at,
        specs: specs.open(),
        declarator,
    }))
}

#[cycle(tag)]
pub fn specs(
    alloc: Global,
    plan: Plan,
    k: &mut u32,
    xs: &Items<Spec>,
) -> Result<held::Specs, NoMemory>
    ensures { IfOk result (λ ys. Tags plan.max k.old k.new (specs_tagging plan.max (hooks_seen plan.hooks) xs.now) (bare_specs (specs_of ys))) }
{
    let mut ys = held::Specs::new(alloc);
    for x in xs.as_slice() {
        let y = spec(alloc, plan, k, x)?;
        ys.push(y)?;
    }
    Ok(ys)
}

#[cycle(tag)]
fn spec(alloc: Global, plan: Plan, k: &mut u32, s: &Spec) -> Result<Spec, NoMemory>
    ensures { IfOk result (λ y. HeadsList (specs_tagging plan.max (hooks_seen plan.hooks)) put_spec plan.max k.old k.new s.now y) }
{
    match s {
        Spec::Keyword(w) => Ok(Spec::Keyword(*w)),
        Spec::Typedef(n) => {
            let n = bytes(alloc, n)?;
            Ok(Spec::Typedef(n))
        }
        Spec::Attribute(a) => {
            let a = attribute(alloc, a)?;
            Ok(Spec::Attribute(a))
        }
        Spec::Record(r) => {
            let r = record(alloc, plan, k, r)?;
            Ok(Spec::Record(r))
        }
        Spec::Enum(e) => {
            let e = enumeration(alloc, plan, k, e)?;
            Ok(Spec::Enum(e))
        }
    }
}

#[cycle(tag)]
fn record(alloc: Global, plan: Plan, k: &mut u32, r: &Record) -> Result<Record, NoMemory>
    ensures { IfOk result (λ y. HeadsRecord plan.max (hooks_seen plan.hooks) k.old k.new r.now y) }
{
    let tag = maybe_bytes(alloc, &r.tag)?;
    match &r.fields {
        Some(fs) => {
            let fs = fields(alloc, plan, k, fs)?;
            Ok(with_fields(r, tag, Some(fs.open())))
        }
        None => Ok(with_fields(r, tag, None)),
    }
}

#[cycle(tag)]
fn fields(
    alloc: Global,
    plan: Plan,
    k: &mut u32,
    xs: &Items<Field>,
) -> Result<held::Fields, NoMemory>
    ensures { IfOk result (λ ys. Tags plan.max k.old k.new (fields_tagging plan.max (hooks_seen plan.hooks) xs.now) (bare_fields (fields_of ys))) }
{
    let mut ys = held::Fields::new(alloc);
    for x in xs.as_slice() {
        let y = field(alloc, plan, k, x)?;
        ys.push(y)?;
    }
    Ok(ys)
}

#[cycle(tag)]
fn field(alloc: Global, plan: Plan, k: &mut u32, f: &Field) -> Result<Field, NoMemory>
    ensures { IfOk result (λ y. HeadsList (fields_tagging plan.max (hooks_seen plan.hooks)) put_field plan.max k.old k.new f.now y) }
{
    let specs = specs(alloc, plan, k, &f.specs)?;
    let declarators = declarators(alloc, plan, k, &f.declarators)?;
    Ok(Field {
        at: f.at,
        specs: specs.open(),
        declarators: declarators.open(),
    })
}

#[cycle(tag)]
fn declarators(
    alloc: Global,
    plan: Plan,
    k: &mut u32,
    xs: &Items<Declarator>,
) -> Result<held::Declarators, NoMemory>
    ensures { IfOk result (λ ys. Tags plan.max k.old k.new (declarators_tagging plan.max (hooks_seen plan.hooks) xs.now) (bare_declarators (declarators_of ys))) }
{
    let mut ys = held::Declarators::new(alloc);
    for x in xs.as_slice() {
        let y = declarator(alloc, plan, k, x)?;
        ys.push(y.open())?;
    }
    Ok(ys)
}

#[cycle(tag)]
fn enumeration(alloc: Global, plan: Plan, k: &mut u32, e: &Enum) -> Result<Enum, NoMemory>
    ensures { IfOk result (λ y. HeadsEnum plan.max (hooks_seen plan.hooks) k.old k.new e.now y) }
{
    let tag = maybe_bytes(alloc, &e.tag)?;
    let list = maybe_list(alloc, plan, k, &e.list)?;
    Ok(Enum {
        at: e.at,
        tag,
        list,
    })
}

#[cycle(tag)]
fn maybe_list(
    alloc: Global,
    plan: Plan,
    k: &mut u32,
    l: &Option<EnumeratorList>,
) -> Result<Option<EnumeratorList>, NoMemory>
    ensures { IfOk result (λ m. Tags plan.max k.old k.new (tagged.tag_list plan.max (hooks_seen plan.hooks) (bare_list (list_of l.now))) (bare_list (list_of m))) }
{
    match l {
        Some(l) => {
            let enumerators = enumerators(alloc, plan, k, &l.enumerators)?;
            Ok(Some(make::enumerator_list(enumerators.open(), l.has_comma)))
        }
        None => Ok(None),
    }
}

#[cycle(tag)]
fn enumerators(
    alloc: Global,
    plan: Plan,
    k: &mut u32,
    xs: &Items<Enumerator>,
) -> Result<held::Enumerators, NoMemory>
    ensures { IfOk result (λ ys. Tags plan.max k.old k.new (enumerators_tagging plan.max (hooks_seen plan.hooks) xs.now) (bare_enumerators (enumerators_of ys))) }
{
    let mut ys = held::Enumerators::new(alloc);
    for x in xs.as_slice() {
        let y = enumerator(alloc, plan, k, x)?;
        ys.push(y)?;
    }
    Ok(ys)
}

#[cycle(tag)]
fn enumerator(
    alloc: Global,
    plan: Plan,
    k: &mut u32,
    e: &Enumerator,
) -> Result<Enumerator, NoMemory>
    ensures { IfOk result (λ y. HeadsList (enumerators_tagging plan.max (hooks_seen plan.hooks)) put_enumerator plan.max k.old k.new e.now y) }
{
    let name = bytes(alloc, &e.name)?;
    let value = maybe(alloc, plan, k, &e.value)?;
    Ok(Enumerator {
        at: e.at,
        name,
        value,
    })
}

#[cycle(tag)]
fn maybe_declarator(
    alloc: Global,
    plan: Plan,
    k: &mut u32,
    d: &Option<Box<Declarator>>,
) -> Result<Option<Box<Declarator>>, NoMemory>
    ensures { IfOk result (λ e. Tags plan.max k.old k.new (tagged.tag_maybe_declarator plan.max (hooks_seen plan.hooks) (bare_maybe_declarator (boxed_declarator d.now))) (bare_maybe_declarator (boxed_declarator e))) }
{
    match d {
        Some(d) => {
            let d = inner(alloc, plan, k, d)?;
            Ok(Some(d.open()))
        }
        None => Ok(None),
    }
}

#[cycle(tag)]
pub fn declarator(
    alloc: Global,
    plan: Plan,
    k: &mut u32,
    d: &Declarator,
) -> Result<held::Declarator, NoMemory>
    ensures { IfOk result (λ e. Tags plan.max k.old k.new (tagged.tag_declarator plan.max (hooks_seen plan.hooks) (bare_declarator (view_declarator d.now))) (bare_declarator (view_declarator e))) }
{
    match d {
        Declarator::PointerTo(at, qs, d) => {
            let qs = qualifiers(alloc, qs)?;
            let d = inner(alloc, plan, k, d)?;
            Ok(held::Declarator::new(Declarator::PointerTo(*at, qs, d.open())))
        }
        Declarator::Declared(at, n) => {
            let n = maybe_bytes(alloc, n)?;
            Ok(held::Declarator::new(Declarator::Declared(*at, n)))
        }
        Declarator::Group(at, d) => {
            let d = inner(alloc, plan, k, d)?;
            Ok(held::Declarator::new(Declarator::Group(*at, d.open())))
        }
        Declarator::ArrayOf(at, d, n) => {
            let d = inner(alloc, plan, k, d)?;
            let n = maybe(alloc, plan, k, n)?;
            Ok(held::Declarator::new(Declarator::ArrayOf(*at, d.open(), n)))
        }
        Declarator::FunctionOf(at, d, ps) => {
            let d = declarator(alloc, plan, k, d)?;
            let ps = params(alloc, plan, k, ps)?;
            made::function_of(alloc, *at, d, ps)
        }
    }
}

/// A declarator in another.
#[cycle(tag)]
fn inner(
    alloc: Global,
    plan: Plan,
    k: &mut u32,
    d: &Declarator,
) -> Result<held::DeclaratorBox, NoMemory>
    ensures { IfOk result (λ e. Tags plan.max k.old k.new (tagged.tag_declarator plan.max (hooks_seen plan.hooks) (bare_declarator (view_declarator d.now))) (bare_declarator (view_declarator e.value))) }
{
    let d = declarator(alloc, plan, k, d)?;
    Ok(d.boxed(alloc)?)
}

#[cycle(tag)]
fn params(
    alloc: Global,
    plan: Plan,
    k: &mut u32,
    xs: &Items<Param>,
) -> Result<held::Params, NoMemory>
    ensures { IfOk result (λ ys. Tags plan.max k.old k.new (params_tagging plan.max (hooks_seen plan.hooks) xs.now) (bare_params (params_of ys))) }
{
    let mut ys = held::Params::new(alloc);
    for x in xs.as_slice() {
        let y = param(alloc, plan, k, x)?;
        ys.push(y)?;
    }
    Ok(ys)
}

#[cycle(tag)]
fn param(alloc: Global, plan: Plan, k: &mut u32, p: &Param) -> Result<Param, NoMemory>
    ensures { IfOk result (λ y. HeadsList (params_tagging plan.max (hooks_seen plan.hooks)) put_param plan.max k.old k.new p.now y) }
{
    let specs = specs(alloc, plan, k, &p.specs)?;
    let declarator = maybe_declarator(alloc, plan, k, &p.declarator)?;
    Ok(Param {
        at: p.at,
        specs: specs.open(),
        declarator,
    })
}
