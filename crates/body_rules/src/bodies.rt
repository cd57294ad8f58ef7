//! Whether a struct, union or enumeration with a body in braces stands in an expression.

ghost use Rattle.std.specs.Prelude.{◌≡◌, ◌||◌};
ghost use Rattle.c_tree.specs.View.{view, view_declarator, view_enum, view_spec, view_type_name, exprs_of, specs_of, params_of, boxed_expr, boxed_declarator};
ghost use Rattle.c_tree.specs.Marked as tree;
ghost use Rattle.c_rules.specs.Bodies as rules;
ghost use Rattle.body_rules.specs.Sizes.{size_has_body};

use c_tree::{Declarator, Enum, Expr, Param, Spec, TypeName};
use tok_base::Items;

#[cycle(bodies)]
fn has_body(e: &Expr) -> bool
    ensures { result ≡ rules.has_body (view e.now) }
{
    match e {
        Expr::Comma(_, a, b) => has_body(a) || has_body(b),
        Expr::Assign(_, a, _, b) => has_body(a) || has_body(b),
        Expr::Cond(_, c, a, b) => has_body(c) || has_body(a) || has_body(b),
        Expr::Binary(_, a, _, b) => has_body(a) || has_body(b),
        Expr::Cast(_, name, a) => name_has_body(name) || has_body(a),
        Expr::Prefix(_, _, a) => has_body(a),
        Expr::SizeofExpr(_, a) => has_body(a),
        Expr::SizeofType(_, name) => name_has_body(name),
        Expr::Index(_, a, b) => has_body(a) || has_body(b),
        Expr::Call(_, f, xs) => has_body(f) || any_has_body(xs),
        Expr::Dot(_, a, _) => has_body(a),
        Expr::Arrow(_, a, _) => has_body(a),
        Expr::Post(_, a, _) => has_body(a),
        Expr::Name(_, _) => false,
        Expr::Number(_, _) => false,
        Expr::Char(_, _) => false,
        Expr::Text(_, _) => false,
        Expr::Paren(_, a) => has_body(a),
        Expr::Builtin(_, xs) => any_has_body(xs),
    }
}

/// Whether a struct, union or enumeration with a body in braces stands in one of these expressions.
#[cycle(bodies)]
pub fn any_has_body(xs: &Items<Expr>) -> bool
    ensures { result ≡ rules.any_has_body (exprs_of xs.now) }
{
    for x in xs.as_slice() {
        if has_body(x) {
            return true;
        }
    }
    false
}

#[cycle(bodies)]
fn name_has_body(name: &TypeName) -> bool
    ensures { result ≡ rules.name_has_body (view_type_name name.now) }
{
    specs_have_body(&name.specs) || maybe_has_body(&name.declarator)
}

fn specs_have_body(specs: &Items<Spec>) -> bool
    ensures { result ≡ rules.specs_have_body (specs_of specs.now) }
{
    for spec in specs.as_slice() {
        if spec_has_body(spec) {
            return true;
        }
    }
    false
}

fn spec_has_body(spec: &Spec) -> bool
    ensures { (more : tree.Specs) → rules.specs_have_body (view_spec spec.now more) ≡ (result || rules.specs_have_body more) }
{
    match spec {
        Spec::Keyword(_) => false,
        Spec::Typedef(_) => false,
        Spec::Attribute(_) => false,
        Spec::Record(record) => record.fields.is_some(),
        Spec::Enum(enumeration) => enum_has_body(enumeration),
    }
}

fn enum_has_body(enumeration: &Enum) -> bool
    ensures { (more : tree.Specs) → rules.specs_have_body (view_enum enumeration.now more) ≡ (result || rules.specs_have_body more) }
{
    match &enumeration.list {
        Some(_) => true,
        None => false,
    }
}

#[cycle(bodies)]
fn maybe_has_body(declarator: &Option<Box<Declarator>>) -> bool
    ensures { result ≡ rules.maybe_has_body (boxed_declarator declarator.now) }
{
    match declarator {
        Some(declarator) => declarator_has_body(declarator),
        None => false,
    }
}

#[cycle(bodies)]
fn declarator_has_body(declarator: &Declarator) -> bool
    ensures { result ≡ rules.declarator_has_body (view_declarator declarator.now) }
{
    match declarator {
        Declarator::PointerTo(_, _, d) => declarator_has_body(d),
        Declarator::Declared(_, _) => false,
        Declarator::Group(_, d) => declarator_has_body(d),
        Declarator::ArrayOf(_, d, size) => declarator_has_body(d) || size_has_body(size),
        Declarator::FunctionOf(_, d, params) => declarator_has_body(d) || params_have_body(params),
    }
}

#[cycle(bodies)]
fn size_has_body(size: &Option<Box<Expr>>) -> bool
    ensures { result ≡ size_has_body (boxed_expr size.now) }
{
    match size {
        Some(size) => has_body(size),
        None => false,
    }
}

#[cycle(bodies)]
fn params_have_body(params: &Items<Param>) -> bool
    ensures { result ≡ rules.params_have_body (params_of params.now) }
{
    for param in params.as_slice() {
        if param_has_body(param) {
            return true;
        }
    }
    false
}

#[cycle(bodies)]
fn param_has_body(param: &Param) -> bool
    ensures { result ≡ (rules.specs_have_body (specs_of param.now.specs) || rules.maybe_has_body (boxed_declarator param.now.declarator)) }
{
    specs_have_body(&param.specs) || maybe_has_body(&param.declarator)
}
