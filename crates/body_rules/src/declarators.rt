//! What a declarator declares, and where (ISO/IEC 9899:2018, 6.7.6).

ghost use Rattle.std.specs.Prelude.{◌≡◌, ◌<◌, false, map, option_copied};
ghost use Rattle.c_tree.specs.View.{view, view_declarator, view_qualifier, boxed_declarator, params_of};
ghost use Rattle.c_types.specs.CTypes.{CType};
ghost use Rattle.c_types.specs.Plain as plain;
ghost use Rattle.c_rules.specs.Specifiers as specifiers;
ghost use Rattle.c_rules.specs.Unit as unit;
ghost use Rattle.c_rules.specs.Walk as walk;
ghost use Rattle.body_rules.specs.Calls.{calls};

use c_tree::{At, Declarator, Expr, Param, Qualifier};
use tok_base::{Bytes, Items};

/// The node of an expression.
pub fn at_of_expr(e: &Expr) -> At
    ensures { result ≡ walk.at_of_expr (view e.now) }
{
    match e {
        Expr::Comma(at, _, _) => *at,
        Expr::Assign(at, _, _, _) => *at,
        Expr::Cond(at, _, _, _) => *at,
        Expr::Binary(at, _, _, _) => *at,
        Expr::Cast(at, _, _) => *at,
        Expr::Prefix(at, _, _) => *at,
        Expr::SizeofExpr(at, _) => *at,
        Expr::SizeofType(at, _) => *at,
        Expr::Index(at, _, _) => *at,
        Expr::Call(at, _, _) => *at,
        Expr::Dot(at, _, _) => *at,
        Expr::Arrow(at, _, _) => *at,
        Expr::Post(at, _, _) => *at,
        Expr::Name(at, _) => *at,
        Expr::Number(at, _) => *at,
        Expr::Char(at, _) => *at,
        Expr::Text(at, _) => *at,
        Expr::Paren(at, _) => *at,
        Expr::Builtin(at, _) => *at,
    }
}

/// The outermost node of a declarator.
pub fn at_of(declarator: &Declarator) -> At
    ensures { result ≡ walk.at_of (view_declarator declarator.now) }
{
    match declarator {
        Declarator::PointerTo(at, _, _) => *at,
        Declarator::Declared(at, _) => *at,
        Declarator::Group(at, _) => *at,
        Declarator::ArrayOf(at, _, _) => *at,
        Declarator::FunctionOf(at, _, _) => *at,
    }
}

/// The outermost node of a declarator, or without one the node that would have it.
pub fn at_of_maybe(at: At, declarator: &Option<Box<Declarator>>) -> At
    ensures { result ≡ walk.at_of_maybe at (boxed_declarator declarator.now) }
{
    match declarator {
        Some(declarator) => at_of(declarator),
        None => at,
    }
}

fn text_of(name: &Option<Bytes>) -> Option<&[u8]>
    ensures { option_copied result ≡ name.now }
{
    match name {
        Some(name) => Some(name.as_slice()),
        None => None,
    }
}

/// The name that a declarator declares; an abstract declarator has none.
pub fn declared_name(declarator: &Declarator) -> Option<&[u8]>
    ensures { option_copied result ≡ walk.declared_name (view_declarator declarator.now) }
{
    match declarator {
        Declarator::Declared(_, name) => text_of(name),
        Declarator::Group(_, d) => declared_name(d),
        Declarator::PointerTo(_, _, d) => declared_name(d),
        Declarator::ArrayOf(_, d, _) => declared_name(d),
        Declarator::FunctionOf(_, d, _) => declared_name(d),
    }
}

/// The name that a declarator declares with the base type itself, perhaps in parentheses.
pub fn bare_name(declarator: &Declarator) -> Option<&[u8]>
    ensures { option_copied result ≡ unit.bare_name (view_declarator declarator.now) }
{
    match declarator {
        Declarator::Declared(_, name) => text_of(name),
        Declarator::Group(_, d) => bare_name(d),
        Declarator::PointerTo(_, _, _) => None,
        Declarator::ArrayOf(_, _, _) => None,
        Declarator::FunctionOf(_, _, _) => None,
    }
}

/// Whether a declarator stands there that declares a name.
pub fn is_named(declarator: &Option<Box<Declarator>>) -> bool
    ensures { result ≡ walk.is_named (boxed_declarator declarator.now) }
{
    match declarator {
        Some(declarator) => declared_name(declarator).is_some(),
        None => false,
    }
}

/// Whether a parameter stands alone, without a declarator; `more` are the parameters behind it.
pub fn is_alone(declarator: &Option<Box<Declarator>>, more: &[Param]) -> bool
    ensures { result ≡ walk.is_alone (boxed_declarator declarator.now) (params_of more.now) }
{
    match declarator {
        Some(_) => false,
        None => more.is_empty(),
    }
}

/// Whether a declarator declares a function, seen before it is read: by the form next to the name, or
/// where there is none by the base type, which is a function's or not.
pub fn calls_at_name(declarator: &Declarator, is_base_function: bool) -> bool
    ensures { (base : CType) → plain.is_function (plain.plain base) ≡ is_base_function → result ≡ unit.next_to_name false false base (view_declarator declarator.now) }
{
    calls(declarator, is_base_function)
}

fn calls(declarator: &Declarator, is_call: bool) -> bool
    ensures { result ≡ calls is_call (view_declarator declarator.now) }
{
    match declarator {
        Declarator::Declared(_, _) => is_call,
        Declarator::Group(_, d) => calls(d, is_call),
        Declarator::PointerTo(_, _, d) => calls(d, false),
        Declarator::ArrayOf(_, d, _) => calls(d, false),
        Declarator::FunctionOf(_, d, _) => calls(d, true),
    }
}

/// The qualifiers behind a `*`: const is 1, volatile 2, restrict 4.
pub fn qualifiers_in(qualifiers: &Items<Qualifier>) -> u8
    ensures is { result ≡ specifiers.qualifiers_in (map view_qualifier qualifiers.now) }
    ensures small { result < 8 }
{
    let mut met = 0;
    for qualifier in qualifiers.as_slice() {
        met |= number_of(*qualifier);
    }
    met
}

fn number_of(qualifier: Qualifier) -> u8
    ensures is { result ≡ specifiers.qualifier (view_qualifier qualifier) }
    ensures small { result < 8 }
{
    match qualifier {
        Qualifier::Const => 1,
        Qualifier::Volatile => 2,
        Qualifier::Restrict => 4,
    }
}
