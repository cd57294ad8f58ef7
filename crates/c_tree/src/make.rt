//! The forms that hold lists, each with what it is seen as.

ghost use Rattle.c_tree.specs.Marked as m;
ghost use Rattle.c_tree.specs.View.{view, view_declarator, view_enumerator_list, view_init, view_spec, view_stmt, view_type_name};
ghost use Rattle.c_tree.specs.View.{body_of, enumerators_of, exprs_of, inits_of, items_of, list_of, params_of};
ghost use Rattle.std.specs.Prelude.{◌≡◌};

use crate::expression::{
    Declarator, Enum, Enumerator, EnumeratorList, Expr, Field, Param, Record, Spec, TypeName,
};
use crate::operator::At;
use crate::statement::{Block, BlockItem, Init, Stmt};
use tok_base::{Bytes, Items};

/// `f(args)`.
pub fn call(at: At, f: Box<Expr>, args: Items<Expr>) -> Expr
    ensures { view result ≡ m.Call at (view f.value) (exprs_of args) }
{
    Expr::Call(at, f, args)
}

/// `__builtin_infer_alloc_token(args)`.
pub fn builtin(at: At, args: Items<Expr>) -> Expr
    ensures { view result ≡ m.Builtin at (exprs_of args) }
{
    Expr::Builtin(at, args)
}

/// `(name)a`.
pub fn cast(at: At, name: Box<TypeName>, a: Box<Expr>) -> Expr
    ensures { view result ≡ m.Cast at (view_type_name name.value) (view a.value) }
{
    Expr::Cast(at, name, a)
}

/// `sizeof(name)`.
pub fn sizeof_type(at: At, name: Box<TypeName>) -> Expr
    ensures { view result ≡ m.SizeofType at (view_type_name name.value) }
{
    Expr::SizeofType(at, name)
}

/// `struct tag { fields }` or `union tag { fields }`, without a tag or without a body.
pub fn record(at: At, is_union: bool, tag: Option<Bytes>, fields: Option<Items<Field>>) -> Spec
    ensures { (ss : m.Specs) → view_spec result ss ≡ m.Record at is_union tag (body_of fields) ss }
{
    Spec::Record(Record {
        at,
        is_union,
        tag,
        fields,
    })
}

/// `enum tag { list }`, without a tag or without a list.
pub fn enumeration(at: At, tag: Option<Bytes>, list: Option<EnumeratorList>) -> Spec
    ensures { (ss : m.Specs) → view_spec result ss ≡ m.Enum at tag (list_of list) ss }
{
    Spec::Enum(Enum { at, tag, list })
}

/// What stands between the braces of an `enum`, with a comma behind it or without one.
pub fn enumerator_list(enumerators: Items<Enumerator>, has_comma: bool) -> EnumeratorList
    ensures { view_enumerator_list result ≡ m.list (enumerators_of enumerators) has_comma }
{
    EnumeratorList {
        enumerators,
        has_comma,
    }
}

/// `d(params)`.
pub fn function_of(at: At, d: Box<Declarator>, params: Items<Param>) -> Declarator
    ensures { view_declarator result ≡ m.FunctionOf at (view_declarator d.value) (params_of params) }
{
    Declarator::FunctionOf(at, d, params)
}

/// `{ list }`, with a comma behind the list or without one.
pub fn braces(at: At, list: Items<Init>, has_comma: bool) -> Init
    ensures { view_init result ≡ m.Braces at (inits_of list) has_comma }
{
    Init::Braces(at, list, has_comma)
}

/// `{ items }`.
pub fn block(at: At, items: Items<BlockItem>) -> Stmt
    ensures { view_stmt result ≡ m.Block at (items_of items) }
{
    Stmt::Block(Block { at, items })
}
