//! The forms whose lists the reader's definitions write in their own way, from parts that are trees.

ghost use Rattle.std.specs.Prelude.{◌≡◌, Some, map};
ghost use Rattle.c_reader.specs.MarkedParts as reader;
ghost use Rattle.c_tree.specs.Marked as marked;
ghost use Rattle.c_symbol.specs.Shown.{shown, shown_argument, shown_entry, shown_type, shown_block_item, shown_declarator, shown_enumerator, shown_external, shown_field, shown_init, shown_param, shown_spec, shown_specs, shown_stmt};

use c_tree::{
    At, AttributeArgument, Block, BlockItem, Declarator, Definition, Entry, Enumerator, Expr,
    External, Field, Init, Param, Spec, Stmt, TypeName, make,
};
use tok_base::{Bytes, Items};

/// `f(args)`
pub(crate) fn call(at: At, f: Box<Expr>, args: Items<Expr>) -> Expr
    ensures { shown result ≡ marked.Call at (shown f.value) (reader.exprs_of (map shown args)) }
{
    Expr::Call(at, f, args)
}

/// `__builtin_infer_alloc_token(args)`
pub(crate) fn builtin(at: At, args: Items<Expr>) -> Expr
    ensures { shown result ≡ marked.Builtin at (reader.exprs_of (map shown args)) }
{
    make::builtin(at, args)
}

/// `(ty) a`
pub(crate) fn cast(at: At, ty: Box<TypeName>, a: Box<Expr>) -> Expr
    ensures { shown result ≡ marked.Cast at (shown_type ty.value) (shown a.value) }
{
    Expr::Cast(at, ty, a)
}

/// `sizeof (ty)`
pub(crate) fn sizeof_type(at: At, ty: Box<TypeName>) -> Expr
    ensures { shown result ≡ marked.SizeofType at (shown_type ty.value) }
{
    Expr::SizeofType(at, ty)
}

/// An entry of an attribute that has these arguments.
#[tactic(auto, unfolding(c_symbol::specs::Shown::shown_entry, c_symbol::specs::Shown::shown_argument))]
pub(crate) fn entry(name: Bytes, arguments: Items<AttributeArgument>) -> Entry
    ensures { shown_entry result ≡ record { name = name; arguments = Some (map shown_argument arguments) } }
{
    Entry {
        name,
        arguments: Some(arguments),
    }
}

/// `d(params)`
pub(crate) fn function_of(at: At, d: Box<Declarator>, params: Items<Param>) -> Declarator
    ensures { shown_declarator result ≡ marked.FunctionOf at (shown_declarator d.value) (reader.params_of (map shown_param params)) }
{
    Declarator::FunctionOf(at, d, params)
}

/// `struct tag { fields }` or `union tag { fields }`, perhaps without a tag
pub(crate) fn record(at: At, is_union: bool, tag: Option<Bytes>, fields: Items<Field>) -> Spec
    ensures { shown_spec result ≡ reader.records at is_union tag (marked.body (reader.fields_of (map shown_field fields))) }
{
    make::record(at, is_union, tag, Some(fields))
}

/// `enum tag { list }`, perhaps without a tag, and with a comma behind the list where it has one
pub(crate) fn enumeration(
    at: At,
    tag: Option<Bytes>,
    list: Items<Enumerator>,
    has_comma: bool,
) -> Spec
    ensures { shown_spec result ≡ reader.enums at tag (marked.list (reader.enumerators_of (map shown_enumerator list)) has_comma) }
{
    make::enumeration(at, tag, Some(make::enumerator_list(list, has_comma)))
}

/// A field of a record.
#[tactic(auto, unfolding(c_symbol::specs::Shown::shown_field, c_symbol::specs::Shown::shown_specs))]
pub(crate) fn field(at: At, specs: Items<Spec>, declarators: Items<Declarator>) -> Field
    ensures { shown_field result ≡ record { at = at; specs = shown_specs specs; declarators = reader.declarators_of (map shown_declarator declarators) } }
{
    Field {
        at,
        specs,
        declarators,
    }
}

/// `{ list }`, with a comma behind the list where it has one
pub(crate) fn braces(at: At, list: Items<Init>, has_comma: bool) -> Init
    ensures { shown_init result ≡ marked.Braces at (reader.inits_of (map shown_init list)) has_comma }
{
    make::braces(at, list, has_comma)
}

/// `{ items }`
pub(crate) fn block(at: At, items: Items<BlockItem>) -> Stmt
    ensures { shown_stmt result ≡ marked.Block at (reader.items_of (map shown_block_item items)) }
{
    make::block(at, items)
}

/// `specs declarator { items }`
pub(crate) fn defines(
    at: At,
    specs: Items<Spec>,
    declarator: Declarator,
    body_at: At,
    items: Items<BlockItem>,
) -> External
    ensures { shown_external result ≡ marked.Definition at (shown_specs specs) (shown_declarator declarator) body_at (reader.items_of (map shown_block_item items)) }
{
    let body = Block { at: body_at, items };
    External::Definition(Definition {
        at,
        specs,
        declarator,
        body,
    })
}
