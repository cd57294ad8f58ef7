//! Specifiers, declarators and attributes, each with what it is seen as.

ghost use Rattle.std.specs.Prelude.{◌≡◌, [], ◌∷◌, ◌++◌, Some, None, IfOk, map};
ghost use Rattle.c_reader.specs.MarkedParts as reader;
ghost use Rattle.c_tree.specs.Marked as marked;
ghost use Rattle.c_tree.specs.View.{view_qualifier};
ghost use Rattle.c_symbol.specs.Shown.{shown, shown_argument, shown_attribute, shown_declarator, shown_entry, shown_enumerator, shown_field, shown_maybe_declarator, shown_param, shown_qualifiers, shown_spec, shown_specs, shown_value};

use crate::raw;
use c_held::{
    Arguments, Attributes, Declarator, DeclaratorBox, Declarators, Entries, Enumerators, Expr,
    ExprBox, Fields, Params, Specs,
};
use c_tree::{
    At, Attribute, AttributeArgument, Entry, Enumerator, Field, Param, Qualifier, Spec, make,
};
use std::alloc::{AllocError, Global};
use tok_base::{Bytes, Items};

// ---- declarators

/// A name.
#[tactic(auto, unfolding(c_symbol::specs::Shown::shown_declarator))]
pub fn declared(alloc: Global, at: At, text: &[u8]) -> Result<Declarator, AllocError>
    ensures { IfOk result (λ d. shown_declarator d ≡ marked.Declared at (Some text.now)) }
{
    let name = Items::from_slice(alloc, text)?;
    Ok(Declarator::new(c_tree::Declarator::Declared(at, Some(name))))
}

/// A name that is absent.
#[tactic(auto, unfolding(c_symbol::specs::Shown::shown_declarator))]
pub fn nameless(at: At) -> Declarator
    ensures { shown_declarator result ≡ marked.Declared at None }
{
    Declarator::new(c_tree::Declarator::Declared(at, None))
}

/// `* qualifiers d`
#[tactic(auto, unfolding(c_symbol::specs::Shown::shown_declarator, c_symbol::specs::Shown::shown_qualifiers))]
pub fn pointer_to(
    alloc: Global,
    at: At,
    qualifiers: Items<Qualifier>,
    d: Declarator,
) -> Result<Declarator, AllocError>
    ensures { IfOk result (λ p. shown_declarator p ≡ marked.PointerTo at (shown_qualifiers qualifiers) (shown_declarator d)) }
{
    let d = d.boxed(alloc)?;
    Ok(Declarator::new(c_tree::Declarator::PointerTo(at, qualifiers, d.open())))
}

/// The qualifiers with one more.
#[tactic(auto, unfolding(c_symbol::specs::Shown::shown_qualifiers))]
pub fn with_qualifier(
    mut qualifiers: Items<Qualifier>,
    q: Qualifier,
) -> Result<Items<Qualifier>, AllocError>
    ensures { IfOk result (λ qs. shown_qualifiers qs ≡ shown_qualifiers qualifiers ++ view_qualifier q ∷ []) }
{
    qualifiers.push(q)?;
    Ok(qualifiers)
}

/// No qualifiers yet.
#[tactic(auto, unfolding(c_symbol::specs::Shown::shown_qualifiers))]
pub fn no_qualifiers(alloc: Global) -> Items<Qualifier>
    ensures { shown_qualifiers result ≡ [] }
{
    Items::new(alloc)
}

/// `(d)`
#[tactic(auto, unfolding(c_symbol::specs::Shown::shown_declarator))]
pub fn group(alloc: Global, at: At, d: Declarator) -> Result<Declarator, AllocError>
    ensures { IfOk result (λ g. shown_declarator g ≡ marked.Group at (shown_declarator d)) }
{
    let d = d.boxed(alloc)?;
    Ok(Declarator::new(c_tree::Declarator::Group(at, d.open())))
}

/// `d[]`
#[tactic(auto, unfolding(c_symbol::specs::Shown::shown_declarator))]
pub fn open_array(alloc: Global, at: At, d: Declarator) -> Result<Declarator, AllocError>
    ensures { IfOk result (λ g. shown_declarator g ≡ marked.ArrayOf at (shown_declarator d) marked.no_expr) }
{
    let d = d.boxed(alloc)?;
    Ok(Declarator::new(c_tree::Declarator::ArrayOf(at, d.open(), None)))
}

/// `d[a]`
#[tactic(auto, unfolding(c_symbol::specs::Shown::shown_declarator, c_symbol::specs::Shown::shown))]
pub fn array_of(alloc: Global, at: At, d: Declarator, a: Expr) -> Result<Declarator, AllocError>
    ensures { IfOk result (λ g. shown_declarator g ≡ marked.ArrayOf at (shown_declarator d) (marked.some_expr (shown a))) }
{
    let d = d.boxed(alloc)?;
    let a = a.boxed(alloc)?;
    Ok(Declarator::new(c_tree::Declarator::ArrayOf(at, d.open(), Some(a.open()))))
}

/// `d(params)`
pub fn function_of(
    alloc: Global,
    at: At,
    d: Declarator,
    params: Params,
) -> Result<Declarator, AllocError>
    ensures { IfOk result (λ f. shown_declarator f ≡ marked.FunctionOf at (shown_declarator d) (reader.params_of (map shown_param params))) }
{
    let d = d.boxed(alloc)?;
    Ok(Declarator::new(raw::function_of(at, d.open(), params.open())))
}

/// The declarators with one more.
pub fn with_declarator(declarators: Declarators, d: Declarator) -> Result<Declarators, AllocError>
    ensures { IfOk result (λ ds. map shown_declarator ds ≡ map shown_declarator declarators ++ shown_declarator d ∷ []) }
{
    declarators.with(d.open())
}

/// A declarator that is absent.
#[tactic(auto, unfolding(c_symbol::specs::Shown::shown_maybe_declarator))]
pub fn no_declarator() -> Option<DeclaratorBox>
    ensures { shown_maybe_declarator result ≡ marked.no_declarator }
{
    None
}

/// A declarator that is there.
#[tactic(auto, unfolding(c_symbol::specs::Shown::shown_maybe_declarator, c_symbol::specs::Shown::shown_declarator))]
pub fn some_declarator(alloc: Global, d: Declarator) -> Result<Option<DeclaratorBox>, AllocError>
    ensures { IfOk result (λ o. shown_maybe_declarator o ≡ marked.some_declarator (shown_declarator d)) }
{
    Ok(Some(d.boxed(alloc)?))
}

/// A parameter.
#[tactic(auto, unfolding(c_symbol::specs::Shown::shown_param, c_symbol::specs::Shown::shown_specs, c_symbol::specs::Shown::shown_maybe_declarator))]
pub fn param(at: At, specs: Specs, declarator: Option<DeclaratorBox>) -> Param
    ensures { shown_param result ≡ record { at = at; specs = shown_specs specs; declarator = shown_maybe_declarator declarator } }
{
    let declarator = match declarator {
        Some(d) => Some(d.open()),
        None => None,
    };
    Param {
        at,
        specs: specs.open(),
        declarator,
    }
}

/// The parameters with one more.
pub fn with_param(params: Params, p: Param) -> Result<Params, AllocError>
    ensures { IfOk result (λ ps. map shown_param ps ≡ map shown_param params ++ shown_param p ∷ []) }
{
    params.with(p)
}

// ---- specifiers

/// A typedef name as a specifier.
#[tactic(auto, unfolding(c_symbol::specs::Shown::shown_spec))]
pub fn typedef_name(alloc: Global, text: &[u8]) -> Result<Spec, AllocError>
    ensures { IfOk result (λ s. shown_spec s ≡ reader.typedef_name text.now) }
{
    Ok(Spec::Typedef(Items::from_slice(alloc, text)?))
}

/// The specifiers, which are all read.
pub fn all_specs(specs: Specs) -> Specs
    ensures { shown_specs result ≡ reader.specs_of (map shown_spec specs) }
{
    specs
}

/// `struct tag` or `union tag`
pub fn record_tag(at: At, is_union: bool, tag: Bytes) -> Spec
    ensures { shown_spec result ≡ reader.records at is_union (Some tag) marked.no_body }
{
    make::record(at, is_union, Some(tag), None)
}

/// `struct tag { fields }` or `union tag { fields }`, perhaps without a tag
pub fn record(at: At, is_union: bool, tag: Option<Bytes>, fields: Fields) -> Spec
    ensures { shown_spec result ≡ reader.records at is_union tag (marked.body (reader.fields_of (map shown_field fields))) }
{
    raw::record(at, is_union, tag, fields.open())
}

/// `enum tag`
pub fn enum_tag(at: At, tag: Bytes) -> Spec
    ensures { shown_spec result ≡ reader.enums at (Some tag) marked.no_list }
{
    make::enumeration(at, Some(tag), None)
}

/// `enum tag { list }`, perhaps without a tag, and with a comma behind the list where it has one
pub fn enumeration(at: At, tag: Option<Bytes>, list: Enumerators, has_comma: bool) -> Spec
    ensures { shown_spec result ≡ reader.enums at tag (marked.list (reader.enumerators_of (map shown_enumerator list)) has_comma) }
{
    raw::enumeration(at, tag, list.open(), has_comma)
}

/// A field of a record.
pub fn field(at: At, specs: Specs, declarators: Declarators) -> Field
    ensures { shown_field result ≡ record { at = at; specs = shown_specs specs; declarators = reader.declarators_of (map shown_declarator declarators) } }
{
    raw::field(at, specs.open(), declarators.open())
}

/// The fields with one more.
pub fn with_field(fields: Fields, f: Field) -> Result<Fields, AllocError>
    ensures { IfOk result (λ fs. map shown_field fs ≡ map shown_field fields ++ shown_field f ∷ []) }
{
    fields.with(f)
}

/// The value of an enumerator that has none.
#[tactic(auto, unfolding(c_symbol::specs::Shown::shown_value))]
pub fn no_value() -> Option<ExprBox>
    ensures { shown_value result ≡ marked.no_expr }
{
    None
}

/// The value of an enumerator.
#[tactic(auto, unfolding(c_symbol::specs::Shown::shown_value, c_symbol::specs::Shown::shown))]
pub fn some_value(alloc: Global, a: Expr) -> Result<Option<ExprBox>, AllocError>
    ensures { IfOk result (λ v. shown_value v ≡ marked.some_expr (shown a)) }
{
    Ok(Some(a.boxed(alloc)?))
}

/// An enumerator.
#[tactic(auto, unfolding(c_symbol::specs::Shown::shown_enumerator, c_symbol::specs::Shown::shown_value))]
pub fn enumerator(at: At, name: Bytes, value: Option<ExprBox>) -> Enumerator
    ensures { shown_enumerator result ≡ record { at = at; name = name; value = shown_value value } }
{
    let value = match value {
        Some(a) => Some(a.open()),
        None => None,
    };
    Enumerator { at, name, value }
}

/// The enumerators with one more.
pub fn with_enumerator(list: Enumerators, e: Enumerator) -> Result<Enumerators, AllocError>
    ensures { IfOk result (λ es. map shown_enumerator es ≡ map shown_enumerator list ++ shown_enumerator e ∷ []) }
{
    list.with(e)
}

// ---- attributes

/// A number as an argument of an attribute.
#[tactic(auto, unfolding(c_symbol::specs::Shown::shown_argument))]
pub fn number_argument(at: At, text: Bytes) -> AttributeArgument
    ensures { shown_argument result ≡ marked.NumberArgument at text }
{
    AttributeArgument::Number(at, text)
}

/// String literals as an argument of an attribute.
#[tactic(auto, unfolding(c_symbol::specs::Shown::shown_argument))]
pub fn text_argument(at: At, pieces: Items<Bytes>) -> AttributeArgument
    ensures { shown_argument result ≡ marked.TextArgument at pieces }
{
    AttributeArgument::Text(at, pieces)
}

/// The arguments of an entry with one more.
pub fn with_entry_argument(
    arguments: Arguments,
    x: AttributeArgument,
) -> Result<Arguments, AllocError>
    ensures { IfOk result (λ xs. map shown_argument xs ≡ map shown_argument arguments ++ shown_argument x ∷ []) }
{
    arguments.with(x)
}

/// The entries with one more, which has no arguments.
#[tactic(auto, unfolding(c_symbol::specs::Shown::shown_entry))]
pub fn with_plain_entry(entries: Entries, name: Bytes) -> Result<Entries, AllocError>
    ensures { IfOk result (λ es. map shown_entry es ≡ map shown_entry entries ++ record { name = name; arguments = None } ∷ []) }
{
    entries.with(Entry {
        name,
        arguments: None,
    })
}

/// The entries with one more, which has these arguments.
pub fn with_entry(
    entries: Entries,
    name: Bytes,
    arguments: Arguments,
) -> Result<Entries, AllocError>
    ensures { IfOk result (λ es. map shown_entry es ≡ map shown_entry entries ++ record { name = name; arguments = Some (map shown_argument arguments) } ∷ []) }
{
    entries.with(raw::entry(name, arguments.open()))
}

/// An attribute with these entries.
#[tactic(auto, unfolding(c_symbol::specs::Shown::shown_attribute, c_symbol::specs::Shown::shown_entry))]
pub fn attribute(at: At, entries: Entries) -> Attribute
    ensures { shown_attribute result ≡ record { at = at; entries = map shown_entry entries } }
{
    Attribute {
        at,
        entries: entries.open(),
    }
}

/// The attributes with one more.
pub fn with_attribute(attributes: Attributes, a: Attribute) -> Result<Attributes, AllocError>
    ensures { IfOk result (λ xs. map shown_attribute xs ≡ map shown_attribute attributes ++ shown_attribute a ∷ []) }
{
    attributes.with(a)
}
