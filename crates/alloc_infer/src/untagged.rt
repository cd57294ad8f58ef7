//! Which functions have their calls left as they are.

ghost use Rattle.std.specs.Prelude.{◌≡◌, ◌++◌, ◌||◌, [], codes, map, IfOk, OnOk};
ghost use Rattle.std.specs.List.{list_any};
ghost use Rattle.c_tree.specs.Marked as tree;
ghost use Rattle.c_tree.specs.Text.{same_text};
ghost use Rattle.c_tree.specs.View.{view_argument, view_arguments, view_attribute, view_declarator, view_entry, view_external, view_item, view_spec, view_unit, specs_of};
ghost use Rattle.c_constants.specs.Literals as literals;
ghost use Rattle.c_rules.specs.Attributes.{is_name_of};
ghost use Rattle.c_rules.specs.Unit as rules;
ghost use Rattle.alloc_infer.specs.Untagged as spec;

use body_rules::declared_name;
use c_constants::literal_bytes;
use c_tree::{Attribute, AttributeArgument, Declarator, Entry, External, Item, Spec, Unit};
use c_world::NameSet;
use std::alloc::Global;
use tok_base::{Bytes, Items, NoMemory};

#[tactic(auto, using(crate::proofs::Texts::same))]
fn is_text(name: &[u8], text: &[u8]) -> bool
    ensures { result ≡ same_text name.now text.now }
{
    name == text
}

/// Whether an attribute has this name, plain or between double underscores.
fn is_named(name: &[u8], plain: &[u8], marked: &[u8]) -> bool
    requires { marked.now ≡ codes "__" ++ (plain.now ++ codes "__") }
    ensures { result ≡ is_name_of name.now plain.now }
{
    is_text(name, plain) || is_text(name, marked)
}

/// The bytes of adjacent string literals.
fn text_bytes(alloc: Global, tokens: &Items<Bytes>) -> Result<Bytes, NoMemory>
    ensures { IfOk result (λ bytes. bytes ≡ literals.text_bytes tokens.now) }
{
    let mut bytes = Items::new(alloc);
    for token in tokens.as_slice() {
        let piece = literal_bytes(alloc, token.as_slice())?;
        bytes.append(piece)?;
    }
    Ok(bytes)
}

fn is_token_text(alloc: Global, tokens: &Items<Bytes>) -> Result<bool, NoMemory>
    ensures { IfOk result (λ b. b ≡ same_text (literals.text_bytes tokens.now) (codes "alloc-token")) }
{
    let bytes = text_bytes(alloc, tokens)?;
    Ok(is_text(bytes.as_slice(), b"alloc-token"))
}

fn names_tokens(alloc: Global, argument: &AttributeArgument) -> Result<bool, NoMemory>
    ensures { IfOk result (λ b. b ≡ spec.names_tokens (view_argument argument.now)) }
{
    match argument {
        AttributeArgument::Number(_, _) => Ok(false),
        AttributeArgument::Text(_, tokens) => is_token_text(alloc, tokens),
    }
}

fn some_names_tokens(alloc: Global, arguments: &Items<AttributeArgument>) -> Result<bool, NoMemory>
    ensures { IfOk result (λ b. b ≡ list_any spec.names_tokens (map view_argument arguments.now)) }
{
    for argument in arguments.as_slice() {
        if names_tokens(alloc, argument)? {
            return Ok(true);
        }
    }
    Ok(false)
}

fn any_names_tokens(
    alloc: Global,
    arguments: &Option<Items<AttributeArgument>>,
) -> Result<bool, NoMemory>
    ensures { IfOk result (λ b. b ≡ spec.any_names_tokens (view_arguments arguments.now)) }
{
    match arguments {
        None => Ok(false),
        Some(arguments) => some_names_tokens(alloc, arguments),
    }
}

fn is_disabling(name: &[u8]) -> bool
    ensures { result ≡ is_name_of name.now (codes "disable_sanitizer_instrumentation") }
{
    is_named(
        name,
        b"disable_sanitizer_instrumentation",
        b"__disable_sanitizer_instrumentation__",
    )
}

fn is_no_sanitize(name: &[u8]) -> bool
    ensures { result ≡ is_name_of name.now (codes "no_sanitize") }
{
    is_named(name, b"no_sanitize", b"__no_sanitize__")
}

fn untags(alloc: Global, entry: &Entry) -> Result<bool, NoMemory>
    ensures { IfOk result (λ b. b ≡ spec.untags (view_entry entry.now)) }
{
    if is_disabling(entry.name.as_slice()) {
        return Ok(true);
    }
    if is_no_sanitize(entry.name.as_slice()) {
        any_names_tokens(alloc, &entry.arguments)
    } else {
        Ok(false)
    }
}

fn is_untagging(alloc: Global, attribute: &Attribute) -> Result<bool, NoMemory>
    ensures { IfOk result (λ b. b ≡ spec.is_untagging (view_attribute attribute.now)) }
{
    for entry in attribute.entries.as_slice() {
        if untags(alloc, entry)? {
            return Ok(true);
        }
    }
    Ok(false)
}

fn any_is_untagging(alloc: Global, attributes: &Items<Attribute>) -> Result<bool, NoMemory>
    ensures { IfOk result (λ b. b ≡ list_any spec.is_untagging (map view_attribute attributes.now)) }
{
    for attribute in attributes.as_slice() {
        if is_untagging(alloc, attribute)? {
            return Ok(true);
        }
    }
    Ok(false)
}

fn specifier_untags(alloc: Global, specifier: &Spec) -> Result<bool, NoMemory>
    ensures { IfOk result (λ b. (more : tree.Specs) → spec.specs_untag (view_spec specifier.now more) ≡ (b || spec.specs_untag more)) }
{
    match specifier {
        Spec::Keyword(_) => Ok(false),
        Spec::Typedef(_) => Ok(false),
        Spec::Attribute(attribute) => is_untagging(alloc, attribute),
        Spec::Record(_) => Ok(false),
        Spec::Enum(_) => Ok(false),
    }
}

fn specs_untag(alloc: Global, specs: &Items<Spec>) -> Result<bool, NoMemory>
    ensures { IfOk result (λ b. b ≡ spec.specs_untag (specs_of specs.now)) }
{
    for specifier in specs.as_slice() {
        if specifier_untags(alloc, specifier)? {
            return Ok(true);
        }
    }
    Ok(false)
}

/// The name that a declarator declares; an absent one is empty.
fn name_of(alloc: Global, declarator: &Declarator) -> Result<Bytes, NoMemory>
    ensures { IfOk result (λ n. n ≡ rules.name_of (view_declarator declarator.now)) }
{
    match declared_name(declarator) {
        Some(name) => {
            let copy = Bytes::from_slice(alloc, name)?;
            Ok(copy)
        }
        None => Ok(Items::new(alloc)),
    }
}

fn put_if(
    alloc: Global,
    is_untagged: bool,
    declarator: &Declarator,
    names: &mut NameSet,
) -> Result<(), NoMemory>
    ensures { OnOk result (names.new ≡ spec.with_name_if is_untagged (view_declarator declarator.now) names.old) }
{
    if is_untagged {
        let name = name_of(alloc, declarator)?;
        names.put(name)
    } else {
        Ok(())
    }
}

fn put_item(alloc: Global, by_specs: bool, item: &Item, names: &mut NameSet) -> Result<(), NoMemory>
    ensures { OnOk result (names.new ≡ spec.with_name_if (by_specs || list_any spec.is_untagging (map view_attribute item.now.attributes)) (view_declarator item.now.declarator) names.old) }
{
    let by_item = any_is_untagging(alloc, &item.attributes)?;
    put_if(alloc, by_specs || by_item, &item.declarator, names)
}

fn put_items(
    alloc: Global,
    by_specs: bool,
    items: &Items<Item>,
    names: &mut NameSet,
) -> Result<(), NoMemory>
    ensures { OnOk result (names.new ≡ spec.with_items by_specs (map view_item items.now) names.old) }
{
    for item in items.as_slice() {
        put_item(alloc, by_specs, item, names)?;
    }
    Ok(())
}

fn put_external(alloc: Global, x: &External, names: &mut NameSet) -> Result<(), NoMemory>
    ensures { OnOk result (names.new ≡ spec.with_external (view_external x.now) names.old) }
{
    match x {
        External::Declaration(d) => {
            let by_specs = specs_untag(alloc, &d.specs)?;
            put_items(alloc, by_specs, &d.items, names)
        }
        External::Definition(d) => {
            let by_specs = specs_untag(alloc, &d.specs)?;
            put_if(alloc, by_specs, &d.declarator, names)
        }
    }
}

/// The names of the functions that are left as they are.
pub(crate) fn untagged(alloc: Global, unit: &Unit) -> Result<NameSet, NoMemory>
    ensures { IfOk result (λ names. names ≡ spec.untagged (view_unit unit.now)) }
{
    let mut names = NameSet::new(alloc)?;
    for x in unit.items.as_slice() {
        put_external(alloc, x, &mut names)?;
    }
    Ok(names)
}
