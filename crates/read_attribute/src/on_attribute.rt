//! Attributes: what a token does inside one.

ghost use Rattle.std.specs.Prelude.{◌≡◌, [], ◌∷◌, ◌++◌, None, IfOk, map};
ghost use Rattle.c_tree.specs.Wf.{Env};
ghost use Rattle.c_reader.specs.MarkedParts as parts;
ghost use Rattle.c_reader.specs.MarkedSpecs as reader;
ghost use Rattle.c_stack.specs.Gives.{Gives};
ghost use Rattle.c_symbol.specs.Seen.{view_symbol};
ghost use Rattle.c_symbol.specs.Shown.{shown_argument, shown_attribute, shown_entry};
ghost use Rattle.c_stack.specs.Views.{view_argument_read, view_attribute_mode, view_in_attribute, view_item_read};
ghost use Rattle.c_symbol.specs.Nodes.{view_open};
ghost use Rattle.c_stack.specs.declared.inside.Mode.TheVariants as modes;

use c_held::{Arguments, Entries};
use c_parts::specifier::{
    attribute, number_argument, text_argument, with_attribute, with_entry, with_entry_argument,
    with_plain_entry,
};
use c_stack::inside::{
    ArgumentRead, AttributeMode, InAttribute, ItemHead, ItemRead, Mode, Next, SpecsMode,
};
use c_symbol::node::{Open, mark};
use c_symbol::step::{StepEnd, following};
use c_symbol::symbol::Symbol;
use c_tree::{At, Attribute, AttributeArgument};
use std::alloc::{AllocError, Global};
use tok_base::{Bytes, Items, Span};

/// At a place in an attribute; no name was made.
fn attribute_at(id: u32, o: Open, a: InAttribute, mode: AttributeMode) -> Next
    ensures { result ≡ record { id = id; name = None; mode = modes.Attribute o mode a } }
{
    Next {
        id,
        name: None,
        mode: Mode::Attribute(o, mode, a),
    }
}

// ---- parts

/// One more literal of a text.
fn with_piece(
    alloc: Global,
    mut pieces: Items<Bytes>,
    text: &[u8],
) -> Result<Items<Bytes>, AllocError>
    ensures { IfOk result (λ xs. xs ≡ pieces ++ text.now ∷ []) }
{
    pieces.push(Items::from_slice(alloc, text)?)?;
    Ok(pieces)
}

fn argument_of(at: At, argument: ArgumentRead) -> AttributeArgument
    ensures { shown_argument result ≡ parts.argument_of at (view_argument_read argument) }
{
    match argument {
        ArgumentRead::Number(text) => number_argument(at, text),
        ArgumentRead::Text(pieces) => text_argument(at, pieces),
    }
}

/// The item with an attribute of this depth more.
fn with_item_attribute(
    item: ItemRead,
    deep: u32,
    attribute: Attribute,
) -> Result<ItemRead, AllocError>
    ensures { IfOk result (λ r. view_item_read r ≡ record { node = parts.with_part (view_item_read item).node deep; before = (view_item_read item).before; declarator = (view_item_read item).declarator; attributes = (view_item_read item).attributes ++ shown_attribute attribute ∷ [] }) }
{
    let ItemRead { head, place } = item;
    let ItemHead {
        node,
        before,
        declarator,
        attributes,
    } = head;
    let attributes = with_attribute(attributes, attribute)?;
    let head = ItemHead {
        node: node.with_part(deep),
        before,
        declarator,
        attributes,
    };
    Ok(ItemRead { head, place })
}

// ---- steps

/// The end of an attribute of this depth.
fn attribute_done(id: u32, deep: u32, a: InAttribute, attribute: Attribute) -> Result<Next, StepEnd>
    ensures { (env : Env) → Gives env result (reader.attribute_done id env deep (view_in_attribute a) (shown_attribute attribute)) }
{
    match a {
        InAttribute::Specs(specs, k) => {
            let specs = specs.with_attribute(deep, attribute)?;
            Ok(Next::at_specs(id, SpecsMode::InSpecs(specs, k)))
        }
        InAttribute::Read(item) => {
            let item = with_item_attribute(item, deep, attribute)?;
            Ok(Next {
                id,
                name: None,
                mode: Mode::AfterAttributes(item),
            })
        }
    }
}

/// A left parenthesis, which must stand here.
fn want_lparen(
    id: u32,
    o: Open,
    a: InAttribute,
    mode: AttributeMode,
    y: Symbol,
) -> Result<Next, StepEnd>
    ensures { (env : Env) → Gives env result (reader.want_lparen id env (view_open o) (view_in_attribute a) (view_attribute_mode mode) (view_symbol y.entry)) }
{
    match y {
        Symbol::LeftParen => Ok(attribute_at(id, o, a, mode)),
        _ => Err(StepEnd::Wrong),
    }
}

/// The name of an entry.
fn entry_begin(
    alloc: Global,
    id: u32,
    o: Open,
    a: InAttribute,
    entries: Entries,
    y: Symbol,
) -> Result<Next, StepEnd>
    ensures { (env : Env) → Gives env result (reader.entry_begin id env (view_open o) (view_in_attribute a) (map shown_entry entries) (view_symbol y.entry)) }
{
    match y {
        Symbol::Name(text) => {
            let name = Items::from_slice(alloc, text)?;
            Ok(attribute_at(id, o, a, AttributeMode::AfterEntryName(entries, name)))
        }
        _ => Err(StepEnd::Wrong),
    }
}

/// The name of the first entry.
fn first_entry(alloc: Global, id: u32, o: Open, a: InAttribute, y: Symbol) -> Result<Next, StepEnd>
    ensures { (env : Env) → Gives env result (reader.entry_begin id env (view_open o) (view_in_attribute a) [] (view_symbol y.entry)) }
{
    entry_begin(alloc, id, o, a, Entries::new(alloc), y)
}

/// The token behind both parentheses.
fn entries_begin(
    alloc: Global,
    id: u32,
    o: Open,
    a: InAttribute,
    y: Symbol,
) -> Result<Next, StepEnd>
    ensures { (env : Env) → Gives env result (reader.entries_begin id env (view_open o) (view_in_attribute a) (view_symbol y.entry)) }
{
    match y {
        Symbol::RightParen => {
            let entries = Entries::new(alloc);
            Ok(attribute_at(id, o, a, AttributeMode::Closing(entries)))
        }
        _ => first_entry(alloc, id, o, a, y),
    }
}

/// The token behind an entry.
fn entry_end(id: u32, o: Open, a: InAttribute, entries: Entries, y: Symbol) -> Result<Next, StepEnd>
    ensures { (env : Env) → Gives env result (reader.entry_end id env (view_open o) (view_in_attribute a) (map shown_entry entries) (view_symbol y.entry)) }
{
    match y {
        Symbol::Comma => Ok(attribute_at(id, o, a, AttributeMode::WantEntry(entries))),
        Symbol::RightParen => Ok(attribute_at(id, o, a, AttributeMode::Closing(entries))),
        _ => Err(StepEnd::Wrong),
    }
}

/// An entry without arguments ends before this token.
fn plain_entry(
    id: u32,
    o: Open,
    a: InAttribute,
    entries: Entries,
    name: Bytes,
    y: Symbol,
) -> Result<Next, StepEnd>
    ensures { (env : Env) → Gives env result (reader.entry_end id env (view_open o) (view_in_attribute a) (reader.add_entry (map shown_entry entries) name None) (view_symbol y.entry)) }
{
    let entries = with_plain_entry(entries, name)?;
    entry_end(id, o, a, entries, y)
}

/// The token behind an entry's name.
fn entry_next(
    id: u32,
    o: Open,
    a: InAttribute,
    entries: Entries,
    name: Bytes,
    y: Symbol,
) -> Result<Next, StepEnd>
    ensures { (env : Env) → Gives env result (reader.entry_next id env (view_open o) (view_in_attribute a) (map shown_entry entries) name (view_symbol y.entry)) }
{
    match y {
        Symbol::LeftParen => {
            Ok(attribute_at(id, o, a, AttributeMode::ArgumentsOpened(entries, name)))
        }
        _ => plain_entry(id, o, a, entries, name, y),
    }
}

/// The first token of an argument.
fn argument_begin(
    alloc: Global,
    id: u32,
    o: Open,
    a: InAttribute,
    entries: Entries,
    name: Bytes,
    arguments: Arguments,
    y: Symbol,
    span: Span,
) -> Result<Next, StepEnd>
    ensures { (env : Env) → Gives env result (reader.argument_begin id env (view_open o) (view_in_attribute a) (map shown_entry entries) name (map shown_argument arguments) (view_symbol y.entry) span) }
{
    let from = span.start;
    match y {
        Symbol::Number(text) => {
            let read = ArgumentRead::Number(Items::from_slice(alloc, text)?);
            let mode = AttributeMode::AfterArgument(from, entries, name, arguments, read);
            Ok(attribute_at(id, o.with_part(1), a, mode))
        }
        Symbol::Text(text) => {
            let read = ArgumentRead::Text(with_piece(alloc, Items::new(alloc), text)?);
            let mode = AttributeMode::AfterArgument(from, entries, name, arguments, read);
            Ok(attribute_at(id, o.with_part(1), a, mode))
        }
        _ => Err(StepEnd::Wrong),
    }
}

/// The first token of the first argument.
fn first_argument(
    alloc: Global,
    id: u32,
    o: Open,
    a: InAttribute,
    entries: Entries,
    name: Bytes,
    y: Symbol,
    span: Span,
) -> Result<Next, StepEnd>
    ensures { (env : Env) → Gives env result (reader.argument_begin id env (view_open o) (view_in_attribute a) (map shown_entry entries) name [] (view_symbol y.entry) span) }
{
    argument_begin(
        alloc,
        id,
        o,
        a,
        entries,
        name,
        Arguments::new(alloc),
        y,
        span,
    )
}

/// The token behind the parenthesis of an entry.
fn arguments_begin(
    alloc: Global,
    id: u32,
    o: Open,
    a: InAttribute,
    entries: Entries,
    name: Bytes,
    y: Symbol,
    span: Span,
) -> Result<Next, StepEnd>
    ensures { (env : Env) → Gives env result (reader.arguments_begin id env (view_open o) (view_in_attribute a) (map shown_entry entries) name (view_symbol y.entry) span) }
{
    match y {
        Symbol::RightParen => {
            let entries = with_entry(entries, name, Arguments::new(alloc))?;
            Ok(attribute_at(id, o, a, AttributeMode::AfterEntry(entries)))
        }
        _ => first_argument(alloc, id, o, a, entries, name, y, span),
    }
}

/// One more literal of a text.
fn text_more(
    alloc: Global,
    id: u32,
    o: Open,
    from: u32,
    a: InAttribute,
    entries: Entries,
    name: Bytes,
    arguments: Arguments,
    read: ArgumentRead,
    text: &[u8],
) -> Result<Next, StepEnd>
    ensures { (env : Env) → Gives env result (reader.text_more id env (view_open o) from (view_in_attribute a) (map shown_entry entries) name (map shown_argument arguments) (view_argument_read read) text.now) }
{
    match read {
        ArgumentRead::Number(_) => Err(StepEnd::Wrong),
        ArgumentRead::Text(pieces) => {
            let read = ArgumentRead::Text(with_piece(alloc, pieces, text)?);
            let mode = AttributeMode::AfterArgument(from, entries, name, arguments, read);
            Ok(attribute_at(id, o, a, mode))
        }
    }
}

/// The token behind a literal of an argument.
fn argument_next(
    alloc: Global,
    id: u32,
    end: u32,
    o: Open,
    from: u32,
    a: InAttribute,
    entries: Entries,
    name: Bytes,
    arguments: Arguments,
    read: ArgumentRead,
    y: Symbol,
) -> Result<Next, StepEnd>
    ensures { (env : Env) → Gives env result (reader.argument_next id end env (view_open o) from (view_in_attribute a) (map shown_entry entries) name (map shown_argument arguments) (view_argument_read read) (view_symbol y.entry)) }
{
    match y {
        Symbol::Text(text) => {
            text_more(alloc, id, o, from, a, entries, name, arguments, read, text)
        }
        Symbol::Comma => {
            let next = following(id)?;
            let one = argument_of(mark(from, end, id), read);
            let arguments = with_entry_argument(arguments, one)?;
            let mode = AttributeMode::WantArgument(entries, name, arguments);
            Ok(attribute_at(next, o, a, mode))
        }
        Symbol::RightParen => {
            let next = following(id)?;
            let one = argument_of(mark(from, end, id), read);
            let arguments = with_entry_argument(arguments, one)?;
            let entries = with_entry(entries, name, arguments)?;
            Ok(attribute_at(next, o, a, AttributeMode::AfterEntry(entries)))
        }
        _ => Err(StepEnd::Wrong),
    }
}

/// The second right parenthesis.
fn close_attribute(
    id: u32,
    o: Open,
    a: InAttribute,
    entries: Entries,
    y: Symbol,
    span: Span,
) -> Result<Next, StepEnd>
    ensures { (env : Env) → Gives env result (reader.close_attribute id env (view_open o) (view_in_attribute a) (map shown_entry entries) (view_symbol y.entry) span) }
{
    match y {
        Symbol::RightParen => {
            let next = following(id)?;
            let deep = o.whole(0)?;
            attribute_done(
                next,
                deep,
                a,
                attribute(mark(o.from, span.end, id), entries),
            )
        }
        _ => Err(StepEnd::Wrong),
    }
}

/// A token inside an attribute.
pub fn attribute_next(
    alloc: Global,
    id: u32,
    end: u32,
    o: Open,
    a: InAttribute,
    mode: AttributeMode,
    y: Symbol,
    span: Span,
) -> Result<Next, StepEnd>
    ensures { (env : Env) → Gives env result (reader.attribute_next id end env (view_open o) (view_in_attribute a) (view_attribute_mode mode) (view_symbol y.entry) span) }
{
    match mode {
        AttributeMode::Word => want_lparen(id, o, a, AttributeMode::Opened, y),
        AttributeMode::Opened => want_lparen(id, o, a, AttributeMode::EntriesOpened, y),
        AttributeMode::EntriesOpened => entries_begin(alloc, id, o, a, y),
        AttributeMode::WantEntry(es) => entry_begin(alloc, id, o, a, es, y),
        AttributeMode::AfterEntryName(es, x) => entry_next(id, o, a, es, x, y),
        AttributeMode::ArgumentsOpened(es, x) => arguments_begin(alloc, id, o, a, es, x, y, span),
        AttributeMode::WantArgument(es, x, xs) => {
            argument_begin(alloc, id, o, a, es, x, xs, y, span)
        }
        AttributeMode::AfterArgument(from, es, x, xs, v) => {
            argument_next(alloc, id, end, o, from, a, es, x, xs, v, y)
        }
        AttributeMode::AfterEntry(es) => entry_end(id, o, a, es, y),
        AttributeMode::Closing(es) => close_attribute(id, o, a, es, y, span),
    }
}
