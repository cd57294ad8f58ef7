//! Copies of the parts of a tree that hold no call.

ghost use Rattle.std.specs.Prelude.{◌≡◌, IfOk};

use c_held as held;
use c_tree::{Attribute, AttributeArgument, Entry, Qualifier};
use std::alloc::Global;
use tok_base::{Bytes, Items, NoMemory};

pub fn texts(alloc: Global, xs: &Items<Bytes>) -> Result<Items<Bytes>, NoMemory>
    ensures { IfOk result (λ copy. copy ≡ xs.now) }
{
    let mut copy = Items::new(alloc);
    for x in xs.as_slice() {
        let x = bytes(alloc, x)?;
        copy.push(x)?;
    }
    Ok(copy)
}

pub fn bytes(alloc: Global, text: &Bytes) -> Result<Bytes, NoMemory>
    ensures { IfOk result (λ copy. copy ≡ text.now) }
{
    Ok(Items::from_slice(alloc, text.as_slice())?)
}

pub fn maybe_bytes(alloc: Global, text: &Option<Bytes>) -> Result<Option<Bytes>, NoMemory>
    ensures { IfOk result (λ copy. copy ≡ text.now) }
{
    match text {
        Some(text) => {
            let text = bytes(alloc, text)?;
            Ok(Some(text))
        }
        None => Ok(None),
    }
}

pub fn qualifiers(alloc: Global, qs: &Items<Qualifier>) -> Result<Items<Qualifier>, NoMemory>
    ensures { IfOk result (λ copy. copy ≡ qs.now) }
{
    Ok(Items::from_slice(alloc, qs.as_slice())?)
}

fn argument(alloc: Global, x: &AttributeArgument) -> Result<AttributeArgument, NoMemory>
    ensures { IfOk result (λ copy. copy ≡ x.now) }
{
    match x {
        AttributeArgument::Number(at, n) => {
            let n = bytes(alloc, n)?;
            Ok(AttributeArgument::Number(*at, n))
        }
        AttributeArgument::Text(at, ts) => {
            let ts = texts(alloc, ts)?;
            Ok(AttributeArgument::Text(*at, ts))
        }
    }
}

fn arguments(alloc: Global, xs: &Items<AttributeArgument>) -> Result<held::Arguments, NoMemory>
    ensures { IfOk result (λ copy. copy ≡ xs.now) }
{
    let mut copy = held::Arguments::new(alloc);
    for x in xs.as_slice() {
        let x = argument(alloc, x)?;
        copy.push(x)?;
    }
    Ok(copy)
}

/// The arguments of an attribute's entry.
fn maybe_arguments(
    alloc: Global,
    xs: &Option<Items<AttributeArgument>>,
) -> Result<Option<Items<AttributeArgument>>, NoMemory>
    ensures { IfOk result (λ copy. copy ≡ xs.now) }
{
    match xs {
        Some(xs) => {
            let xs = arguments(alloc, xs)?;
            Ok(Some(xs.open()))
        }
        None => Ok(None),
    }
}

fn entry(alloc: Global, x: &Entry) -> Result<Entry, NoMemory>
    ensures { IfOk result (λ copy. copy ≡ x.now) }
{
    let name = bytes(alloc, &x.name)?;
    let arguments = maybe_arguments(alloc, &x.arguments)?;
    Ok(Entry { name, arguments })
}

fn entries(alloc: Global, xs: &Items<Entry>) -> Result<held::Entries, NoMemory>
    ensures { IfOk result (λ copy. copy ≡ xs.now) }
{
    let mut copy = held::Entries::new(alloc);
    for x in xs.as_slice() {
        let x = entry(alloc, x)?;
        copy.push(x)?;
    }
    Ok(copy)
}

pub fn attribute(alloc: Global, x: &Attribute) -> Result<Attribute, NoMemory>
    ensures { IfOk result (λ copy. copy ≡ x.now) }
{
    let entries = entries(alloc, &x.entries)?;
    Ok(Attribute {
        at: x.at,
        entries: entries.open(),
    })
}

pub fn attributes(alloc: Global, xs: &Items<Attribute>) -> Result<held::Attributes, NoMemory>
    ensures { IfOk result (λ copy. copy ≡ xs.now) }
{
    let mut copy = held::Attributes::new(alloc);
    for x in xs.as_slice() {
        let x = attribute(alloc, x)?;
        copy.push(x)?;
    }
    Ok(copy)
}
