//! Rule 10: which expression of an initialiser initialises which part of the type (ISO/IEC 9899:2018, 6.7.9).

ghost use Rattle.std.specs.Prelude.{◌≡◌, ◌<◌, ◌≤◌, ◌∷◌, ◌++◌, ◌||◌, [], List, length, drop, take, suc, nat_le, IfOk, IfSome, OnOk, is_some};
ghost use Rattle.c_types.specs.CTypes as c;
ghost use Rattle.c_types.specs.Table.{type_at};
ghost use Rattle.c_rules.specs.Initialisers as rules;
ghost use Rattle.c_rules.specs.Initialisers.{Given};
ghost use Rattle.c_world.specs.Seen.{seen};
ghost use Rattle.expression_rules.specs.Typed.{typed_of};
ghost use Rattle.initialiser_rules.specs.Entries.{AllBelow, EntryBelow, FitsBelow, fits_in, givens_of, put, reads};
ghost use Rattle.initialiser_rules.specs.declared.given.Entry.{Entry as EntryOf};
ghost use Rattle.initialiser_rules.specs.Filling.{PartsBelow, all_filled, filled, fits_of, left_at, parts_in, scalar_filled};
ghost use Rattle.initialiser_rules.specs.Steps.{ArePlaced, IsWhole, fit_alone, is_record_given, one_filled, takes};

use crate::given::{Entry, Fitted};
use crate::parts::{Parts, next_part, parts_of};
use c_tree::At;
use c_types::{Term, TypeId};
use c_world::World;
use expression_rules::{Typed, is_char, is_record, is_scalar};
use std::alloc::Global;
use tok_base::{Items, NoMemory};

/// Whether a string literal gives an array of characters its bytes, perhaps without the zero behind them
/// (paragraph 14).
pub(crate) fn text_fits(world: &World, plain: TypeId, text: Option<u64>) -> bool
    requires { plain.0 < length world.now.table.terms }
    ensures { result ≡ rules.text_fits (type_at world.now.table.terms plain.0) text }
{
    match world.term(plain) {
        Term::Array(element, count) => bytes_fit(world, *element, *count, text),
        _ => false,
    }
}

fn bytes_fit(world: &World, element: TypeId, count: u32, text: Option<u64>) -> bool
    requires { element.0 < length world.now.table.terms }
    ensures { result ≡ rules.text_fits (c.Array (type_at world.now.table.terms element.0) count) text }
{
    match text {
        Some(bytes) => is_char(world, world.plain(element)) && bytes <= count as u64,
        None => false,
    }
}

/// Whether an expression without braces initialises a type.
fn takes(world: &World, ty: TypeId, x: &Typed) -> bool
    requires { ty.0 < length world.now.table.terms }
    ensures { result ≡ takes (type_at world.now.table.terms ty.0) (typed_of world.now.table.terms x.now) }
{
    let plain = world.plain(ty);
    is_scalar(world, plain) || text_fits(world, plain, x.text)
}

fn put(fits: &mut Items<Fitted>, at: At, x: &Typed, ty: TypeId) -> Result<(), NoMemory>
    ensures { OnOk result (fits.new ≡ fits.old ++ record { at = at; typed = x.now; ty = ty } ∷ []) }
{
    let typed = *x;
    fits.push(Fitted { at, typed, ty })?;
    Ok(())
}

/// An expression without braces.
fn fill_one(
    world: &World,
    ty: TypeId,
    at: At,
    x: &Typed,
    next: usize,
    fits: &mut Items<Fitted>,
) -> Result<Option<usize>, NoMemory>
    requires ty { ty.0 < length world.now.table.terms }
    requires typed { x.now.ty.0 < length world.now.table.terms }
    requires fits { FitsBelow (length world.now.table.terms) fits.old }
    ensures is { IfOk result (λ o. (es : List EntryOf) → left_at world.now.table.terms es fits.new o ≡ one_filled (type_at world.now.table.terms ty.0) (fits_in world.now.table.terms fits.old) at (typed_of world.now.table.terms x.now) (reads world.now.table.terms (drop next es))) }
    ensures next { IfOk result (λ o. IfSome o (λ n. n ≡ next)) }
    ensures below { IfOk result (λ o. FitsBelow (length world.now.table.terms) fits.new) }
{
    if !takes(world, ty, x) {
        return Ok(None);
    }
    put(fits, at, x, ty)?;
    Ok(Some(next))
}

/// Whether an expression stands alone among so many entries from a place on.
fn is_alone(entries: &[Entry], place: usize, count: u64) -> bool
    requires { place < length entries.now }
    ensures { result ≡ (nat_le count 1 || nat_le (length entries.now) (suc place)) }
{
    count <= 1 || entries.len() <= place + 1
}

/// So many entries in the braces of a scalar.
fn fill_scalar(
    world: &World,
    ty: TypeId,
    count: u64,
    entries: &[Entry],
    place: usize,
    fits: &mut Items<Fitted>,
) -> Result<Option<usize>, NoMemory>
    requires ty { ty.0 < length world.now.table.terms }
    requires entries { AllBelow (length world.now.table.terms) entries.now }
    requires fits { FitsBelow (length world.now.table.terms) fits.old }
    requires within { place ≤ length entries.now }
    ensures is { IfOk result (λ o. left_at world.now.table.terms entries.now fits.new o ≡ scalar_filled (type_at world.now.table.terms ty.0) count (fits_in world.now.table.terms fits.old) (reads world.now.table.terms (drop place entries.now))) }
    ensures forward { IfOk result (λ o. IfSome o (λ n. place ≤ n)) }
    ensures within { IfOk result (λ o. IfSome o (λ n. n ≤ length entries.now)) }
    ensures below { IfOk result (λ o. FitsBelow (length world.now.table.terms) fits.new) }
{
    if count == 0 || entries.len() <= place {
        return Ok(Some(place));
    }
    match &entries[place] {
        Entry::Many(_) => Ok(None),
        Entry::One(at, x) => {
            if !is_alone(entries, place, count) {
                return Ok(None);
            }
            put(fits, *at, x, ty)?;
            Ok(Some(place + 1))
        }
    }
}

/// So many entries from a place on initialise parts.
#[cycle(fill)]
fn fill_parts(
    world: &World,
    parts: Parts,
    count: u64,
    entries: &[Entry],
    place: usize,
    fits: &mut Items<Fitted>,
) -> Result<Option<usize>, NoMemory>
    requires parts { PartsBelow (length world.now.table.terms) parts }
    requires entries { AllBelow (length world.now.table.terms) entries.now }
    requires fits { FitsBelow (length world.now.table.terms) fits.old }
    requires within { place ≤ length entries.now }
    ensures is { IfOk result (λ o. left_at world.now.table.terms entries.now fits.new o ≡ all_filled (seen world.now) (parts_in world.now.table.terms parts.entry) count (fits_in world.now.table.terms fits.old) (reads world.now.table.terms (drop place entries.now))) }
    ensures forward { IfOk result (λ o. IfSome o (λ n. place ≤ n)) }
    ensures within { IfOk result (λ o. IfSome o (λ n. n ≤ length entries.now)) }
    ensures below { IfOk result (λ o. FitsBelow (length world.now.table.terms) fits.new) }
{
    let mut parts = parts;
    let mut left = count;
    let mut next = place;
    while left > 0 && next < entries.len() {
        let Some(step) = next_part(world, parts) else {
            return Ok(None);
        };
        match fill(world, step.ty, entries, next, fits) {
            Ok(Some(after)) => {
                next = after;
                parts = step.rest;
                left -= 1;
            }
            Ok(None) => return Ok(None),
            Err(end) => return Err(end),
        }
    }
    Ok(Some(next))
}

/// So many entries from a place on, which stand in braces.
#[cycle(fill)]
fn fill_braces(
    world: &World,
    ty: TypeId,
    count: u64,
    entries: &[Entry],
    place: usize,
    fits: &mut Items<Fitted>,
) -> Result<Option<usize>, NoMemory>
    requires ty { ty.0 < length world.now.table.terms }
    requires entries { AllBelow (length world.now.table.terms) entries.now }
    requires fits { FitsBelow (length world.now.table.terms) fits.old }
    requires within { place ≤ length entries.now }
    ensures is { IfOk result (λ o. left_at world.now.table.terms entries.now fits.new o ≡ filled (seen world.now) (type_at world.now.table.terms ty.0) (fits_in world.now.table.terms fits.old) (rules.many (givens_of (take count (reads world.now.table.terms (drop place entries.now)))) ∷ drop count (reads world.now.table.terms (drop place entries.now)))) }
    ensures forward { IfOk result (λ o. IfSome o (λ n. place ≤ n)) }
    ensures within { IfOk result (λ o. IfSome o (λ n. n ≤ length entries.now)) }
    ensures below { IfOk result (λ o. FitsBelow (length world.now.table.terms) fits.new) }
{
    let plain = world.plain(ty);
    if is_scalar(world, plain) {
        fill_scalar(world, ty, count, entries, place, fits)
    } else {
        let parts = parts_of(world, plain);
        fill_parts(world, parts, count, entries, place, fits)
    }
}

/// The initialiser at a place initialises a type: gives the place behind it, or none where it doesn't fit.
#[cycle(fill)]
fn fill(
    world: &World,
    ty: TypeId,
    entries: &[Entry],
    place: usize,
    fits: &mut Items<Fitted>,
) -> Result<Option<usize>, NoMemory>
    requires ty { ty.0 < length world.now.table.terms }
    requires entries { AllBelow (length world.now.table.terms) entries.now }
    requires fits { FitsBelow (length world.now.table.terms) fits.old }
    requires within { place < length entries.now }
    ensures is { IfOk result (λ o. left_at world.now.table.terms entries.now fits.new o ≡ filled (seen world.now) (type_at world.now.table.terms ty.0) (fits_in world.now.table.terms fits.old) (reads world.now.table.terms (drop place entries.now))) }
    ensures forward { IfOk result (λ o. IfSome o (λ n. place < n)) }
    ensures within { IfOk result (λ o. IfSome o (λ n. n ≤ length entries.now)) }
    ensures below { IfOk result (λ o. FitsBelow (length world.now.table.terms) fits.new) }
{
    match &entries[place] {
        Entry::One(at, x) => fill_one(world, ty, *at, x, place + 1, fits),
        Entry::Many(count) => fill_braces(world, ty, *count, entries, place + 1, fits),
    }
}

/// Whether an automatic object that is a struct or union has the value of one (paragraph 13).
fn is_record_value(world: &World, is_fixed: bool, ty: TypeId, x: &Typed) -> bool
    requires ty { ty.0 < length world.now.table.terms }
    requires typed { x.now.ty.0 < length world.now.table.terms }
    ensures { result ≡ is_record_given is_fixed (type_at world.now.table.terms ty.0) (typed_of world.now.table.terms x.now) }
{
    !is_fixed && is_record(world, world.plain(ty)) && is_record(world, world.plain(x.ty))
}

fn fit_value(
    world: &World,
    alloc: Global,
    is_fixed: bool,
    ty: TypeId,
    at: At,
    x: &Typed,
) -> Result<Option<Items<Fitted>>, NoMemory>
    requires ty { ty.0 < length world.now.table.terms }
    requires typed { x.now.ty.0 < length world.now.table.terms }
    ensures is { IfOk result (λ o. is_some o ≡ is_record_given is_fixed (type_at world.now.table.terms ty.0) (typed_of world.now.table.terms x.now)) }
    ensures fits { IfOk result (λ o. IfSome o (λ fs. fits_in world.now.table.terms fs ≡ fit_alone at (typed_of world.now.table.terms x.now) (type_at world.now.table.terms ty.0) ∷ [])) }
    ensures below { IfOk result (λ o. IfSome o (λ fs. FitsBelow (length world.now.table.terms) fs)) }
{
    if !is_record_value(world, is_fixed, ty, x) {
        return Ok(None);
    }
    let mut fits = Items::new(alloc);
    put(&mut fits, at, x, ty)?;
    Ok(Some(fits))
}

/// A struct or union as a whole, if the first part is its value.
fn fit_whole(
    world: &World,
    alloc: Global,
    is_fixed: bool,
    ty: TypeId,
    first: &Entry,
) -> Result<Option<Items<Fitted>>, NoMemory>
    requires ty { ty.0 < length world.now.table.terms }
    requires first { EntryBelow (length world.now.table.terms) first.now }
    ensures is { IfOk result (λ o. (gs : List Given) → IsWhole (seen world.now) is_fixed (type_at world.now.table.terms ty.0) (is_some o) (put world.now.table.terms first.now gs)) }
    ensures fits { IfOk result (λ o. IfSome o (λ fs. (gs : List Given) → ArePlaced (seen world.now) (type_at world.now.table.terms ty.0) (fits_in world.now.table.terms fs) (put world.now.table.terms first.now gs))) }
    ensures below { IfOk result (λ o. IfSome o (λ fs. FitsBelow (length world.now.table.terms) fs)) }
{
    match first {
        Entry::One(at, x) => fit_value(world, alloc, is_fixed, ty, *at, x),
        Entry::Many(_) => Ok(None),
    }
}

/// 10: which expression of an initialiser initialises which part of the type, if it may initialise an object
/// of this type, which has static storage or not.
pub fn fit(
    world: &World,
    alloc: Global,
    is_fixed: bool,
    ty: TypeId,
    entries: &[Entry],
) -> Result<Option<Items<Fitted>>, NoMemory>
    requires ty { ty.0 < length world.now.table.terms }
    requires entries { AllBelow (length world.now.table.terms) entries.now }
    ensures is { IfOk result (λ o. (g : Given) → reads world.now.table.terms entries.now ≡ g ∷ [] → is_some o ≡ rules.may_initialise (seen world.now) is_fixed (type_at world.now.table.terms ty.0) g) }
    ensures fits { IfOk result (λ o. IfSome o (λ fs. (g : Given) → reads world.now.table.terms entries.now ≡ g ∷ [] → fits_in world.now.table.terms fs ≡ fits_of (seen world.now) (type_at world.now.table.terms ty.0) g)) }
    ensures below { IfOk result (λ o. IfSome o (λ fs. FitsBelow (length world.now.table.terms) fs)) }
{
    let Some(first) = entries.first() else {
        return Ok(None);
    };
    let mut fits = Items::new(alloc);
    match fill(world, ty, entries, 0, &mut fits) {
        Ok(Some(_)) => Ok(Some(fits)),
        Ok(None) => fit_whole(world, alloc, is_fixed, ty, first),
        Err(end) => Err(end),
    }
}
