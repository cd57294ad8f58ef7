//! The length that an initialiser gives an array (ISO/IEC 9899:2018, 6.7.9, paragraph 22).

ghost use Rattle.std.specs.Prelude.{◌≡◌, suc, true, Some, IfOk, option_copied, option_map};
ghost use Rattle.c_constants.specs.Literals as literals;
ghost use Rattle.c_rules.specs.Types.{element, is_char};
ghost use Rattle.c_rules.specs.Unit as unit;
ghost use Rattle.c_tree.specs.View.{view, view_init, view_maybe_init};
ghost use Rattle.c_types.specs.CTypes.{CType};
ghost use Rattle.c_types.specs.Plain.{plain};
ghost use Rattle.body_rules.specs.Lengths.{given_by};

use crate::items::count_entries;
use c_constants::literal_bytes;
use c_tree::{Expr, Init};
use std::alloc::Global;
use tok_base::{Bytes, Items, NoMemory};

/// How many bytes adjacent string literals have, the zero behind them not counted.
#[tactic(auto, using(crate::proofs::Literals::length_step))]
fn text_length(alloc: Global, texts: &[Bytes]) -> Result<u64, NoMemory>
    ensures { IfOk result (λ n. n ≡ literals.text_length texts.now) }
{
    let mut count: u64 = 0;
    for text in texts {
        let bytes = match literal_bytes(alloc, text.as_slice()) {
            Ok(bytes) => bytes,
            Err(end) => return Err(end),
        };
        count = match count.checked_add(bytes.len() as u64) {
            Some(sum) => sum,
            None => return Err(NoMemory),
        };
    }
    Ok(count)
}

/// The string literals that an expression is, if it is nothing else.
fn literals_of(e: &Expr) -> Option<&Items<Bytes>>
    ensures { option_map (λ ts. suc (literals.text_length ts)) (option_copied result) ≡ unit.text_given true (view e.now) }
{
    match e {
        Expr::Text(_, texts) => Some(texts),
        _ => None,
    }
}

/// The bytes of string literals with the zero behind them, for an array of characters.
fn text_given(alloc: Global, is_of_chars: bool, e: &Expr) -> Result<Option<u64>, NoMemory>
    ensures { IfOk result (λ n. n ≡ unit.text_given is_of_chars (view e.now)) }
{
    if !is_of_chars {
        return Ok(None);
    }
    match literals_of(e) {
        None => Ok(None),
        Some(texts) => with_zero(alloc, texts.as_slice()),
    }
}

#[tactic(auto, using(crate::proofs::Literals::one_more_is))]
fn with_zero(alloc: Global, texts: &[Bytes]) -> Result<Option<u64>, NoMemory>
    ensures { IfOk result (λ n. n ≡ Some (suc (literals.text_length texts.now))) }
{
    let bytes = text_length(alloc, texts)?;
    match bytes.checked_add(1) {
        Some(length) => Ok(Some(length)),
        None => Err(NoMemory),
    }
}

fn given_by(alloc: Global, is_of_chars: bool, init: &Init) -> Result<Option<u64>, NoMemory>
    ensures { IfOk result (λ n. n ≡ given_by is_of_chars (view_init init.now)) }
{
    match init {
        Init::Expr(e) => text_given(alloc, is_of_chars, e),
        Init::Braces(_, entries, _) => Ok(Some(count_entries(entries.as_slice()) as u64)),
    }
}

/// The length that an initialiser gives an array, whose elements are characters or not: its entries, or the
/// bytes of a string literal and a zero. A length of 2^64 or more counts as out of memory.
#[tactic(auto, using(crate::proofs::Literals::given_is))]
pub fn length_given(
    alloc: Global,
    is_of_chars: bool,
    init: &Option<Init>,
) -> Result<Option<u64>, NoMemory>
    ensures { IfOk result (λ n. (ty : CType) → is_char (plain (element (plain ty))) ≡ is_of_chars → n ≡ unit.length_given ty (view_maybe_init init.now)) }
{
    match init {
        None => Ok(None),
        Some(init) => given_by(alloc, is_of_chars, init),
    }
}
