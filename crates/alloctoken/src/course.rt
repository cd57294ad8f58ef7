//! What a run comes to: the text that is to be written, or a refusal.

ghost use Rattle.std.specs.Prelude.{◌≡◌, ◌≤◌, length, IfOk};
ghost use Rattle.c_tree.specs.Bare.{bare_unit};
ghost use Rattle.c_tree.specs.Printed.{unit_text};
ghost use Rattle.c_tree.specs.View.{view_unit};
ghost use Rattle.call_rewriter.specs.Tagged.{tagged};
ghost use Rattle.alloctoken.specs.Reading.{ReadsFile, ReadsUnit, Rewrites, Serves, Takes};

use c_held as held;
use c_lexer::{LexEnd, lex};
use c_parser::{ParseEnd, parse};
use c_printer::print_unit;
use call_rewriter::tagged_unit;
use command_line::{Options, options_of};
use std::alloc::{AllocError, Global};
use tok_base::{Bytes, Files, Items, NoMemory, ReadEnd};

/// The most bytes of a unit.
const UNIT_LIMIT: u64 = 1048576;

/// Why a run writes no text.
#[derive(Clone, Copy, Debug, PartialEq, Eq)]
pub enum Refusal {
    /// The words are none that the program takes.
    Usage,
    /// The file could not be read.
    FileFault,
    /// The text has more bytes than a unit may have.
    TooLong,
    /// Neither a token nor a separator begins at this byte.
    Lex(u32),
    /// The tokens are no unit's; so many begin one, and with the next they begin none.
    Syntax(u32),
    /// The nodes of the unit nest too deep.
    TooDeep,
    /// There was no memory.
    NoMemory,
}

impl From<NoMemory> for Refusal {
    ghost use Rattle.alloctoken.specs.declared.course.Refusal.TheVariants.{NoMemory};

    ghost from_gives = { λ _ e. e ≡ NoMemory };

    fn from(_: NoMemory) -> Refusal {
        Refusal::NoMemory
    }
}

impl From<AllocError> for Refusal {
    ghost use Rattle.alloctoken.specs.declared.course.Refusal.TheVariants.{NoMemory};

    ghost from_gives = { λ _ e. e ≡ NoMemory };

    fn from(_: AllocError) -> Refusal {
        Refusal::NoMemory
    }
}

/// The unit that a text is.
fn unit_of(alloc: Global, text: &[u8]) -> Result<held::Unit, Refusal>
    requires { length text.now ≤ 1048576 }
    ensures { ReadsUnit text.now result }
{
    match lex(alloc, text) {
        Ok(tokens) => match parse(alloc, &tokens) {
            Ok(unit) => Ok(held::Unit::new(unit)),
            Err(ParseEnd::Syntax(place)) => Err(Refusal::Syntax(place)),
            Err(ParseEnd::TooDeep) => Err(Refusal::TooDeep),
            Err(ParseEnd::NoMemory) => Err(Refusal::NoMemory),
        },
        Err(LexEnd::Bad(place)) => Err(Refusal::Lex(place)),
        Err(LexEnd::NoMemory) => Err(Refusal::NoMemory),
    }
}

/// The bytes of the file, if they are no more than a unit may have.
fn text_of<F: Files>(alloc: Global, files: &mut F, name: &[u8]) -> Result<Bytes, Refusal>
    ensures file { ReadsFile (F.contents files.old) (F.tally files.old) (F.tally files.new) name.now result }
{
    match files.read(alloc, name, UNIT_LIMIT) {
        Ok(text) => Ok(text),
        Err(ReadEnd::Fault) => Err(Refusal::FileFault),
        Err(ReadEnd::TooLong) => Err(Refusal::TooLong),
        Err(ReadEnd::NoMemory) => Err(Refusal::NoMemory),
    }
}

/// The text of a unit with its sites tagged.
fn tagged_text(alloc: Global, unit: &held::Unit, max: u32) -> Result<Bytes, NoMemory>
    requires least { 1 ≤ max }
    requires greatest { max ≤ 65536 }
    ensures { IfOk result (λ text. text ≡ unit_text (tagged max (bare_unit (view_unit unit.now)))) }
{
    let tagged = tagged_unit(alloc, unit.get(), max)?;
    print_unit(alloc, tagged.get())
}

/// The text of a unit of this text, with its sites tagged.
fn rewritten(alloc: Global, text: &[u8], max: u32) -> Result<Bytes, Refusal>
    requires limit { length text.now ≤ 1048576 }
    requires least { 1 ≤ max }
    requires greatest { max ≤ 65536 }
    ensures { Rewrites text.now max result }
{
    match unit_of(alloc, text) {
        Ok(unit) => match tagged_text(alloc, &unit, max) {
            Ok(tagged) => Ok(tagged),
            Err(NoMemory) => Err(Refusal::NoMemory),
        },
        Err(refusal) => Err(refusal),
    }
}

/// The text that the options ask for.
fn served<F: Files>(alloc: Global, files: &mut F, options: &Options) -> Result<Bytes, Refusal>
    requires least { 1 ≤ options.now.max }
    requires greatest { options.now.max ≤ 65536 }
    ensures { Serves options.now (F.contents files.old) (F.tally files.old) (F.tally files.new) result }
{
    match text_of(alloc, files, options.file.as_slice()) {
        Ok(text) => rewritten(alloc, text.as_slice(), options.max),
        Err(refusal) => Err(refusal),
    }
}

/// The text that the words ask for.
pub fn course<F: Files>(
    alloc: Global,
    words: &Items<Bytes>,
    files: &mut F,
) -> Result<Bytes, Refusal>
    ensures { Takes words.now (F.contents files.old) (F.tally files.old) (F.tally files.new) result }
{
    match options_of(alloc, words) {
        Ok(Some(options)) => served(alloc, files, &options),
        Ok(None) => Err(Refusal::Usage),
        Err(NoMemory) => Err(Refusal::NoMemory),
    }
}
