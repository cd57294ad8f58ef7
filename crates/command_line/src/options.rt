//! The words of the command line: what they ask for.

ghost use Rattle.std.specs.Prelude.{◌≡◌, ◌≤◌, ◌<◌, IfOk};
ghost use Rattle.std.specs.Option.{option_and_then, option_copied, option_map};
ghost use Rattle.command_line.specs.Words as words;
ghost use Rattle.command_line.specs.Options as options;
ghost use Rattle.command_line.specs.Draft as machine;
ghost use Rattle.command_line.specs.OptionExamples.{OptionExamples};

use std::alloc::Global;
use tok_base::{Bytes, Items, NoMemory};

/// What the program is asked for.
#[derive(Debug, Drop)]
pub struct Options {
    /// The name of the file to rewrite.
    pub file: Bytes,
    /// How many tokens there are, from 1 to 65536.
    pub max: u32,
}

#[derive(Clone, Copy, Debug)]
enum Key {
    Mode,
    Max,
}

/// What the words so far say.
#[derive(Clone, Copy, Debug)]
struct Draft<'a> {
    /// The option whose value comes next.
    key: Option<Key>,
    mode: Option<&'a Bytes>,
    max: Option<&'a Bytes>,
    file: Option<&'a Bytes>,
}

fn key_of(word: &[u8]) -> Option<Key>
    ensures { option_map machine.key_meant result ≡ words.key_of word.now }
{
    if word == b"--mode".as_slice() {
        Some(Key::Mode)
    } else if word == b"--max".as_slice() {
        Some(Key::Max)
    } else {
        None
    }
}

fn is_plain(word: &[u8]) -> bool
    ensures { result ≡ words.is_plain word.now }
{
    match word {
        [] => false,
        [b, ..] => *b != b'-',
    }
}

/// With the value of the option that waits for one, or else a file; none where it stands already.
fn placed<'a>(draft: Draft<'a>, word: &'a Bytes) -> Option<Draft<'a>>
    ensures { option_map machine.reading_of result ≡ machine.placed (option_map machine.key_meant draft.entry.key) (machine.reading_of draft.entry) word.now }
{
    match draft.key {
        None => match draft.file {
            None => Some(Draft {
                key: None,
                file: Some(word),
                ..draft
            }),
            Some(_) => None,
        },
        Some(Key::Mode) => match draft.mode {
            None => Some(Draft {
                key: None,
                mode: Some(word),
                ..draft
            }),
            Some(_) => None,
        },
        Some(Key::Max) => match draft.max {
            None => Some(Draft {
                key: None,
                max: Some(word),
                ..draft
            }),
            Some(_) => None,
        },
    }
}

fn placed_plain<'a>(draft: Draft<'a>, word: &'a Bytes) -> Option<Draft<'a>>
    ensures { option_map machine.reading_of result ≡ machine.placed_plain (option_map machine.key_meant draft.entry.key) (machine.reading_of draft.entry) word.now }
{
    if is_plain(word.as_slice()) {
        placed(draft, word)
    } else {
        None
    }
}

/// One word more.
fn read<'a>(draft: Draft<'a>, word: &'a Bytes) -> Option<Draft<'a>>
    ensures { option_map machine.reading_of result ≡ machine.read (machine.reading_of draft.entry) word.now }
{
    match draft.key {
        Some(_) => placed_plain(draft, word),
        None => match key_of(word.as_slice()) {
            Some(key) => Some(Draft {
                key: Some(key),
                ..draft
            }),
            None => placed_plain(draft, word),
        },
    }
}

fn read_all(words: &[Bytes]) -> Option<Draft<'_>>
    ensures { option_map machine.reading_of result ≡ machine.read_all words.now machine.begin }
{
    let mut draft = Draft {
        key: None,
        mode: None,
        max: None,
        file: None,
    };
    for word in words {
        draft = read(draft, word)?;
    }
    Some(draft)
}

fn is_digit(b: u8) -> bool
    ensures { result ≡ words.is_digit b }
{
    b'0' <= b && b <= b'9'
}

fn all_digits(word: &[u8]) -> bool
    ensures { result ≡ words.all_digits word.now }
{
    for b in word {
        if !is_digit(*b) {
            return false;
        }
    }
    true
}

fn is_number(word: &[u8]) -> bool
    ensures { result ≡ words.is_number word.now }
{
    match word {
        [] => false,
        [b] => is_digit(*b),
        [b, more @ ..] => is_digit(*b) && *b != b'0' && all_digits(more),
    }
}

/// The value of the digits, or some number above 65536 where it is above.
fn value_of(digits: &[u8]) -> u32
    ensures small { words.value_from 0 digits.now ≤ 65536 → result ≡ words.value_from 0 digits.now }
    ensures large { 65536 < words.value_from 0 digits.now → 65536 < result }
{
    let mut value: u32 = 0;
    for b in digits {
        value = 10 * value + b.saturating_sub(b'0') as u32;
        if value > 65536 {
            return value;
        }
    }
    value
}

/// The number from 1 to 65536 that a word is.
fn number(word: &[u8]) -> Option<u32>
    ensures { result ≡ words.number 1 65536 word.now }
{
    let value = value_of(word);
    if is_number(word) && 1 <= value && value <= 65536 {
        Some(value)
    } else {
        None
    }
}

fn max_of(max: Option<&Bytes>) -> Option<u32>
    ensures { result ≡ options.max_of (machine.listed (option_copied max.entry)) }
{
    match max {
        None => Some(16),
        Some(word) => number(word.as_slice()),
    }
}

/// The file and the number of tokens, once no word is left.
fn finish(draft: Draft<'_>) -> Option<(&Bytes, u32)>
    ensures { option_map machine.asked result ≡ machine.finish (machine.reading_of draft.entry) }
{
    if draft.key.is_some() {
        return None;
    }
    let mode = draft.mode?;
    let file = draft.file?;
    if mode.as_slice() != b"increment".as_slice() {
        return None;
    }
    let max = max_of(draft.max)?;
    Some((file, max))
}

/// The file and the number of tokens that the words behind the command ask for.
fn behind_command(rest: &[Bytes]) -> Option<(&Bytes, u32)>
    ensures { option_map machine.asked result ≡ option_and_then options.options_in (words.parts rest.now) }
{
    match read_all(rest) {
        Some(draft) => finish(draft),
        None => None,
    }
}

fn asked(words: &[Bytes]) -> Option<(&Bytes, u32)>
    ensures { option_map machine.asked result ≡ options.options_of words.now }
{
    match words {
        [] => None,
        [command, more @ ..] => {
            if command.as_slice() == b"rewrite".as_slice() {
                behind_command(more)
            } else {
                None
            }
        }
    }
}

/// What the words ask for; none where they are none that the program takes. Only the copy of the file's name
/// takes memory.
pub fn options_of(alloc: Global, words: &Items<Bytes>) -> Result<Option<Options>, NoMemory>
    ensures value { IfOk result (λ o. o ≡ options.options_of words.now) }
    ensures refused { options.options_of words.now ≡ None → result ≡ Ok None }
{
    match asked(words.as_slice()) {
        None => Ok(None),
        Some((file, max)) => {
            let file = Items::from_slice(alloc, file.as_slice())?;
            Ok(Some(Options { file, max }))
        }
    }
}

/// The worked examples, by computation.
pub fn option_examples()
    ensures { OptionExamples }
{}
