//! Lines, words and numbers of a text.

ghost use Rattle.std.specs.Prelude.{◌≡◌, ◌≢◌, ℕ, ◌<◌, ◌≤◌, ◌∷◌, [], length, drop, slice_index, Option, option_map, MatchOption};
ghost use Rattle.std.specs.Option.{option_copied};
ghost use Rattle.trace_format.specs.Lines as lines;
ghost use Rattle.trace_format.specs.Fields as fields;
ghost use Rattle.trace_format.specs.Seen.{line_seen, number_seen};

/// The numbers of an event's line.
#[derive(Clone, Copy, Debug)]
pub(crate) enum Fields {
    Alloc {
        worker: u64,
        name: u64,
        token: u64,
        size: u64,
    },
    Free {
        worker: u64,
        name: u64,
    },
}

/// The place of the first `mark`, or the length where there is none.
fn place_of(bytes: &[u8], mark: u8) -> usize
    ensures within { result ≤ length bytes.now }
    ensures before { (k : ℕ) → k < result → slice_index bytes.now k ≢ mark }
    ensures found { result < length bytes.now → slice_index bytes.now result ≡ mark }
{
    for (i, b) in bytes.iter().enumerate() {
        if *b == mark {
            return i;
        }
    }
    bytes.len()
}

/// What follows the first `at` bytes.
fn behind(bytes: &[u8], at: usize) -> &[u8]
    requires { at ≤ length bytes.now }
    ensures { result.now ≡ drop at bytes.now }
{
    &bytes[at..]
}

/// The first line, and what stands behind its end.
pub(crate) fn next_line(text: &[u8]) -> Option<(&[u8], &[u8])>
    ensures lines { lines.lines text.now ≡ line_seen result }
    ensures shorter { MatchOption result (length text.now ≡ 0) (λ p. length p.1.now < length text.now) }
{
    if text.is_empty() {
        return None;
    }
    let end = place_of(text, b'\n');
    if end < text.len() {
        Some((&text[..end], behind(text, end + 1)))
    } else {
        Some((text, behind(text, end)))
    }
}

/// The first word, and what stands behind its blank.
fn cut(line: &[u8]) -> (&[u8], Option<&[u8]>)
    ensures { lines.words line.now ≡ result.0.now ∷ lines.words_behind (option_copied result.1) }
{
    let end = place_of(line, b' ');
    if end < line.len() {
        (&line[..end], Some(behind(line, end + 1)))
    } else {
        (line, None)
    }
}

fn is_digit(b: u8) -> bool
    ensures { result ≡ lines.is_digit b }
{
    b'0' <= b && b <= b'9'
}

fn all_digits(word: &[u8]) -> bool
    ensures { result ≡ lines.all_digits word.now }
{
    for b in word {
        if !is_digit(*b) {
            return false;
        }
    }
    true
}

fn is_number(word: &[u8]) -> bool
    ensures { result ≡ lines.is_number word.now }
{
    match word {
        [] => false,
        [b] => is_digit(*b),
        [b, more @ ..] => is_digit(*b) && *b != b'0' && all_digits(more),
    }
}

/// The value of the digits, or some number of 2 ^ 64 or more where it is so large.
fn value_of(digits: &[u8]) -> u128
    ensures small { lines.value_from 0 digits.now ≤ 18446744073709551615 → result ≡ lines.value_from 0 digits.now }
    ensures large { 18446744073709551615 < lines.value_from 0 digits.now → 18446744073709551615 < result }
{
    let mut value: u128 = 0;
    for b in digits {
        value = 10 * value + b.saturating_sub(b'0') as u128;
        if value > 18446744073709551615 {
            return value;
        }
    }
    value
}

/// The number that a word is.
fn number(word: &[u8]) -> Option<u64>
    ensures { result ≡ lines.number word.now }
{
    let value = value_of(word);
    if is_number(word) && value <= 18446744073709551615 {
        Some(value as u64)
    } else {
        None
    }
}

/// The number that the first word is, and what stands behind it.
fn number_at(rest: Option<&[u8]>) -> Option<(u64, Option<&[u8]>)>
    ensures { option_map number_seen result ≡ lines.take_number (lines.words_behind (option_copied rest.entry)) }
{
    let Some(line) = rest else {
        return None;
    };
    let (word, behind) = cut(line);
    match number(word) {
        Some(value) => Some((value, behind)),
        None => None,
    }
}

/// This value, if no word is left.
#[tactic(auto, using(crate::proofs::Splits::at_end_words))]
fn at_end<T: Copy>(rest: Option<&[u8]>, value: T) -> Option<T>
    ensures { result ≡ fields.at_end (lines.words_behind (option_copied rest.entry)) value }
{
    match rest {
        Some(_) => None,
        None => Some(value),
    }
}

/// The numbers of an allocation's line.
fn alloc_fields(rest: Option<&[u8]>) -> Option<Fields>
    ensures { result ≡ fields.alloc_fields (lines.words_behind (option_copied rest.entry)) }
{
    let (worker, rest) = number_at(rest)?;
    let (name, rest) = number_at(rest)?;
    let (token, rest) = number_at(rest)?;
    let (size, rest) = number_at(rest)?;
    at_end(
        rest,
        Fields::Alloc {
            worker,
            name,
            token,
            size,
        },
    )
}

/// The numbers of the line of a release.
fn free_fields(rest: Option<&[u8]>) -> Option<Fields>
    ensures { result ≡ fields.free_fields (lines.words_behind (option_copied rest.entry)) }
{
    let (worker, rest) = number_at(rest)?;
    let (name, rest) = number_at(rest)?;
    at_end(rest, Fields::Free { worker, name })
}

/// The numbers of an event's line, if it has that shape.
pub(crate) fn event_fields(line: &[u8]) -> Option<Fields>
    ensures { result ≡ fields.event_fields (lines.words line.now) }
{
    let (command, rest) = cut(line);
    if command == b"a".as_slice() {
        alloc_fields(rest)
    } else if command == b"f".as_slice() {
        free_fields(rest)
    } else {
        None
    }
}

/// The two numbers of the line `ranges N R`.
pub(crate) fn ranges_fields(line: &[u8]) -> Option<(u64, u64)>
    ensures { result ≡ fields.ranges_fields (lines.words line.now) }
{
    let (command, rest) = cut(line);
    if command != b"ranges".as_slice() {
        return None;
    }
    let (count, rest) = number_at(rest)?;
    let (size, rest) = number_at(rest)?;
    at_end(rest, (count, size))
}

/// The number of the line `workers W`.
pub(crate) fn workers_fields(line: &[u8]) -> Option<u64>
    ensures { result ≡ fields.workers_fields (lines.words line.now) }
{
    let (command, rest) = cut(line);
    if command != b"workers".as_slice() {
        return None;
    }
    let (workers, rest) = number_at(rest)?;
    at_end(rest, workers)
}
