//! The lines of a dictionary text: where each ends, its word and its frequency.
//!
//! The Rust reads a line into a `String`, splits it at white space and parses the second field. Here a line is a part of
//! the text, the word is a part of the line, and nothing is copied.
#![tactic(auto)]

ghost use Rattle.std.specs.Prelude.{◌≡◌, ◌≤◌, ◌<◌, length};
ghost use Rattle.std.proofs.Math.Option.{IsSome};
ghost use Rattle.utf8.specs.Text.{chars_from};
ghost use Rattle.lines.specs.Lines.{line_end, past, space_is, field_at, number, frequency_of, line_of};

use utf8::Malformed;

// Where a field stands: from where to where.
// Kept: positions, and no `Range`, which is not `Copy`.
#[derive(Clone, Copy)]
pub struct Field {
    pub start: usize,
    pub end: usize,
}

// A line with a word: where it stands in the line, and its frequency.
#[derive(Clone, Copy)]
pub struct Entry {
    pub word: Field,
    pub frequency: u32,
}

// Why a line says nothing.
#[derive(Clone, Copy, Debug, PartialEq, Eq)]
pub enum LineError {
    // It is not UTF-8.
    Malformed,
    // Its second field is no frequency.
    BadFrequency,
}

impl From<Malformed> for LineError {
    ghost use Rattle.lines.specs.declared.LineError.TheVariants.{Malformed};

    ghost from_gives = { λ _ e. e ≡ Malformed };

    fn from(_e: Malformed) -> LineError {
        LineError::Malformed
    }
}

// A field that is no frequency.
#[derive(Clone, Copy, Debug, PartialEq, Eq)]
pub struct BadFrequency;

impl From<BadFrequency> for LineError {
    ghost use Rattle.lines.specs.declared.LineError.TheVariants.{BadFrequency};

    ghost from_gives = { λ _ e. e ≡ BadFrequency };

    fn from(_e: BadFrequency) -> LineError {
        LineError::BadFrequency
    }
}

// Where the line ends that starts at a position of a text: at the next LF, or at the text's end.
#[tactic(auto, using(crate::proofs::Ends::end_here, crate::proofs::Ends::end_next, crate::proofs::Ends::end_last))]
pub fn line_end(s: &[u8], at: usize) -> usize
    ensures { result ≡ line_end s.now at }
{
    for end in at..s.len() {
        if s[end] == b'\n' {
            return end;
        }
    }
    at.max(s.len())
}

// The position after the white space, or after what is none, that stands at a position.
// Kept: a step is as wide as its character, and the position is the answer, which an iterator of characters would have to give back.
fn skip(s: &[u8], at: usize, space: bool) -> usize
    requires { IsSome (chars_from s.now at) }
    ensures { result ≡ past (space_is space) at (chars_from s.now at) }
{
    let mut end = at;
    while end < s.len() {
        let next = utf8::next_char(s, end);
        if classes::is_white_space(next.value) != space {
            return end;
        }
        end += next.width;
    }
    end
}

// The first field from a position on.
pub fn next_field(s: &[u8], at: usize) -> Option<Field>
    requires { (at ≤ length s.now) × IsSome (chars_from s.now at) }
    ensures { result ≡ field_at at (chars_from s.now at) }
{
    let start = skip(s, at, true);
    if start == s.len() {
        return None;
    }
    let end = skip(s, start, false);
    Some(Field { start, end })
}

// The number of these digits. It stops at the first that makes the number too large.
#[tactic(auto, using(crate::proofs::Numbers::reading))]
fn parse_digits(digits: &[u8]) -> Result<u32, BadFrequency>
    ensures { result ≡ number digits.now }
{
    if digits.is_empty() {
        return Err(BadFrequency);
    }
    let mut n: u64 = 0;
    for &b in digits {
        if !b.is_ascii_digit() {
            return Err(BadFrequency);
        }
        n = n * 10 + u64::from(b - b'0');
        if 0xFFFF_FFFF < n {
            return Err(BadFrequency);
        }
    }
    Ok(n as u32)
}

// A field as a frequency.
pub fn parse_frequency(field: &[u8]) -> Result<u32, BadFrequency>
    ensures { result ≡ frequency_of field.now }
{
    match field.strip_prefix(b"+") {
        Some(digits) => parse_digits(digits),
        None => parse_digits(field),
    }
}

// A line by its fields, where it has any: the first is the word, the second its frequency, which is 1 where it is absent, and any
// others are ignored.
pub fn parse_line(line: &[u8]) -> Result<Option<Entry>, LineError>
    ensures { result ≡ line_of line.now }
{
    utf8::char_count(line)?;
    let Some(word) = next_field(line, 0) else {
        return Ok(None);
    };
    let Some(field) = next_field(line, word.end) else {
        return Ok(Some(Entry { word, frequency: 1 }));
    };
    let frequency = parse_frequency(&line[field.start..field.end])?;
    Ok(Some(Entry { word, frequency }))
}
