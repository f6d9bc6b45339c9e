//! Characters of a text in UTF-8, by RFC 3629.
//!
//! The Rust gets its texts as `&str`, already checked. The bridge gets bytes, so the check stands here. It goes by the nine rows
//! of RFC 3629's syntax, the Unicode Standard's table 3-7: each row is a line of the code, and overlong forms, surrogates and
//! numbers above U+10FFFF are in none of them. After the check a text's characters are read without tests, as the Rust reads a
//! `&str`. With each character goes how many code units it takes in UTF-16, in which a browser counts.
#![tactic(auto)]

ghost use Rattle.std.specs.Prelude.{◌≡◌, ◌<◌, length, get_or};
ghost use Rattle.std.proofs.Math.Option.{IsSome};
ghost use Rattle.utf8.specs.Characters.{octets, char, character_at};
ghost use Rattle.utf8.specs.Rows.{inside, begins_row, tail_of};
ghost use Rattle.utf8.specs.Text.{chars_of, chars_from, count_of};

// The bytes of a character are put together six bits after six bits, with the marks that RFC 3629 gives them: 110 and 10
// of two bytes, 1110 and 10 twice of three, 11110 and 10 three times of four. This is what the marks add to the value.
const TWO_MARKS: u32 = 0x3080;

const THREE_MARKS: u32 = 0xE_2080;

const FOUR_MARKS: u32 = 0x3C8_2080;

// A character's scalar value, how many bytes it takes, and how many code units in UTF-16.
#[derive(Clone, Copy)]
pub struct NextChar {
    pub value: u32,
    pub width: usize,
    pub units: usize,
}

impl NextChar {
    fn new(value: u32, width: usize, units: usize) -> NextChar
        ensures { result ≡ record { value = value; width = width; units = units } }
    {
        NextChar {
            value,
            width,
            units,
        }
    }
}

// Bytes that begin no character.
#[derive(Clone, Copy, Debug, PartialEq, Eq)]
pub struct Malformed;

// The byte at a position; 0 where the text has ended.
fn byte_at(s: &[u8], at: usize) -> u8
    ensures { result ≡ get_or s.now at 0 }
{
    s.get(at).copied().unwrap_or(0)
}

// The byte at a position, where it is UTF8-tail, from 0x80 to 0xBF.
fn tail_at(s: &[u8], at: usize) -> Result<u32, Malformed>
    ensures { result ≡ tail_of (get_or s.now at 0) }
{
    match s.get(at) {
        Some(&b) if b / 0x40 == 2 => Ok(u32::from(b)),
        _ => Err(Malformed),
    }
}

fn is_between(b: u8, first: u8, last: u8) -> bool
    ensures { result ≡ inside (octets first last) b }
{
    (first..=last).contains(&b)
}

// Whether a lead byte and a second byte begin a sequence of two bytes.
// Kept: one function over the rows of every length was tried, and checking and counting took 13% more instructions.
fn begins_two(b0: u8, b1: u8) -> bool
    ensures { result ≡ begins_row 2 b0 b1 }
{
    match b0 {
        0xC2..=0xDF => is_between(b1, 0x80, 0xBF),
        _ => false,
    }
}

// Whether they begin one of three bytes.
fn begins_three(b0: u8, b1: u8) -> bool
    ensures { result ≡ begins_row 3 b0 b1 }
{
    match b0 {
        0xE0 => is_between(b1, 0xA0, 0xBF),
        0xE1..=0xEC => is_between(b1, 0x80, 0xBF),
        0xED => is_between(b1, 0x80, 0x9F),
        0xEE..=0xEF => is_between(b1, 0x80, 0xBF),
        _ => false,
    }
}

// Whether they begin one of four bytes.
fn begins_four(b0: u8, b1: u8) -> bool
    ensures { result ≡ begins_row 4 b0 b1 }
{
    match b0 {
        0xF0 => is_between(b1, 0x90, 0xBF),
        0xF1..=0xF3 => is_between(b1, 0x80, 0xBF),
        0xF4 => is_between(b1, 0x80, 0x8F),
        _ => false,
    }
}

// The character at a position of a text, by the table's rows: the lead byte says how many bytes there are, the lead byte and the
// second byte are decided by the rows of that length, and the others are tails. What they spell is put together and not tested.
// Four bytes spell U+10000 or more, and fewer spell less: so the length says the units of UTF-16 too.
// A byte is tested before it is made wide: of a byte, a range that begins with 0x80 is one comparison.
pub fn read_char(s: &[u8], at: usize) -> Result<Option<NextChar>, Malformed>
    ensures { result ≡ character_at s.now at }
{
    if s.len() <= at {
        return Ok(None);
    }
    let b0 = s[at];
    if b0 < 0x80 {
        return Ok(Some(NextChar::new(u32::from(b0), 1, 1)));
    }
    let b1 = byte_at(s, at + 1);
    let c1 = u32::from(b0) * 0x40 + u32::from(b1);
    if b0 < 0xE0 {
        if !begins_two(b0, b1) {
            return Err(Malformed);
        }
        return Ok(Some(NextChar::new(c1 - TWO_MARKS, 2, 1)));
    }
    if b0 < 0xF0 {
        if !begins_three(b0, b1) {
            return Err(Malformed);
        }
        let c2 = c1 * 0x40 + tail_at(s, at + 2)?;
        return Ok(Some(NextChar::new(c2 - THREE_MARKS, 3, 1)));
    }
    if !begins_four(b0, b1) {
        return Err(Malformed);
    }
    let c2 = c1 * 0x40 + tail_at(s, at + 2)?;
    let c3 = c2 * 0x40 + tail_at(s, at + 3)?;
    Ok(Some(NextChar::new(c3 - FOUR_MARKS, 4, 2)))
}

// The character at a position of a text that is known to be well formed, where nothing malformed is met, and no end: the
// bytes are as many as the first one says, and none of them is tested.
pub fn next_char(s: &[u8], at: usize) -> NextChar
    requires { (at < length s.now) × IsSome (chars_from s.now at) }
    ensures { character_at s.now at ≡ char result.value result.width result.units }
{
    let b0 = u32::from(s[at]);
    if b0 < 0x80 {
        return NextChar::new(b0, 1, 1);
    }
    let c1 = b0 * 0x40 + u32::from(s[at + 1]);
    if b0 < 0xE0 {
        return NextChar::new(c1 - TWO_MARKS, 2, 1);
    }
    let c2 = c1 * 0x40 + u32::from(s[at + 2]);
    if b0 < 0xF0 {
        return NextChar::new(c2 - THREE_MARKS, 3, 1);
    }
    let c3 = c2 * 0x40 + u32::from(s[at + 3]);
    NextChar::new(c3 - FOUR_MARKS, 4, 2)
}

// Checks a whole text and counts its characters, in one pass.
pub fn char_count(s: &[u8]) -> Result<usize, Malformed>
    ensures { result ≡ count_of (chars_of s.now) }
{
    // Lent anew, so that the compiler passes the slice's place and length, and not where the two are kept.
    let s = &*s;
    let mut at: usize = 0;
    let mut n: usize = 0;
    while let Some(next) = read_char(s, at)? {
        at += next.width;
        n += 1;
    }
    Ok(n)
}
