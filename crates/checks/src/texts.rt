//! Characters and whole texts, written out byte by byte: RFC 3629's boundaries, texts that are cut short, and counts.
ghost use Rattle.std.specs.Prelude.{◌<◌, ◌≤◌, length};

use crate::output::{print_bytes, print_character, print_number_of};
use cases::output::{print, print_decimal};
use std::io;

// The first character of a text.
fn print_first(rt: &impl Print, s: &[u8]) -> io::Result<()> {
    print_bytes(rt, s)?;
    print(rt, b": ")?;
    print_character(rt, utf8::read_char(s, 0))?;
    print(rt, b"\n")
}

// The character at a position of a text.
fn print_at(rt: &impl Print, s: &[u8], at: usize) -> io::Result<()> {
    print_bytes(rt, s)?;
    print(rt, b" at ")?;
    print_decimal(rt, at as u64)?;
    print(rt, b": ")?;
    print_character(rt, utf8::read_char(s, at))?;
    print(rt, b"\n")
}

// One byte: U+0000 to U+007F. Two bytes: U+0080 to U+07FF. 80 alone is stray; C0 80 and C1 BF would be U+0000 and U+007F.
fn print_one_and_two_bytes(rt: &impl Print) -> io::Result<()> {
    print_first(rt, b"\x00")?;
    print_first(rt, b"\x7F")?;
    print_first(rt, b"\x80")?;
    print_first(rt, b"\xC0\x80")?;
    print_first(rt, b"\xC1\xBF")?;
    print_first(rt, b"\xC2\x80")?;
    print_first(rt, b"\xDF\xBF")
}

// Three bytes: U+0800 to U+FFFF, without the surrogates U+D800 to U+DFFF. E0 9F BF would be U+07FF.
fn print_three_bytes(rt: &impl Print) -> io::Result<()> {
    print_first(rt, b"\xE0\x9F\xBF")?;
    print_first(rt, b"\xE0\xA0\x80")?;
    print_first(rt, b"\xED\x9F\xBF")?;
    print_first(rt, b"\xED\xA0\x80")?;
    print_first(rt, b"\xED\xBF\xBF")?;
    print_first(rt, b"\xEE\x80\x80")?;
    print_first(rt, b"\xEF\xBF\xBF")
}

// Four bytes: U+10000 to U+10FFFF. F0 8F BF BF would be U+FFFF, and F4 90 80 80 U+110000.
fn print_four_bytes(rt: &impl Print) -> io::Result<()> {
    print_first(rt, b"\xF0\x8F\xBF\xBF")?;
    print_first(rt, b"\xF0\x90\x80\x80")?;
    print_first(rt, b"\xF4\x8F\xBF\xBF")?;
    print_first(rt, b"\xF4\x90\x80\x80")?;
    print_first(rt, b"\xF5\x80\x80\x80")?;
    print_first(rt, b"\xFE")?;
    print_first(rt, b"\xFF")
}

// The first and the last character of each length, and what lies just below and just above.
pub fn print_boundaries(rt: &impl Print) -> io::Result<()> {
    print(rt, b"\nFirst and last characters, and their neighbours\n")?;
    print_one_and_two_bytes(rt)?;
    print_three_bytes(rt)?;
    print_four_bytes(rt)
}

// What `text` holds up to a cut, with another byte after it.
fn print_followed(rt: &impl Print, text: &mut [u8], cut: usize, after: u8) -> io::Result<()>
    requires { cut < length text.old }
{
    text[cut] = after;
    print_first(rt, &text[..cut + 1])
}

// A character cut short after each number of its bytes: by itself, before an ASCII byte, and before a lead byte. The last two are put
// together in `text`.
fn print_cuts(rt: &impl Print, character: &[u8], text: &mut [u8]) -> io::Result<()>
    requires { length character.now ≤ length text.old }
{
    for (cut, &b) in character.iter().enumerate() {
        print_first(rt, &character[..cut])?;
        print_followed(rt, text, cut, 0x41)?;
        print_followed(rt, text, cut, 0xC3)?;
        text[cut] = b;
    }
    print_first(rt, character)
}

pub fn print_truncations(rt: &impl Print) -> io::Result<()> {
    let mut text = [0u8; 4];
    print(
        rt,
        b"\nCharacters cut short, by themselves, before 41 and before C3\n",
    )?;
    print_cuts(rt, b"\xC3\xA9", &mut text)?;
    print_cuts(rt, b"\xE4\xBD\xA0", &mut text)?;
    print_cuts(rt, b"\xF0\x9F\x98\x80", &mut text)
}

pub fn print_positions(rt: &impl Print) -> io::Result<()> {
    print(rt, b"\nPositions within a text, at its end and beyond\n")?;
    print_at(rt, b"", 0)?;
    print_at(rt, b"", 1)?;
    print_at(rt, b"\xC3\xA9", 0)?;
    print_at(rt, b"\xC3\xA9", 1)?;
    print_at(rt, b"\xC3\xA9", 2)?;
    print_at(rt, b"\xC3\xA9", 3)?;
    print_at(rt, b"\xC3\xA9", 0xFFFF_FFFF_FFFF_FFFF)
}

// How many characters a whole text has.
fn print_count(rt: &impl Print, s: &[u8]) -> io::Result<()> {
    print_bytes(rt, s)?;
    print(rt, b": ")?;
    match utf8::char_count(s) {
        Ok(n) => print_number_of(rt, n, b"character")?,
        Err(_) => print(rt, b"malformed")?,
    }
    print(rt, b"\n")
}

// The empty text; one with characters of each length; and that one with a malformed byte at its start, in its middle and at its end.
pub fn print_counts(rt: &impl Print) -> io::Result<()> {
    print(rt, b"\nCharacters of whole texts\n")?;
    print_count(rt, b"")?;
    print_count(rt, b"a\xC3\xA9\xE4\xBD\xA0\xF0\x9F\x98\x80b")?;
    print_count(rt, b"\xFFa\xC3\xA9\xE4\xBD\xA0\xF0\x9F\x98\x80b")?;
    print_count(rt, b"a\xC3\xA9\xE4\xBD\xA0\x80\xF0\x9F\x98\x80b")?;
    print_count(rt, b"a\xC3\xA9\xE4\xBD\xA0\xF0\x9F\x98\x80b\xE4")
}
