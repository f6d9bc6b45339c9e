//! The cases of an input. They are paragraphs, parted by empty lines; a paragraph that begins with `#` is a note for the reader. The
//! ends of lines within a case lay it out and do not count: there `\n` is LF, `\r` is CR, and `\` with two hexadecimal digits in
//! capitals is any byte.
ghost use Rattle.std.specs.Prelude.{◌<◌, length, IfSome};
ghost use Rattle.std.specs.Iterator.{at_most};

use crate::output::print;
use std::io;
use std::io::Read;

// The bytes that the input may have, and one more.
const SPACE: usize = 65536;

// The bytes that a case may have, and one more.
const CASE: usize = 4096;

// Reads the input. One that fills the space may be cut short, and counts as empty.
fn read<'a>(rt: &impl Print, input: &mut impl Read, space: &'a mut [u8]) -> io::Result<&'a [u8]> {
    let mut done = 0;
    // Kept: a loop by count: each read says how far it came, and the next goes on from there.
    while done < space.len() {
        let n = input.read(&mut space[done..])?;
        if n == 0 {
            break;
        }
        done += n;
    }
    if done == space.len() {
        print(rt, b"the input is too long\n")?;
        return Ok(&[]);
    }
    Ok(&space[..done])
}

// The value of a digit, and 0 for any other byte.
// Kept: 0 is what a case says with such a byte, and no refusal, so that there is no `Option`.
fn value_of(digit: u8) -> u8
    ensures { result < 16 }
{
    match digit {
        b'0'..=b'9' => digit - b'0',
        b'A'..=b'F' => digit - b'A' + 10,
        _ => 0,
    }
}

// The first byte that a paragraph says, none for the end of a line, and the paragraph after it.
fn said(paragraph: &[u8]) -> Option<(Option<u8>, &[u8])>
    ensures { IfSome result (λ said. length said.1.now < length paragraph.now) }
{
    match paragraph {
        [] => None,
        [b'\n', rest @ ..] => Some((None, rest)),
        [b'\\', b'n', rest @ ..] => Some((Some(b'\n'), rest)),
        [b'\\', b'r', rest @ ..] => Some((Some(b'\r'), rest)),
        [b'\\', high, low, rest @ ..] => Some((Some(16 * value_of(*high) + value_of(*low)), rest)),
        [b'\\', high] => Some((Some(16 * value_of(*high)), &[])),
        [b'\\'] => Some((Some(0), &[])),
        [byte, rest @ ..] => Some((Some(*byte), rest)),
    }
}

// Writes what a paragraph says from the space's start on. What does not fit is left out.
fn decode<'a>(paragraph: &[u8], space: &'a mut [u8]) -> &'a [u8] {
    let mut written = 0;
    let mut rest = paragraph;
    while let Some((byte, after)) = said(rest) {
        if written == space.len() {
            break;
        }
        if let Some(byte) = byte {
            space[written] = byte;
            written += 1;
        }
        rest = after;
    }
    &space[..written]
}

// The case that a paragraph says, if it is not a note. A case that fills the space may be cut short, and is none.
fn case_of<'a>(
    rt: &impl Print,
    paragraph: &[u8],
    space: &'a mut [u8],
) -> io::Result<Option<&'a [u8]>> {
    if paragraph.starts_with(b"#") {
        return Ok(None);
    }
    let places = space.len();
    let case = decode(paragraph, space);
    if case.len() == places {
        print(rt, b"a case is too long\n")?;
        return Ok(None);
    }
    if case.is_empty() {
        return Ok(None);
    }
    Ok(Some(case))
}

// The paragraphs of a text one after the other: each ends before an empty line, or at the text's end.
#[derive(Drop)]
struct Paragraphs<'a>(&'a [u8]);

impl<'a> Iterator for Paragraphs<'a> {
    type Item = &'a [u8];

    ghost remaining = { λ s. at_most (length s.0.now) };

    fn next(&mut self) -> Option<&'a [u8]> {
        let text = self.0;
        if text.is_empty() {
            return None;
        }
        let Some(end) = text
            .windows(2)
            .position(|pair| matches!(pair, [b'\n', b'\n']))
        else {
            self.0 = &[];
            return Some(text);
        };
        self.0 = &text[end + 2..];
        Some(&text[..end])
    }
}

// Prints the heading of a program's output, and plays the cases of its input.
pub fn play_all<F: Fn(&[u8]) -> io::Result<()>>(
    rt: &impl Print,
    input: &mut impl Read,
    heading: &[u8],
    play: F,
) -> io::Result<()>
    requires { F.IsAlwaysCallable play }
{
    let mut space = [0u8; SPACE];
    let text = read(rt, input, &mut space)?;
    print(rt, heading)?;
    for paragraph in Paragraphs(text) {
        let mut space = [0u8; CASE];
        if let Some(case) = case_of(rt, paragraph, &mut space)? {
            play(case)?;
        }
    }
    Ok(())
}
