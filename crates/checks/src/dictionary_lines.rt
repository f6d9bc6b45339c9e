//! Frequencies, and lines of a dictionary text: where the word stands, in bytes, and its frequency.
use crate::output::print_bytes;
use cases::output::{print, print_decimal};
use lines::{Entry, LineError};
use std::io;

fn print_frequency(rt: &impl Print, field: &[u8]) -> io::Result<()> {
    print_bytes(rt, field)?;
    print(rt, b": ")?;
    match lines::parse_frequency(field) {
        Ok(n) => print_decimal(rt, u64::from(n))?,
        Err(_) => print(rt, b"refused")?,
    }
    print(rt, b"\n")
}

// An optional + and digits, up to 4294967295; then what is none.
fn print_frequencies(rt: &impl Print) -> io::Result<()> {
    print_frequency(rt, b"0")?;
    print_frequency(rt, b"7")?;
    print_frequency(rt, b"+7")?;
    print_frequency(rt, b"+0")?;
    print_frequency(rt, b"0000000000000000000007")?;
    print_frequency(rt, b"4294967295")?;
    print_frequency(rt, b"+04294967295")?;
    print_frequency(rt, b"")?;
    print_frequency(rt, b"+")?;
    print_frequency(rt, b"++7")?;
    print_frequency(rt, b"-0")?;
    print_frequency(rt, b"7a")?;
    print_frequency(rt, b"a7")?;
    print_frequency(rt, b"7.")?;
    print_frequency(rt, b"/7")?;
    print_frequency(rt, b":7")?;
    print_frequency(rt, b"4294967296")?;
    print_frequency(rt, b"18446744073709551616")?;
    print_frequency(rt, b"99999999999999999999999999999999")?;
    print_frequency(rt, b"\xEF\xBC\x91")
}

fn print_line(rt: &impl Print, line: &[u8]) -> io::Result<()> {
    print_bytes(rt, line)?;
    print(rt, b": ")?;
    match lines::parse_line(line) {
        Err(LineError::Malformed) => print(rt, b"malformed")?,
        Err(LineError::BadFrequency) => print(rt, b"no frequency")?,
        Ok(None) => print(rt, b"blank")?,
        Ok(Some(Entry { word, frequency })) => {
            print(rt, b"word from ")?;
            print_decimal(rt, word.start as u64)?;
            print(rt, b" to ")?;
            print_decimal(rt, word.end as u64)?;
            print(rt, b", frequency ")?;
            print_decimal(rt, u64::from(frequency))?;
        }
    }
    print(rt, b"\n")
}

// White space of one, two and three bytes around the fields; a third field; no second one, which means 1; blank lines; what is refused.
fn print_lines(rt: &impl Print) -> io::Result<()> {
    print_line(rt, b"\xE7\x94\xB2 5")?;
    print_line(rt, b"\xE7\x94\xB2")?;
    print_line(rt, b"\xE7\x94\xB2\xE3\x80\x80\r")?;
    print_line(rt, b"\xE7\x94\xB2 0")?;
    print_line(rt, b" \t\xE7\x94\xB2  5\t n x")?;
    print_line(rt, b"\xE3\x80\x80\xE7\x94\xB2\xE3\x80\x805\xE3\x80\x80")?;
    print_line(rt, b"a\xC2\x85+7")?;
    print_line(rt, b"a\xE2\x80\x8B5")?;
    print_line(rt, b"a 5\r")?;
    print_line(rt, b"\x00 1")?;
    print_line(rt, b"")?;
    print_line(rt, b" \t\r\xC2\xA0")?;
    print_line(rt, b"a +")?;
    print_line(rt, b"a x")?;
    print_line(rt, b"a \xEF\xBC\x91")?;
    print_line(rt, b"a 5 \xFF")?;
    print_line(rt, b"\xE7\x94 5")?;
    print_line(rt, b"a x \xC3")
}

// Where each line of a text ends, from its start on.
fn print_ends(rt: &impl Print, s: &[u8], from: usize) -> io::Result<()> {
    print_bytes(rt, s)?;
    print(rt, b" from ")?;
    print_decimal(rt, from as u64)?;
    print(rt, b": line to ")?;
    print_decimal(rt, lines::line_end(s, from) as u64)?;
    print(rt, b"\n")
}

pub fn print_group(rt: &impl Print) -> io::Result<()> {
    print(rt, b"\nFrequencies\n")?;
    print_frequencies(rt)?;
    print(rt, b"\nLines of a dictionary\n")?;
    print_lines(rt)?;
    print_ends(rt, b"a 1\nb\r\n\nc", 0)?;
    print_ends(rt, b"a 1\nb\r\n\nc", 4)?;
    print_ends(rt, b"a 1\nb\r\n\nc", 7)?;
    print_ends(rt, b"a 1\nb\r\n\nc", 8)?;
    print_ends(rt, b"", 0)
}
