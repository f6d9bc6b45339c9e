//! RFC 3629's table of well-formed byte sequences, found by reading: which second bytes go with which lead bytes, over all pairs, and
//! which third and fourth bytes are read.
use crate::output::{print_number_of, print_range};
use crate::sweep::{print_ranges, run_end, same_lead, width};
use cases::output::print;
use std::io;

const BYTES: u32 = 0x100;

// What is read of a text, by how many bytes.
fn print_read(rt: &impl Print, width: Option<usize>) -> io::Result<()> {
    print(rt, b" ")?;
    match width {
        Some(width) => print_number_of(rt, width, b"byte"),
        None => print(rt, b"malformed"),
    }
}

// What is read after some lead bytes that are read alike: where the second byte does not matter, that alone; else the second bytes
// that go with them.
fn print_lead(rt: &impl Print, first: u32, last: u32) -> io::Result<()> {
    let question = |second| width([first, second, 0x80, 0x80]);
    print(rt, b"lead ")?;
    print_range(rt, first, last, 2)?;
    print(rt, b":")?;
    if run_end(&question, 0, BYTES) == BYTES {
        print_read(rt, question(0))?;
    } else {
        print_ranges(rt, &question, BYTES, b" second ", 2)?;
    }
    print(rt, b"\n")
}

// A line for each maximal run of lead bytes that are read alike.
// Kept: a turn goes on where the last run ended, as in `print_ranges`.
fn print_leads(rt: &impl Print) -> io::Result<()> {
    let mut lead: u32 = 0;
    while lead < BYTES {
        let end = run_end(&|other| same_lead(lead, other), lead, BYTES);
        print_lead(rt, lead, end - 1)?;
        lead = end;
    }
    Ok(())
}

// The bytes x with which a character is read, in the text that is named.
fn print_later<F: Fn(u32) -> Option<usize>>(
    rt: &impl Print,
    name: &[u8],
    question: F,
    before: &[u8],
) -> io::Result<()>
    requires { F.IsAlwaysCallable question }
{
    print(rt, name)?;
    print_ranges(rt, &question, BYTES, before, 2)?;
    print(rt, b"\n")
}

pub fn print_group(rt: &impl Print) -> io::Result<()> {
    print(
        rt,
        b"RFC 3629: lead byte and second byte, over all pairs, with 80 80 after them\n",
    )?;
    print_leads(rt)?;
    print(rt, b"\nRFC 3629: third and fourth byte x\n")?;
    print_later(
        rt,
        b"E1 80 x 80:",
        |x| width([0xE1, 0x80, x, 0x80]),
        b" third ",
    )?;
    print_later(
        rt,
        b"F1 80 x 80:",
        |x| width([0xF1, 0x80, x, 0x80]),
        b" third ",
    )?;
    print_later(
        rt,
        b"F1 80 80 x:",
        |x| width([0xF1, 0x80, 0x80, x]),
        b" fourth ",
    )
}
