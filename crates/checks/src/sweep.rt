//! A sweep asks one question of each number from 0 up, and prints the ranges of numbers that it answers alike.
ghost use Rattle.std.specs.Prelude.{◌<◌, ◌≤◌};

use crate::output::{print_number_of, print_range};
use cases::output::print;
use std::io;

// How many bytes the first character of a text of four bytes takes, if it is not malformed. The bytes are numbers below 0x100.
pub fn width(bytes: [u32; 4]) -> Option<usize> {
    match utf8::read_char(&bytes.map(|b| (b % 0x100) as u8), 0) {
        Ok(Some(c)) => Some(c.width),
        _ => None,
    }
}

// Whether two lead bytes are read alike with each second byte.
pub fn same_lead(lead: u32, other: u32) -> bool {
    (0..0x100).all(|second| {
        width([lead, second, 0x80, 0x80]) == width([other, second, 0x80, 0x80])
    })
}

// The first number above `from` that is answered otherwise than `from`, or `limit`.
pub fn run_end<A: PartialEq + Copy, F: Fn(u32) -> A>(question: &F, from: u32, limit: u32) -> u32
    requires callable { F.IsAlwaysCallable question.now }
    requires below { from < limit }
    ensures { (from < result) × (result ≤ limit) }
{
    let same = question(from);
    for x in from + 1..limit {
        if question(x) != same {
            return x;
        }
    }
    limit
}

// A range of numbers with one answer, after `before`; nothing where the answer is none. An answer above 1 is so many bytes, and
// follows the range.
fn print_run(
    rt: &impl Print,
    first: u32,
    last: u32,
    found: Option<usize>,
    before: &[u8],
    least: u32,
) -> io::Result<()>
    requires { least ≤ 8 }
{
    let Some(found) = found else {
        return Ok(());
    };
    print(rt, before)?;
    print_range(rt, first, last, least)?;
    if 1 < found {
        print(rt, b", ")?;
        print_number_of(rt, found, b"byte")?;
    }
    Ok(())
}

// Each maximal range of numbers below `limit` that have one answer.
// Kept: a turn goes on where the last run ended, so it is no range of numbers that is gone through.
pub fn print_ranges<F: Fn(u32) -> Option<usize>>(
    rt: &impl Print,
    question: &F,
    limit: u32,
    before: &[u8],
    least: u32,
) -> io::Result<()>
    requires callable { F.IsAlwaysCallable question.now }
    requires places { least ≤ 8 }
{
    let mut x: u32 = 0;
    while x < limit {
        let end = run_end(question, x, limit);
        print_run(rt, x, end - 1, question(x), before, least)?;
        x = end;
    }
    Ok(())
}
