//! What the groups print with beside text and numbers: ranges of numbers, bytes, and what stands at a position of a text.
ghost use Rattle.std.specs.Prelude.{◌<◌, ◌≤◌};

use cases::output::{print, print_decimal};
use std::io;
use utf8::{Malformed, NextChar};

fn digit(d: u32) -> u8
    requires { d < 16 }
{
    if d < 10 {
        b'0' + d as u8
    } else {
        b'A' + (d - 10) as u8
    }
}

// How many hexadecimal digits x takes, or `least` where that is more.
fn places(x: u32, least: u32) -> u32
    requires { least ≤ 8 }
    ensures { result ≤ 8 }
{
    let needed = (35 - x.leading_zeros()) / 4;
    needed.max(least)
}

// x in hexadecimal, in upper case as documents write code points, with at least so many digits.
pub fn print_hex(rt: &impl Print, x: u32, least: u32) -> io::Result<()>
    requires { least ≤ 8 }
{
    for place in (0..places(x, least)).rev() {
        print(rt, &[digit((x >> (4 * place)) % 16)])?;
    }
    Ok(())
}

// The numbers from first to last, as `A0..BF`; one number by itself.
pub fn print_range(rt: &impl Print, first: u32, last: u32, least: u32) -> io::Result<()>
    requires { least ≤ 8 }
{
    print_hex(rt, first, least)?;
    if first < last {
        print(rt, b"..")?;
        print_hex(rt, last, least)?;
    }
    Ok(())
}

// A number of things, as `1 byte` and `2 bytes`.
pub fn print_number_of(rt: &impl Print, n: usize, thing: &[u8]) -> io::Result<()> {
    print_decimal(rt, n as u64)?;
    print(rt, b" ")?;
    print(rt, thing)?;
    if n != 1 {
        print(rt, b"s")?;
    }
    Ok(())
}

// The bytes of a text, as `E4 BD A0`.
pub fn print_bytes(rt: &impl Print, s: &[u8]) -> io::Result<()> {
    if s.is_empty() {
        return print(rt, b"no bytes");
    }
    for (i, &b) in s.iter().enumerate() {
        if 0 < i {
            print(rt, b" ")?;
        }
        print_hex(rt, u32::from(b), 2)?;
    }
    Ok(())
}

// What `utf8::read_char` answers.
pub fn print_character(
    rt: &impl Print,
    read: Result<Option<NextChar>, Malformed>,
) -> io::Result<()> {
    match read {
        Ok(Some(c)) => {
            print(rt, b"char U+")?;
            print_hex(rt, c.value, 4)?;
            print(rt, b", ")?;
            print_number_of(rt, c.width, b"byte")?;
            print(rt, b", ")?;
            print_number_of(rt, c.units, b"unit")
        }
        Ok(None) => print(rt, b"end"),
        Err(Malformed) => print(rt, b"malformed"),
    }
}
