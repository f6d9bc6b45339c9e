//! What the programs print with: text, numbers, a command as it was given, and a case's heading.
use crate::script;
use std::io;

// Bytes as they stand.
pub fn print(rt: &impl Print, text: &[u8]) -> io::Result<()> {
    rt.write_all(text)
}

pub fn print_decimal(rt: &impl Print, n: u64) -> io::Result<()> {
    rt.print(n)
}

fn is_well_formed(s: &[u8]) -> bool {
    utf8::char_count(s).is_ok()
}

// A byte of a command. The end of a line would break the line that is printed, and is shown as `/`; other control bytes, and bytes
// that would make the output malformed, are shown as numbers, `<255>`.
fn print_byte(rt: &impl Print, b: u8, plain: bool) -> io::Result<()> {
    match b {
        b'\n' => print(rt, b"/"),
        0x20..=0x7F => print(rt, &[b]),
        0x80..=0xFF if plain => print(rt, &[b]),
        _ => print!(rt; "<{b}>"),
    }
}

pub fn print_command(rt: &impl Print, s: &[u8]) -> io::Result<()> {
    let plain = is_well_formed(s);
    for b in s {
        print_byte(rt, *b, plain)?;
    }
    Ok(())
}

// The heading of a case, with its lengths.
pub fn print_heading(rt: &impl Print, case: &[u8]) -> io::Result<()> {
    print(rt, b"\n")?;
    print(rt, script::part(case, 0))?;
    print(rt, b" (")?;
    print(rt, script::part(case, 1))?;
    print(rt, b")\n")
}
