//! The program `fillzero` (document 02, note 7): reads a sheet from standard input and writes it to standard output with a space
//! and 0 after each word that has no second field, so that a load makes of it what it made of it before that note.
//!
//! What is written is proved elsewhere (`sheets::fill`). Here the sheet is read and written; that this part is safe and ends is
//! what is proved of it. A sheet that cannot be filled gives no output and a line on standard error, as does an input or output
//! that fails. `tools/fillzero` builds this program and runs it, and makes of such a line the exit status 1.
#![tactic(auto)]

ghost use Rattle.std.specs.Prelude.{◌≤◌, length, IfOk};

use sheets::TooLong;
use std::io;
use std::io::Read;

// One byte more than the longest sheet has, so that a longer one is seen.
const SPACE: usize = sheets::LONGEST_SHEET + 1;

// Says on standard error why there is no output.
fn complain(rt: &impl Eprint, text: &str) {
    let _ = rt.eprintln(text);
}

// Reads until the input ends or the space is full, and answers how many bytes there are.
// Kept: how many bytes come at a time only the input says, so the loop counts them.
fn read_sheet(stdin: &mut impl Read, space: &mut [u8]) -> io::Result<usize>
    ensures { IfOk result (λ bytes. bytes ≤ length space.new) }
{
    let mut at: usize = 0;
    while at < space.len() {
        match stdin.read(&mut space[at..])? {
            0 => break,
            bytes => at += bytes,
        }
    }
    Ok(at)
}

fn write_sheet(rt: &(impl Print + Eprint), sheet: &[u8]) {
    if rt.write_all(sheet).is_err() {
        complain(rt, "fillzero: standard output cannot be written");
    }
}

fn main(rt: HostRuntime) {
    let mut space = [0u8; SPACE];
    let Ok(end) = read_sheet(&mut rt.stdin(), &mut space) else {
        complain(&rt, "fillzero: standard input cannot be read");
        return;
    };
    let mut out = [0u8; sheets::ROOM];
    match sheets::fill(&space[..end], &mut out) {
        Ok(end) => write_sheet(&rt, &out[..end]),
        Err(TooLong) => complain(&rt, "fillzero: the sheet has more than 65,536 bytes"),
    }
}
