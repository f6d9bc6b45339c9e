//! The input, block by block, and the answers to its lines.
ghost use Rattle.std.specs.Prelude.{◌+◌, ◌≤◌, length, IfOk};
ghost use Rattle.answers.specs.Answers.{longest_answer};

use book::Head;
use input_lines::Line;
use std::fmt;
use std::io::Read;

// The bytes that are read at once, and those that are written at once, if so many are there.
const BLOCK: usize = 65536;

// Why the program ends before its input does.
#[derive(Clone, Copy, Debug, PartialEq, Eq)]
pub enum Failure {
    Input,
    Output,
}

impl fmt::Display for Failure {
    fn fmt<W: fmt::Write>(&self, f: &mut fmt::Formatter<W>) -> fmt::Result {
        match self {
            Failure::Input => write!(f, "standard input cannot be read"),
            Failure::Output => write!(f, "standard output cannot be written"),
        }
    }
}

// Writes the answers that wait.
// Kept: an area and where the answers in it end: the program has fixed memory, so no `Vec`.
fn write_answers(rt: &impl Print, out: &[u8], end: usize) -> Result<(), Failure>
    requires { end ≤ length out.now }
{
    rt.write_all(&out[..end]).map_err(|_| Failure::Output)
}

// The place after the answers that wait or, where the longest answer would not fit, the start, once these are written.
fn next_place(rt: &impl Print, out: &[u8], end: usize) -> Result<usize, Failure>
    requires { (end ≤ length out.now) × (longest_answer ≤ length out.now) }
    ensures { IfOk result (λ at. at + longest_answer ≤ length out.now) }
{
    if answers::LONGEST_ANSWER <= out.len() - end {
        return Ok(end);
    }
    write_answers(rt, out, end)?;
    Ok(0)
}

// Answers the lines that end in a piece of the input, and keeps the beginning of the one that does not.
fn answer_lines(
    rt: &impl Print,
    head: &mut Head,
    roots: &mut [u64],
    slots: &mut [u64],
    records: &mut [u64],
    logarithms: &mut [f64],
    input: &[u8],
    line: &mut Line,
) -> Result<(), Failure> {
    let mut out = [0u8; BLOCK];
    let mut end: usize = 0;
    let mut rest = input;
    while let Some(after) = input_lines::take_line(rest, line) {
        let at = next_place(rt, &out, end)?;
        end = answer_line::answer_line(
            head,
            roots,
            slots,
            records,
            logarithms,
            line.bytes(),
            &mut out,
            at,
        );
        line.clear();
        rest = after;
    }
    write_answers(rt, &out, end)
}

// Answers the whole input. At its end a line that has no LF yet gets one.
pub fn answer_all(
    rt: &impl Print,
    stdin: &mut impl Read,
    head: &mut Head,
    roots: &mut [u64],
    slots: &mut [u64],
    records: &mut [u64],
    logarithms: &mut [f64],
) -> Result<(), Failure> {
    let mut space = [0u8; BLOCK];
    let mut line = Line::new();
    // Nothing says that the input ends; no input has as many blocks.
    for _ in 0..u64::MAX {
        let count = stdin.read(&mut space).map_err(|_| Failure::Input)?;
        if count == 0 {
            break;
        }
        let block = &space[..count];
        answer_lines(
            rt, head, roots, slots, records, logarithms, block, &mut line,
        )?;
    }
    if !line.is_empty() {
        answer_lines(
            rt, head, roots, slots, records, logarithms, b"\n", &mut line,
        )?;
    }
    Ok(())
}
