//! What the program `cutlines` answers to a line (document 01, "Program `cutlines`"): a line of bytes in, a line of bytes out, with
//! the book lent between.
//!
//! A frame asks for one of the public calls. The book serves one line after the other.
#![tactic(auto)]

ghost use Rattle.std.specs.Prelude.{◌+◌, ◌≤◌, length};
ghost use Rattle.book.specs.Areas.{book_in};
ghost use Rattle.answers.specs.Answers.{longest_answer, answer_of, Answered};

use book::Head;
use frames::Kind;

// Answers a line without its end: writes the answer from a place on.
pub fn answer_line(
    head: &mut Head,
    roots: &mut [u64],
    slots: &mut [u64],
    records: &mut [u64],
    logarithms: &mut [f64],
    line: &[u8],
    out: &mut [u8],
    at: usize,
) -> usize
    requires { at + longest_answer ≤ length out.old }
    ensures answered { Answered (answer_of (book_in head.old roots.old slots.old records.old logarithms.old) line.now)
        out.old at out.new result (book_in head.new roots.new slots.new records.new logarithms.new) }
    ensures end_bound { result ≤ at + longest_answer }
{
    let mut bytes = [0u8; frames::LONGEST];
    let Some(frame) = frames::read_frame(line, &mut bytes) else {
        return printing::put_no_frame(out, at);
    };
    let text = frame.text;
    match frame.kind {
        Kind::Load => answers::put_load(head, roots, slots, records, logarithms, text, out, at),
        Kind::Cut(kind) => answer_cut::put_answer(
            *head,
            roots,
            slots,
            records,
            logarithms,
            Some(kind),
            text,
            out,
            at,
        ),
    }
}
