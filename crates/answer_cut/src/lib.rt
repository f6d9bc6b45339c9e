//! What the program `cutlines` answers to a frame that leaves the book as it is, and to what is no frame (document 01, "Program
//! `cutlines`"): the cut that the frame's kind asks for.
#![tactic(auto)]

ghost use Rattle.std.specs.Prelude.{◌≡◌, ◌+◌, ◌≤◌, length};
ghost use Rattle.book.specs.Areas.{book_in};
ghost use Rattle.printing.specs.Answers.{Put};
ghost use Rattle.answers.specs.Answers.{longest_answer, answer_cut_by};

use book::Head;
use cuts::TokenizeMode;
use frames::CutKind;

// Answers a frame that leaves the book as it is, and what is no frame, which has no kind.
pub fn put_answer(
    head: Head,
    roots: &[u64],
    slots: &[u64],
    records: &[u64],
    logarithms: &[f64],
    asked: Option<CutKind>,
    text: &[u8],
    out: &mut [u8],
    at: usize,
) -> usize
    requires { at + longest_answer ≤ length out.old }
    ensures put { Put out.old at (answer_cut_by asked (book_in head roots.now slots.now records.now logarithms.now)
        text.now).line out.new result }
    ensures upper_bound { result ≤ at + longest_answer }
{
    let Some(kind) = asked else {
        return printing::put_no_frame(out, at);
    };
    match kind {
        CutKind::Plain => answers::put_tokenize(
            head,
            roots,
            slots,
            records,
            logarithms,
            text,
            TokenizeMode::Default,
            out,
            at,
        ),
        CutKind::All => answers::put_cut_all(
            head, roots, slots, records, logarithms, text, out, at,
        ),
        CutKind::Search => answers::put_tokenize(
            head,
            roots,
            slots,
            records,
            logarithms,
            text,
            TokenizeMode::Search,
            out,
            at,
        ),
    }
}
