//! What the program `cutlines` answers (document 01, "Program `cutlines`"), call by call: each is made, and its answer written as a
//! line of bytes.
//!
//! The areas of a cut are made anew for each, in the lengths that document 01 names; the book is the caller's.
#![tactic(auto)]

ghost use Rattle.std.specs.Prelude.{◌≡◌, ◌+◌, ◌*◌, ◌≤◌, length};
ghost use Rattle.book.specs.Areas.{book_in};
ghost use Rattle.cuts.specs.Tokens.{token_width};
ghost use Rattle.cuts.specs.Cuts.{cut_answer, tokenize_of, cut_all_of};
ghost use Rattle.printing.specs.Answers.{Put};
ghost use Rattle.answers.specs.Answers.{work_length, edge_length, places, no_tokens, cut_line, NumbersOf, longest_answer, answer_by, Answered};

use book::{Head, LoadError};
use cuts::{CutError, TokenizeMode};
use frames::Kind;

// The places of a work area.
const WORK: usize = 1025;

// The places of an edge area.
const EDGES: usize = 1024;

// The places of a token area.
const PLACES: usize = 512;

// The numbers of a token area.
const TOKENS: usize = PLACES * cuts::TOKEN_WIDTH;

// The bytes of the longest answer.
pub const LONGEST_ANSWER: usize = 7 + 4 * TOKENS;

// How many numbers of the token area so many tokens take; there are no more than it has.
fn numbers_of(count: usize) -> usize
    ensures { NumbersOf count result }
{
    count.min(PLACES) * cuts::TOKEN_WIDTH
}

// Writes the line of what a cut answers.
fn put_cut(cut: Result<usize, CutError>, tokens: &[u32], out: &mut [u8], at: usize) -> usize
    requires { (length tokens.now ≡ places * token_width) × (at + longest_answer ≤ length out.old) }
    ensures put { Put out.old at (cut_line (cut_answer cut tokens.now)) out.new result }
    ensures upper_bound { result ≤ at + longest_answer }
{
    match cut {
        Ok(count) => printing::put_answer(0, count, &tokens[..numbers_of(count)], out, at),
        Err(CutError { refusal, count }) => printing::put_answer(
            book::number_of(Err(refusal)),
            count,
            &tokens[..numbers_of(count)],
            out,
            at,
        ),
    }
}

// 02 and 04: cuts a sentence by a mode, and writes the answer.
pub fn put_tokenize(
    head: Head,
    roots: &[u64],
    slots: &[u64],
    records: &[u64],
    logarithms: &[f64],
    sentence: &[u8],
    mode: TokenizeMode,
    out: &mut [u8],
    at: usize,
) -> usize
    requires { at + longest_answer ≤ length out.old }
    ensures put { Put out.old at (cut_line (tokenize_of mode
        (book_in head roots.now slots.now records.now logarithms.now) work_length edge_length no_tokens sentence.now))
        out.new result }
    ensures upper_bound { result ≤ at + longest_answer }
{
    let mut chars = [0u32; WORK];
    let mut offsets = [0u64; WORK];
    let mut starts = [0usize; WORK];
    let mut scores = [0.0f64; WORK];
    let mut ends = [0u32; WORK];
    let mut route_records = [0u32; WORK];
    let mut edge_ends = [0u32; EDGES];
    let mut edge_records = [0u32; EDGES];
    let mut tokens = [0u32; TOKENS];
    let cut = tokenize::tokenize(
        head,
        roots,
        slots,
        records,
        logarithms,
        sentence,
        mode,
        &mut chars,
        &mut offsets,
        &mut starts,
        &mut scores,
        &mut ends,
        &mut route_records,
        &mut edge_ends,
        &mut edge_records,
        &mut tokens,
    );
    put_cut(cut, &tokens, out, at)
}

// 03: cuts a sentence into all its words, and writes the answer.
pub fn put_cut_all(
    head: Head,
    roots: &[u64],
    slots: &[u64],
    records: &[u64],
    logarithms: &[f64],
    sentence: &[u8],
    out: &mut [u8],
    at: usize,
) -> usize
    requires { at + longest_answer ≤ length out.old }
    ensures put { Put out.old at (cut_line (cut_all_of (book_in head roots.now slots.now records.now logarithms.now)
        work_length no_tokens sentence.now)) out.new result }
    ensures upper_bound { result ≤ at + longest_answer }
{
    let mut chars = [0u32; WORK];
    let mut offsets = [0u64; WORK];
    let mut tokens = [0u32; TOKENS];
    let cut = cut_all::cut_all(
        head,
        roots,
        slots,
        records,
        logarithms,
        sentence,
        &mut chars,
        &mut offsets,
        &mut tokens,
    );
    put_cut(cut, &tokens, out, at)
}

// 01: loads a dictionary, and writes the answer.
pub fn put_load(
    head: &mut Head,
    roots: &mut [u64],
    slots: &mut [u64],
    records: &mut [u64],
    logarithms: &mut [f64],
    text: &[u8],
    out: &mut [u8],
    at: usize,
) -> usize
    requires { at + longest_answer ≤ length out.old }
    ensures answered { Answered (answer_by Kind.Load (book_in head.old roots.old slots.old records.old logarithms.old) text.now)
        out.old at out.new result (book_in head.new roots.new slots.new records.new logarithms.new) }
    ensures end_bound { result ≤ at + longest_answer }
{
    match dict::load_dict(head, roots, slots, records, logarithms, text) {
        Ok(lines) => printing::put_answer(0, lines, &[], out, at),
        Err(LoadError { refusal, line }) => printing::put_answer(
            book::number_of(Err(refusal)),
            line,
            &[],
            out,
            at,
        ),
    }
}
