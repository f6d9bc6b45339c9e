//! Cuts with a book, as a case says, and a line for each.
//!
//! The commands: `cut WORK EDGES TOKENS SENTENCE` lends a work area of six slices of that length, an edge area of two, and a token
//! area of so many numbers; `find` is the same for search; `slices` takes a length for each of the nine slices. These three are
//! `tokenize` by one mode or the other. `all CHARS OFFSETS TOKENS SENTENCE` is `cut_all`, whose work area is two slices. `head RECORDS
//! SLOTS NEXT TOTAL` stores a head. The first letter tells them apart.
//!
//! What is lent holds sevens at first, so that the places that stay show.
use crate::{kept, line};
use book::Head;
use cases::output::{print, print_command};
use cases::script;
use cuts::{CutError, TokenizeMode};
use std::io;

// The line of a cut into words, with the areas that it leaves.
fn print_tokenized(
    rt: &impl Print,
    command: &[u8],
    answer: Result<usize, CutError>,
    head: Head,
    records: usize,
    slots: usize,
    chars: &[u32],
    offsets: &[u64],
    starts: &[usize],
    scores: &[f64],
    ends: &[u32],
    route_records: &[u32],
    edge_ends: &[u32],
    edge_records: &[u32],
    tokens: &[u32],
) -> io::Result<()> {
    let unchanged = kept::are_sevens(
        chars,
        offsets,
        starts,
        scores,
        ends,
        route_records,
        edge_ends,
        edge_records,
    );
    line::print_answer(
        rt,
        command,
        answer,
        tokens,
        head,
        records,
        slots,
        "work and edges",
        unchanged,
    )
}

// Cuts in the areas that are lent, and prints the line.
fn tokenize_in(
    rt: &impl Print,
    head: Head,
    roots: &[u64],
    slots: &[u64],
    records: &[u64],
    logarithms: &[f64],
    command: &[u8],
    sentence: &[u8],
    mode: TokenizeMode,
    chars: &mut [u32],
    offsets: &mut [u64],
    starts: &mut [usize],
    scores: &mut [f64],
    ends: &mut [u32],
    route_records: &mut [u32],
    edge_ends: &mut [u32],
    edge_records: &mut [u32],
    tokens: &mut [u32],
) -> io::Result<()> {
    let answer = tokenize::tokenize(
        head,
        roots,
        slots,
        records,
        logarithms,
        sentence,
        mode,
        chars,
        offsets,
        starts,
        scores,
        ends,
        route_records,
        edge_ends,
        edge_records,
        tokens,
    );
    print_tokenized(
        rt,
        command,
        answer,
        head,
        records.len(),
        slots.len() / 2,
        chars,
        offsets,
        starts,
        scores,
        ends,
        route_records,
        edge_ends,
        edge_records,
        tokens,
    )
}

// The fields of a command that have the lengths of the nine slices, and the one where the sentence starts.
type Fields = [usize; 10];

// Six slices of one length, and two of another.
const TOGETHER: Fields = [1, 1, 1, 1, 1, 1, 2, 2, 3, 4];

const APART: Fields = [1, 2, 3, 4, 5, 6, 7, 8, 9, 10];

// `cut`, `find` and `slices`
fn tokenize(
    rt: &impl Print,
    head: Head,
    roots: &[u64],
    slots: &[u64],
    records: &[u64],
    logarithms: &[f64],
    command: &[u8],
    fields: Fields,
    mode: TokenizeMode,
) -> io::Result<()> {
    let chars = script::length(command, fields[0], 64);
    let offsets = script::length(command, fields[1], 64);
    let starts = script::length(command, fields[2], 64);
    let scores = script::length(command, fields[3], 64);
    let ends = script::length(command, fields[4], 64);
    let route_records = script::length(command, fields[5], 64);
    let edge_ends = script::length(command, fields[6], 64);
    let edge_records = script::length(command, fields[7], 64);
    let tokens = script::length(command, fields[8], 384);
    let mut char_area = [7u32; 64];
    let mut offset_area = [7u64; 64];
    let mut start_area = [7usize; 64];
    let mut score_area = [7.0f64; 64];
    let mut end_area = [7u32; 64];
    let mut route_record_area = [7u32; 64];
    let mut edge_end_area = [7u32; 64];
    let mut edge_record_area = [7u32; 64];
    let mut token_area = [7u32; 384];
    tokenize_in(
        rt,
        head,
        roots,
        slots,
        records,
        logarithms,
        command,
        script::rest(command, fields[9]),
        mode,
        &mut char_area[..chars],
        &mut offset_area[..offsets],
        &mut start_area[..starts],
        &mut score_area[..scores],
        &mut end_area[..ends],
        &mut route_record_area[..route_records],
        &mut edge_end_area[..edge_ends],
        &mut edge_record_area[..edge_records],
        &mut token_area[..tokens],
    )
}

// As `tokenize_in`, for all words.
fn cut_all_in(
    rt: &impl Print,
    head: Head,
    roots: &[u64],
    slots: &[u64],
    records: &[u64],
    logarithms: &[f64],
    command: &[u8],
    chars: &mut [u32],
    offsets: &mut [u64],
    tokens: &mut [u32],
) -> io::Result<()> {
    let answer = cut_all::cut_all(
        head,
        roots,
        slots,
        records,
        logarithms,
        script::rest(command, 4),
        chars,
        offsets,
        tokens,
    );
    let unchanged = kept::holds_only(chars, 7) && kept::holds_only(offsets, 7);
    line::print_answer(
        rt,
        command,
        answer,
        tokens,
        head,
        records.len(),
        slots.len() / 2,
        "work",
        unchanged,
    )
}

// `all`
fn cut_all(
    rt: &impl Print,
    head: Head,
    roots: &[u64],
    slots: &[u64],
    records: &[u64],
    logarithms: &[f64],
    command: &[u8],
) -> io::Result<()> {
    let chars = script::length(command, 1, 64);
    let offsets = script::length(command, 2, 64);
    let tokens = script::length(command, 3, 384);
    let mut char_area = [7u32; 64];
    let mut offset_area = [7u64; 64];
    let mut token_area = [7u32; 384];
    cut_all_in(
        rt,
        head,
        roots,
        slots,
        records,
        logarithms,
        command,
        &mut char_area[..chars],
        &mut offset_area[..offsets],
        &mut token_area[..tokens],
    )
}

// `head`
fn stored_head(rt: &impl Print, command: &[u8]) -> io::Result<Head> {
    print_command(rt, command)?;
    print(rt, b": stored\n")?;
    Ok(Head {
        records: script::number(command, 1),
        slots: script::number(command, 2),
        next: script::number(command, 3),
        total: script::number(command, 4),
    })
}

// Plays one command. The answer is the head for the next one.
fn turn(
    rt: &impl Print,
    head: Head,
    roots: &[u64],
    slots: &[u64],
    records: &[u64],
    logarithms: &[f64],
    command: &[u8],
) -> io::Result<Head> {
    let (fields, mode) = match command {
        [b'h', ..] => return stored_head(rt, command),
        [b'a', ..] => {
            cut_all(rt, head, roots, slots, records, logarithms, command)?;
            return Ok(head);
        }
        [b'f', ..] => (TOGETHER, TokenizeMode::Search),
        [b's', ..] => (APART, TokenizeMode::Default),
        _ => (TOGETHER, TokenizeMode::Default),
    };
    tokenize(
        rt, head, roots, slots, records, logarithms, command, fields, mode,
    )?;
    Ok(head)
}

// The cuts of a case one after the other.
pub fn play(
    rt: &impl Print,
    head: Head,
    roots: &[u64],
    slots: &[u64],
    records: &[u64],
    logarithms: &[f64],
    cuts: &[u8],
) -> io::Result<()> {
    let mut head = head;
    for command in script::commands(cuts) {
        head = turn(rt, head, roots, slots, records, logarithms, command)?;
    }
    Ok(())
}
