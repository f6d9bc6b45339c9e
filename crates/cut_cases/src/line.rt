//! The line of a cut: its number, the tokens written, and the token area afterwards, with a bar before each token's numbers. Where a
//! cut does not begin, its line says whether the work area and the edge area stayed too; once it has begun their content is free.
use book::{Head, Refusal};
use cases::output::{print, print_command};
use cuts::CutError;
use std::io;

// Whether a cut that is refused has not begun, by its refusal and the head: damage is met before the cut only where the head has it.
fn has_not_begun(refusal: Refusal, head: Head, records: usize, slots: usize) -> bool {
    match refusal {
        Refusal::BadAreas | Refusal::TooLong | Refusal::Malformed | Refusal::WorkTooShort => true,
        Refusal::Damaged => {
            slots <= trie::MOST_SLOTS && book::is_head_damaged(head, records, slots)
        }
        _ => false,
    }
}

// The numbers of a token area, with a bar before the first of each token.
fn print_tokens(rt: &impl Print, tokens: &[u32]) -> io::Result<()> {
    for token in tokens.chunks(cuts::TOKEN_WIDTH) {
        print(rt, b" |")?;
        for n in token {
            print!(rt; " {n}")?;
        }
    }
    Ok(())
}

// The line up to its end.
fn print_cut(
    rt: &impl Print,
    command: &[u8],
    number: u32,
    count: usize,
    tokens: &[u32],
) -> io::Result<()> {
    print_command(rt, command)?;
    print!(rt; ": {number}, tokens {count}")?;
    print_tokens(rt, tokens)
}

// The end of the line, which says where a cut has not begun whether what is named stayed as it was.
fn print_kept(rt: &impl Print, has_not_begun: bool, name: &str, unchanged: bool) -> io::Result<()> {
    if has_not_begun {
        let state = if unchanged { "unchanged" } else { "changed" };
        print!(rt; "; {name} {state}")?;
    }
    print(rt, b"\n")
}

pub fn print_answer(
    rt: &impl Print,
    command: &[u8],
    answer: Result<usize, CutError>,
    tokens: &[u32],
    head: Head,
    records: usize,
    slots: usize,
    name: &str,
    unchanged: bool,
) -> io::Result<()> {
    match answer {
        Ok(count) => {
            print_cut(rt, command, 0, count, tokens)?;
            print_kept(rt, false, name, unchanged)
        }
        Err(CutError { refusal, count }) => {
            print_cut(rt, command, book::number_of(Err(refusal)), count, tokens)?;
            print_kept(
                rt,
                has_not_begun(refusal, head, records, slots),
                name,
                unchanged,
            )
        }
    }
}
