//! The program `cutlines` (document 01, "Examples by book"): reads frames from standard input, one a line, and prints for each
//! the line that answers it.
//!
//! What is proved elsewhere: how the input is split into lines (`input_lines::take_line`), and what is answered to a line, byte for
//! byte, with the book that is left (`answer_line::answer_line`). Here the input is read and the answers are written, in blocks;
//! that this part is safe, and that each of its steps ends, is what is proved of it. Before more input is waited for, every
//! answer is written.
#![tactic(auto)]

mod input;

// The sizes of the book.
const ROOT_ENTRIES: usize = 256;

const SLOTS: usize = 1024;

const RECORDS: usize = 256;

// One book serves the whole run.
fn main(rt: HostRuntime) {
    let mut roots = [0u64; ROOT_ENTRIES];
    let mut slots = [0u64; 2 * SLOTS];
    let mut records = [0u64; RECORDS];
    let mut logarithms = [0.0f64; RECORDS];
    let Ok(mut head) = prepare::prepare(&mut roots, &mut slots, &mut records, &mut logarithms)
    else {
        return;
    };
    let answered = input::answer_all(
        &rt,
        &mut rt.stdin(),
        &mut head,
        &mut roots,
        &mut slots,
        &mut records,
        &mut logarithms,
    );
    if let Err(failure) = answered {
        // Where that cannot be written either, nothing is left to do.
        let _ = eprintln!(rt; "cutlines: {failure}");
    }
}
