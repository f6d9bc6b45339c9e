//! Executes `tokenize`, so `cut` and search, and `cut_all` on books that calls built and on others, and prints for each cut its
//! number, the tokens that it wrote, and the whole token area afterwards.
//!
//! `stdin` has the cases, and says what each is for. Document 01 fixes the answers, and the contracts of the calls state them; here the
//! compiled calls are run. The gate compares the lines with `stdout`, which does not come from this program: models/cuts.py
//! reads the same cases and computes it from document 01, with a model of the book in plain lists. Proved here is only that the program
//! is safe and ends. Number 2 is left out: a sentence over 16,777,215 bytes does not fit a program's stack, and neither do more than
//! 4,194,304 slots or 1,048,576 records.
#![tactic(auto)]

mod lend;
mod stores;

use cases::paragraphs;
use std::io;

fn main(rt: HostRuntime) -> io::Result<()> {
    paragraphs::play_all(
        &rt,
        &mut rt.stdin(),
        b"What is done: the number, the tokens written | the token area, a bar before each token's numbers\n",
        |case| lend::play_case(&rt, case),
    )
}
