//! Plays scripts on books, with the areas on the stack, and prints what each call answers and leaves behind.
//!
//! `stdin` has the cases, and says what each is for. Document 01 fixes the answers, and the contracts of the calls state them; here the
//! compiled calls are run. The gate compares the lines with `stdout`, which does not come from this program: models/books.py
//! reads the same cases and computes it with a model of the book in plain lists. The sum over the areas is part of each line, so that
//! the contents are compared with the model's too. Proved here is only that the program is safe and ends. Number 2 is left out: a text
//! over 16,777,215 bytes does not fit a program's stack.
#![tactic(auto)]

mod calls;
mod play;
mod sums;

use cases::paragraphs;
use std::io;

fn main(rt: HostRuntime) -> io::Result<()> {
    paragraphs::play_all(
        &rt,
        &mut rt.stdin(),
        b"What is done: the answer; head (records used, slots used, next node, total); sum over the areas\n",
        |case| play::play_case(&rt, case),
    )
}
