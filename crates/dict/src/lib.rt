//! Loading a dictionary into a book, line by line (lib.rs, `load_dict`).
//!
//! The Rust grows its tables. Here a book is a head and four slices, all lent. The sizes of what is lent are tested, and nothing is
//! required of the caller.
#![tactic(auto)]

ghost use Rattle.std.specs.Prelude.{◌≡◌};
ghost use Rattle.book.specs.Areas.{book_in};
ghost use Rattle.book.specs.Enter.{loaded, load_of};
ghost use Rattle.book.specs.Numbers.{loaded_returns, load_returns};

use book::{Head, LoadError, Refusal};

// Loads a dictionary by adding its entries to the book: a word, its frequency and anything more on each line. The answer is how
// many lines there are.
#[tactic(auto, using(crate::proofs::Loads::long_refused, crate::proofs::Loads::long_returned))]
pub fn load_dict(
    head: &mut Head,
    roots: &mut [u64],
    slots: &mut [u64],
    records: &mut [u64],
    logarithms: &mut [f64],
    text: &[u8],
) -> Result<usize, LoadError>
    ensures logarithms_value { loaded result (book_in head.new roots.new slots.new records.new logarithms.new)
        ≡ load_of (book_in head.old roots.old slots.old records.old logarithms.old) text.now }
    ensures line_value { loaded_returns result ≡ load_returns (book_in head.old roots.old slots.old records.old logarithms.old) text.now }
{
    if !book::is_allowed(roots.len(), slots.len(), records.len(), logarithms.len()) {
        return Err(LoadError {
            refusal: Refusal::BadAreas,
            line: 0,
        });
    }
    if book::LONGEST_TEXT < text.len() {
        return Err(LoadError {
            refusal: Refusal::TooLong,
            line: 0,
        });
    }
    let shift = trie::shift_of(slots.len() / 2);
    load_lines::load_lines(head, roots, slots, records, logarithms, shift, text)
}
