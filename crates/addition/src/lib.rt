//! Adding a word with its frequency to a book (lib.rs, `add_word`).
//!
//! The Rust grows its tables. Here a book is a head and four slices, all lent. The sizes of what is lent are tested, and nothing is
//! required of the caller.
#![tactic(auto)]

ghost use Rattle.std.specs.Prelude.{◌≡◌};
ghost use Rattle.book.specs.Areas.{book_in};
ghost use Rattle.book.specs.Enter.{added, add_of};
ghost use Rattle.book.specs.Numbers.{added_returns, add_returns};

use book::{Head, Refusal};

// Adds a word with its frequency, or gives a word that is held the new frequency. The answer is that frequency, and for the empty
// word 0.
#[tactic(auto, using(crate::proofs::Additions::frequent_refused, crate::proofs::Additions::frequent_returned))]
pub fn add_word(
    head: &mut Head,
    roots: &mut [u64],
    slots: &mut [u64],
    records: &mut [u64],
    logarithms: &mut [f64],
    word: &[u8],
    frequency: u64,
) -> Result<u64, Refusal>
    ensures logarithms_value { added result (book_in head.new roots.new slots.new records.new logarithms.new)
        ≡ add_of (book_in head.old roots.old slots.old records.old logarithms.old) word.now frequency }
    ensures frequency_value { added_returns result ≡ add_returns (book_in head.old roots.old slots.old records.old logarithms.old) word.now frequency }
{
    let chars = lookup::test_word(
        roots.len(),
        slots.len(),
        records.len(),
        logarithms.len(),
        word,
    )?;
    if chars == 0 {
        return Ok(0);
    }
    if book::GREATEST_TOTAL < frequency {
        return Err(Refusal::BadFrequency);
    }
    let shift = trie::shift_of(slots.len() / 2);
    let logarithm = score::log(frequency as u32);
    entry::load_entry(
        head,
        roots,
        slots,
        records,
        logarithms,
        shift,
        word,
        frequency as u32,
        logarithm,
    )?;
    Ok(frequency)
}
