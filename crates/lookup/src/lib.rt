//! Looking up a word, and the tests that come before a word is looked up or added, in document 01's order: 1, 2, 3 and the
//! empty word (lib.rs).
//!
//! The Rust has none of these tests: its `&str` is well formed, and its tables grow. Nothing is required of the caller, and
//! nothing is written.
#![tactic(auto)]

ghost use Rattle.std.specs.Prelude.{◌≡◌};
ghost use Rattle.book.specs.Areas.{areas_allowed, book_in};
ghost use Rattle.book.specs.Returns.{lookup_of};
ghost use Rattle.book.specs.Numbers.{found_returns, lookup_returns};
ghost use Rattle.lookup.specs.Tests.{tested_word};

use book::{Head, Refusal};
use trie::{Slots, Tables};

// The tests of a word, by the lengths of a book's areas and its bytes: how many characters it has, or what it is refused with.
#[tactic(auto, using(crate::proofs::Tests::too_long))]
pub fn test_word(
    roots: usize,
    slots: usize,
    records: usize,
    logarithms: usize,
    word: &[u8],
) -> Result<usize, Refusal>
    ensures { result ≡ tested_word (areas_allowed roots slots records logarithms) word.now }
{
    if !book::is_allowed(roots, slots, records, logarithms) {
        return Err(Refusal::BadAreas);
    }
    if book::LONGEST_TEXT < word.len() {
        return Err(Refusal::TooLong);
    }
    let count = utf8::char_count(word)?;
    Ok(count)
}

// The frequency of a word, or none where it is absent.
pub fn lookup(
    head: Head,
    roots: &[u64],
    slots: &[u64],
    records: &[u64],
    logarithms: &[f64],
    word: &[u8],
) -> Result<Option<u32>, Refusal>
    ensures value { result ≡ lookup_of (book_in head roots.now slots.now records.now logarithms.now) word.now }
    ensures result_value { found_returns result ≡ lookup_returns (book_in head roots.now slots.now records.now logarithms.now) word.now }
{
    let chars = test_word(
        roots.len(),
        slots.len(),
        records.len(),
        logarithms.len(),
        word,
    )?;
    if chars == 0 {
        return Ok(None);
    }
    if book::is_head_damaged(head, records.len(), slots.len() / 2) {
        return Err(Refusal::Damaged);
    }
    let shift = trie::shift_of(slots.len() / 2);
    let slots = Slots {
        numbers: slots,
        shift,
    };
    let tables = Tables { roots, slots };
    let used = head.records as usize;
    match word_walk::get(tables, used, word) {
        Ok(Some(n)) => Ok(Some(book::cell_frequency(records[n]))),
        Ok(None) => Ok(None),
        Err(_) => Err(Refusal::Damaged),
    }
}
