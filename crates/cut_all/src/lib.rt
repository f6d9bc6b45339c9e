//! `cut_all` (lib.rs): every word of the dictionary that a sentence's blocks hold.
//!
//! The work area is two slices, which a block fills from their start: its characters, and their offsets in the sentence. The token
//! area is one flat slice.
#![tactic(auto)]

ghost use Rattle.std.specs.Prelude.{◌≡◌, false};
ghost use Rattle.book.specs.Areas.{book_in};
ghost use Rattle.cuts.specs.Slices.{Unchanged};
ghost use Rattle.cuts.specs.Cuts.{cut_answer, tested_book, begins, cut_all_of};
ghost use Rattle.cut_all.specs.Areas.{work_of};

use book::Head;
use cuts::CutError;

// Cuts a sentence into all possible words.
pub fn cut_all(
    head: Head,
    roots: &[u64],
    slots: &[u64],
    records: &[u64],
    logarithms: &[f64],
    sentence: &[u8],
    chars: &mut [u32],
    offsets: &mut [u64],
    tokens: &mut [u32],
) -> Result<usize, CutError>
    ensures tokens_value { cut_answer result tokens.new
        ≡ cut_all_of (book_in head roots.now slots.now records.now logarithms.now) (work_of chars.old offsets.old) tokens.old sentence.now }
    ensures unchanged { begins (tested_book (book_in head roots.now slots.now records.now logarithms.now)) (work_of chars.old offsets.old) tokens.old sentence.now ≡ false
        → Unchanged chars.old chars.new × Unchanged offsets.old offsets.new }
{
    let work = sentence::shorter(chars.len(), offsets.len());
    sentence::begin(
        head,
        records.len(),
        logarithms.len(),
        roots.len(),
        slots.len(),
        sentence,
        work,
        tokens.len(),
    )
    .map_err(|refusal| CutError { refusal, count: 0 })?;
    cut_all_blocks::cut_all_blocks(
        roots,
        slots,
        trie::shift_of(slots.len() / 2),
        head.records as usize,
        sentence,
        chars,
        offsets,
        tokens,
    )
}
