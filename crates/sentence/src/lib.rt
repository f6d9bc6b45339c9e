//! The tests that come before a sentence is cut, in document 01's order: 1, 2, 3, 9 and the head's 8.
//!
//! The Rust has none of them: its `&str` is well formed, and its tables grow. Nothing is written here, so that a cut that does
//! not begin leaves every area as it was.
#![tactic(auto)]

ghost use Rattle.std.specs.Prelude.{◌≡◌, List, [], ◌∷◌, ℕ, length};
ghost use Rattle.cuts.specs.Slices as Slices;
ghost use Rattle.cuts.specs.Tokens.{written};
ghost use Rattle.cuts.specs.Cuts.{answer, cut_with};
ghost use Rattle.sentence.specs.Sizes.{tested_sizes};

use book::{Head, Refusal};

// The shorter of two lengths: an area of several slices counts as its shortest.
pub fn shorter(a: usize, b: usize) -> usize
    ensures { result ≡ Slices.shorter a b }
{
    if b < a {
        return b;
    }
    a
}

// The same of the six slices of a work area.
pub fn shortest(
    chars: usize,
    offsets: usize,
    starts: usize,
    scores: usize,
    ends: usize,
    records: usize,
) -> usize
    ensures { result ≡ Slices.shortest chars (offsets ∷ starts ∷ scores ∷ ends ∷ records ∷ []) }
{
    let work = shorter(chars, offsets);
    let work = shorter(work, starts);
    let work = shorter(work, scores);
    let work = shorter(work, ends);
    shorter(work, records)
}

// Whether a sentence is cut, by the lengths of what is lent, its bytes and the book's head, or what it is refused with. It is called and not inlined, and of an area it asks the length alone: so a length is what it takes. The records' come
// first, apart from the slots': side by side the compiler moves two lengths as one, which waits for the stores of both.
#[tactic(auto, using(crate::proofs::Beginning::too_long))]
pub fn begin(
    head: Head,
    records: usize,
    logarithms: usize,
    roots: usize,
    slots: usize,
    sentence: &[u8],
    work: usize,
    tokens: usize,
) -> Result<(), Refusal>
    ensures { (area : List ℕ) → length area ≡ tokens
        → answer result (written 0 area) ≡ cut_with (tested_sizes head roots slots records logarithms) work area
        (λ cs. answer (Ok tt)) sentence.now }
{
    if !book::is_allowed(roots, slots, records, logarithms) {
        return Err(Refusal::BadAreas);
    }
    if tokens % cuts::TOKEN_WIDTH != 0 {
        return Err(Refusal::BadAreas);
    }
    if book::LONGEST_TEXT < sentence.len() {
        return Err(Refusal::TooLong);
    }
    let count = utf8::char_count(sentence)?;
    if work <= count {
        return Err(Refusal::WorkTooShort);
    }
    if book::is_head_damaged(head, records, slots / 2) {
        return Err(Refusal::Damaged);
    }
    Ok(())
}
