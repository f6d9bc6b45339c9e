//! The words that start at one position of a block, written as tokens (lib.rs, `cut_all_tokens`).
//!
//! As in the Rust, the walk through the trie visits the words in the order of the output, so that they are written as it meets
//! them, and no edge is kept.
#![tactic(auto)]

ghost use Rattle.std.specs.Prelude.{◌≡◌, ◌+◌, ◌≤◌, ◌<◌, length, take, drop};
ghost use Rattle.trie.specs.Tables.{trie_in};
ghost use Rattle.book.specs.Returns.{Book, longest_text};
ghost use Rattle.book.specs.Prefixes.{words_from};
ghost use Rattle.cuts.specs.Slices.{SeenAs, Characters, Placed};
ghost use Rattle.cuts.specs.Tokens.{Base, written};
ghost use Rattle.cuts.specs.Cuts.{cut_answer};
ghost use Rattle.words_at.specs.Walks.{put_walk};

use book::Refusal;
use cuts::CutError;
use trie::{Damaged, ParentRef, Tables};

// Writes the words that start at a position of a block of n characters, as the walk meets them.
pub fn words_at(
    tables: Tables,
    used: usize,
    chars: &[u32],
    offsets: &[u64],
    n: usize,
    at: usize,
    base: u32,
    tokens: &mut [u32],
    count: usize,
) -> Result<usize, CutError>
    requires at_lt_n { (at < n) × (n ≤ length chars.now) × (n < length offsets.now) × Characters n chars.now × (base + n ≤ longest_text) }
    ensures { (b : Book) (place : Base) → SeenAs b (trie_in tables.entry) used
        → Placed place base (take n chars.now) offsets.now
        → cut_answer result tokens.new ≡ put_walk place (take n chars.now) at (written count tokens.old) (words_from b at (drop at (take n chars.now))) }
{
    let mut count = count;
    let mut place = ParentRef::Root;
    for next in at..n {
        match walk::tested_step(tables, place, chars[next]) {
            Ok(Some(child)) => {
                place = child;
            }
            Ok(None) => {
                return Ok(count);
            }
            Err(_) => {
                return Err(CutError {
                    refusal: Refusal::Damaged,
                    count,
                });
            }
        }
        match walk::word_at(tables.roots, tables.slots.numbers, used, place) {
            Ok(Some(_)) => {}
            Ok(None) => {
                continue;
            }
            Err(Damaged) => {
                return Err(CutError {
                    refusal: Refusal::Damaged,
                    count,
                });
            }
        }
        // Kept: no `?`, so that an edit can answer otherwise where no token is left.
        match tokens::emit_span(offsets, base, at, next + 1, tokens, count) {
            Ok(done) => {
                count = done;
            }
            Err(full) => {
                return Err(full);
            }
        }
    }
    Ok(count)
}
