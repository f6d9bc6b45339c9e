//! Every word of a block, position after position (lib.rs, `cut_all_tokens`).
#![tactic(auto)]

ghost use Rattle.std.specs.Prelude.{◌≡◌, ◌+◌, ◌≤◌, ◌<◌, length, take};
ghost use Rattle.trie.specs.Tables.{trie_in};
ghost use Rattle.book.specs.Returns.{Book, longest_text};
ghost use Rattle.book.specs.Prefixes.{words_from};
ghost use Rattle.cuts.specs.Slices.{SeenAs, Characters, Placed};
ghost use Rattle.cuts.specs.Edges.{walks_of};
ghost use Rattle.cuts.specs.Tokens.{Base, written};
ghost use Rattle.cuts.specs.Cuts.{cut_answer, put_walks};

use cuts::CutError;
use trie::Tables;

// Writes every word of a block of n characters, position after position.
pub fn cut_all_tokens(
    tables: Tables,
    used: usize,
    chars: &[u32],
    offsets: &[u64],
    n: usize,
    base: u32,
    tokens: &mut [u32],
    count: usize,
) -> Result<usize, CutError>
    requires n_in_bounds { (n ≤ length chars.now) × (n < length offsets.now) × Characters n chars.now × (base + n ≤ longest_text) }
    ensures { (b : Book) (place : Base) → SeenAs b (trie_in tables.entry) used
        → Placed place base (take n chars.now) offsets.now
        → cut_answer result tokens.new ≡ put_walks place (take n chars.now) 0 (written count tokens.old) (walks_of (words_from b) 0 (take n chars.now)) }
{
    let mut count = count;
    for at in 0..n {
        count = words_at::words_at(tables, used, chars, offsets, n, at, base, tokens, count)?;
    }
    Ok(count)
}
