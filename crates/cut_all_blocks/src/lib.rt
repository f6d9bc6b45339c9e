//! The blocks of a sentence, one after the other, each with every word of the dictionary that it holds (lib.rs, `cut_all`).
#![tactic(auto)]

ghost use Rattle.std.specs.Prelude.{◌≡◌, ◌≤◌, ◌<◌, length};
ghost use Rattle.std.proofs.Math.Option.{IsSome};
ghost use Rattle.trie.specs.Trie.{trie_of, SlotTable};
ghost use Rattle.utf8.specs.Text.{chars_of};
ghost use Rattle.book.specs.Returns.{Book, longest_text};
ghost use Rattle.classes.specs.Blocks.{cut_all_class};
ghost use Rattle.cuts.specs.Slices.{SeenAs};
ghost use Rattle.cuts.specs.Blocks.{blocks_of};
ghost use Rattle.cuts.specs.Edges.{vocabulary_of};
ghost use Rattle.cuts.specs.Tokens.{written};
ghost use Rattle.cuts.specs.Cuts.{cut_answer, cut_all_block, cut_blocks, start};
ghost use Rattle.runs.specs.Runs.{text_from};

use cuts::CutError;
use runs::CharacterClass;
use trie::{Slots, Tables};

// The blocks of a sentence, one after the other, up to one that is stopped.
pub fn cut_all_blocks(
    roots: &[u64],
    slots: &[u64],
    shift: u32,
    used: usize,
    sentence: &[u8],
    chars: &mut [u32],
    offsets: &mut [u64],
    tokens: &mut [u32],
) -> Result<usize, CutError>
    requires slot_table { SlotTable (length slots.now) shift }
    requires sentence_len_bound { (length sentence.now ≤ longest_text) × IsSome (chars_of sentence.now) }
    requires sentence_in_bounds { (length (text_from sentence.now 0) < length chars.old) × (length (text_from sentence.now 0) < length offsets.old) }
    ensures { (b : Book) → SeenAs b (trie_of roots.now slots.now) used
        → cut_answer result tokens.new ≡ cut_blocks (cut_all_block (vocabulary_of b)) start (blocks_of cut_all_class (text_from sentence.now 0))
        (written 0 tokens.old) }
{
    let mut at = splitter::start(sentence);
    let mut units: usize = 0;
    let mut base: u32 = 0;
    let mut count: usize = 0;
    // Kept: each turn goes on behind the run that `next_recording` found, which no `for` counts.
    while splitter::has_next(sentence, at) {
        let run = runs::next_recording(sentence, at, units, CharacterClass::CutAll, chars, offsets);
        let n = run.chars;
        let cut = if run.matched {
            let tables = Tables {
                roots,
                slots: Slots {
                    numbers: slots,
                    shift,
                },
            };
            cut_all_tokens::cut_all_tokens(tables, used, chars, offsets, n, base, tokens, count)
        } else {
            unmatched::cut_all_unmatched(chars, offsets, n, base, tokens, count)
        };
        count = cut?;
        base += n as u32;
        units = run.units;
        at = splitter::advance(sentence, at, run.end);
    }
    Ok(count)
}
