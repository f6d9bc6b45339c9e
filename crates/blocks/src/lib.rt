//! The blocks of a sentence (lib.rs, the loop of `cut_each`): each is recorded and cut, one after the other.
#![tactic(auto)]

ghost use Rattle.std.specs.Prelude.{◌≡◌, ◌≤◌, length};
ghost use Rattle.std.proofs.Math.Option.{IsSome};
ghost use Rattle.trie.specs.Trie.{trie_of, SlotTable};
ghost use Rattle.utf8.specs.Text.{chars_of};
ghost use Rattle.book.specs.Returns.{Book, longest_text, most_records};
ghost use Rattle.classes.specs.Blocks.{cut_class};
ghost use Rattle.cuts.specs.Blocks.{blocks_of};
ghost use Rattle.cuts.specs.Edges.{vocabulary_of};
ghost use Rattle.cuts.specs.Tokens.{written};
ghost use Rattle.cuts.specs.Cuts.{cut_answer, cut_blocks, start};
ghost use Rattle.runs.specs.Runs.{text_from};
ghost use Rattle.block.specs.Plans.{WorkFits, Planned, block_by};

use block::Plan;
use cuts::CutError;
use runs::CharacterClass;

// The blocks of a sentence, one after the other, up to one that is stopped.
pub fn cut_blocks(
    roots: &[u64],
    slots: &[u64],
    logarithms: &[f64],
    plan: Plan,
    sentence: &[u8],
    chars: &mut [u32],
    offsets: &mut [u64],
    starts: &mut [usize],
    scores: &mut [f64],
    ends: &mut [u32],
    records: &mut [u32],
    edge_ends: &mut [u32],
    edge_records: &mut [u32],
    room: usize,
    tokens: &mut [u32],
) -> Result<usize, CutError>
    requires slot_table { SlotTable (length slots.now) plan.shift × (plan.used ≤ most_records) × (plan.used ≤ length logarithms.now) }
    requires sentence_len_bound { (length sentence.now ≤ longest_text) × IsSome (chars_of sentence.now) }
    requires work_fits { WorkFits (length (text_from sentence.now 0)) chars.old offsets.old starts.old scores.old ends.old records.old }
    requires room_in_bounds { (room ≤ length edge_ends.old) × (room ≤ length edge_records.old) }
    ensures { (b : Book) → Planned b (trie_of roots.now slots.now) logarithms.now plan
        → cut_answer result tokens.new ≡ cut_blocks (block_by plan.mode (vocabulary_of b) room) start (blocks_of cut_class (text_from sentence.now 0))
        (written 0 tokens.old) }
{
    let mut at = splitter::start(sentence);
    let mut units: usize = 0;
    let mut base: u32 = 0;
    let mut count: usize = 0;
    // Kept: each turn goes on behind the run that `next_recording` found, which no `for` counts.
    while splitter::has_next(sentence, at) {
        let run = runs::next_recording(
            sentence,
            at,
            units,
            CharacterClass::Default,
            chars,
            offsets,
        );
        count = block::cut_block(
            roots,
            slots,
            logarithms,
            plan,
            run,
            chars,
            offsets,
            base,
            starts,
            scores,
            ends,
            records,
            edge_ends,
            edge_records,
            room,
            tokens,
            count,
        )?;
        base += run.chars as u32;
        units = run.units;
        at = splitter::advance(sentence, at, run.end);
    }
    Ok(count)
}
