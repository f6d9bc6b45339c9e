//! A block of `cut` and of `cut_for_search` (lib.rs, `cut_each`): its edges, the route through them, and the tokens along it.
//!
//! The two cuts differ in one call, what a token brings: itself, or in search its parts and the words in it too. So a block is cut
//! by a mode, as the Rust's `cut_each` is by what it is told to emit.
#![tactic(auto)]

ghost use Rattle.std.specs.Prelude.{◌≡◌, ◌+◌, ◌≤◌, length, take};
ghost use Rattle.trie.specs.Trie.{trie_of, SlotTable};
ghost use Rattle.classes.specs.Blocks.{cut_class};
ghost use Rattle.book.specs.Returns.{Book, longest_text, most_records};
ghost use Rattle.cuts.specs.Slices.{block_of, Characters, Placed};
ghost use Rattle.cuts.specs.Edges.{vocabulary_of};
ghost use Rattle.cuts.specs.Tokens.{Base, written};
ghost use Rattle.cuts.specs.Cuts.{cut_answer};
ghost use Rattle.block.specs.Plans.{WorkFits, Planned, block_by, OneKind};

use book::Refusal;
use cuts::{CutError, TokenizeMode};
use prefixes::PrefixError;
use runs::Run;
use trie::{Slots, Tables};

// What a cut goes by beside slices: its mode, and of the book the shift of its slots, the records used, and L of its total.
#[derive(Clone, Copy)]
pub struct Plan {
    pub mode: TokenizeMode,
    pub shift: u32,
    pub used: usize,
    pub log_total: f64,
}

// The tokens of a block, which is recorded as a run: of the class, by its edges and its route; outside it, each character. A token
// outside the class has no connector and at most two characters, so that search finds nothing in it.
pub fn cut_block(
    roots: &[u64],
    slots: &[u64],
    logarithms: &[f64],
    plan: Plan,
    run: Run,
    chars: &[u32],
    offsets: &[u64],
    base: u32,
    starts: &mut [usize],
    scores: &mut [f64],
    ends: &mut [u32],
    records: &mut [u32],
    edge_ends: &mut [u32],
    edge_records: &mut [u32],
    room: usize,
    tokens: &mut [u32],
    count: usize,
) -> Result<usize, CutError>
    requires slot_table { SlotTable (length slots.now) plan.shift × (plan.used ≤ most_records)
        × (plan.used ≤ length logarithms.now) }
    requires work_fits { WorkFits run.chars chars.now offsets.now starts.old scores.old ends.old records.old
        × Characters run.chars chars.now × (base + run.chars ≤ longest_text) }
    requires room_in_bounds { (room ≤ length edge_ends.old) × (room ≤ length edge_records.old) × OneKind cut_class run.matched run.chars chars.now }
    ensures { (b : Book) (place : Base) → Planned b (trie_of roots.now slots.now) logarithms.now plan
        → Placed place base (take run.chars chars.now) offsets.now
        → cut_answer result tokens.new ≡ block_by plan.mode (vocabulary_of b) room place (block_of run.matched (take run.chars chars.now))
        (written count tokens.old) }
{
    let n = run.chars;
    if !run.matched {
        return unmatched::cut_unmatched(chars, offsets, n, base, tokens, count);
    }
    let slots = Slots {
        numbers: slots,
        shift: plan.shift,
    };
    let tables = Tables { roots, slots };
    match sparse_dag::for_each_prefix_at_every_char(
        tables,
        plan.used,
        chars,
        n,
        starts,
        edge_ends,
        edge_records,
        room,
    ) {
        Err(PrefixError::Full) => Err(CutError {
            refusal: Refusal::EdgesFull,
            count,
        }),
        Err(PrefixError::Damaged) => Err(CutError {
            refusal: Refusal::Damaged,
            count,
        }),
        Ok(_) => {
            let mode = plan.mode;
            calc::calc(
                starts,
                edge_ends,
                edge_records,
                logarithms,
                plan.log_total,
                n,
                scores,
                ends,
                records,
            );
            cut_route::cut_route(
                mode, chars, offsets, starts, edge_ends, ends, n, base, tokens, count,
            )
        }
    }
}
