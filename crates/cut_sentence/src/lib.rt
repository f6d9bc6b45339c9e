//! What `tokenize`, `cut` and `cut_for_search` have in common: the tests of a sentence and of what is lent, and then its blocks.
#![tactic(auto)]

ghost use Rattle.std.specs.Prelude.{◌≡◌, false, ◌≤◌};
ghost use Rattle.book.specs.Areas.{book_in};
ghost use Rattle.cuts.specs.Slices.{Unchanged};
ghost use Rattle.cuts.specs.Cuts.{cut_answer, tested_book, begins, tokenize_of};
ghost use Rattle.cut_sentence.specs.Areas.{work_of, room_of};

use block::Plan;
use book::Head;
use cuts::{CutError, TokenizeMode};

// Cuts a sentence by a mode, with so many places of the work area and of the edge area. Three calls have it in common, so that it
// is called and not inlined, and each slice costs a place and a length. It takes the two numbers of places: then the lengths of
// the work and edge slices are not used, and the compiler does not pass them.
pub fn cut_sentence(
    head: Head,
    roots: &[u64],
    slots: &[u64],
    records: &[u64],
    logarithms: &[f64],
    sentence: &[u8],
    mode: TokenizeMode,
    work: usize,
    chars: &mut [u32],
    offsets: &mut [u64],
    starts: &mut [usize],
    scores: &mut [f64],
    ends: &mut [u32],
    route_records: &mut [u32],
    edge_ends: &mut [u32],
    edge_records: &mut [u32],
    room: usize,
    tokens: &mut [u32],
) -> Result<usize, CutError>
    requires { (work ≤ work_of chars.old offsets.old starts.old scores.old ends.old route_records.old)
        × (room ≤ room_of edge_ends.old edge_records.old) }
    ensures tokens_value { cut_answer result tokens.new
        ≡ tokenize_of mode (book_in head roots.now slots.now records.now logarithms.now) work room tokens.old sentence.now }
    ensures unchanged { begins (tested_book (book_in head roots.now slots.now records.now logarithms.now)) work tokens.old sentence.now ≡ false
        → Unchanged chars.old chars.new × Unchanged offsets.old offsets.new × Unchanged starts.old starts.new × Unchanged scores.old scores.new × Unchanged ends.old ends.new × Unchanged route_records.old route_records.new
        × Unchanged edge_ends.old edge_ends.new × Unchanged edge_records.old edge_records.new }
{
    // What is only read is lent anew, so that the compiler reads each slice's place and length once, at the call, and passes
    // the two. Else it passes where they are kept, and they are read there each time.
    let roots = &*roots;
    let slots = &*slots;
    let logarithms = &*logarithms;
    let sentence = &*sentence;
    sentence::begin(
        head,
        records.len(),
        logarithms.len(),
        roots.len(),
        slots.len(),
        sentence,
        work,
        tokens.len(),
    )
    .map_err(|refusal| CutError { refusal, count: 0 })?;
    blocks::cut_blocks(
        roots,
        slots,
        logarithms,
        Plan {
            mode,
            shift: trie::shift_of(slots.len() / 2),
            used: head.records as usize,
            log_total: score::log(head.total as u32),
        },
        sentence,
        chars,
        offsets,
        starts,
        scores,
        ends,
        route_records,
        edge_ends,
        edge_records,
        room,
        tokens,
    )
}
