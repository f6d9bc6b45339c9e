//! `cut` (lib.rs): a sentence into words. It is `tokenize` with the mode `Default`; what it is lent, and what becomes of it, is said
//! there.
#![tactic(auto)]

ghost use Rattle.std.specs.Prelude.{◌≡◌, false};
ghost use Rattle.book.specs.Areas.{book_in};
ghost use Rattle.cuts.specs.Slices.{Unchanged};
ghost use Rattle.cuts.specs.Cuts.{cut_answer, tested_book, begins, cut_of};
ghost use Rattle.cut_sentence.specs.Areas.{work_of, room_of};

use book::Head;
use cuts::{CutError, TokenizeMode};

// Cuts a sentence into words.
// Kept: `cut`, `cut_for_search` and `tokenize` are three calls of document 01 and of the C interface, by their names.
pub fn cut(
    head: Head,
    roots: &[u64],
    slots: &[u64],
    records: &[u64],
    logarithms: &[f64],
    sentence: &[u8],
    chars: &mut [u32],
    offsets: &mut [u64],
    starts: &mut [usize],
    scores: &mut [f64],
    ends: &mut [u32],
    route_records: &mut [u32],
    edge_ends: &mut [u32],
    edge_records: &mut [u32],
    tokens: &mut [u32],
) -> Result<usize, CutError>
    ensures tokens_value { cut_answer result tokens.new ≡ cut_of (book_in head roots.now slots.now records.now logarithms.now)
        (work_of chars.old offsets.old starts.old scores.old ends.old route_records.old) (room_of edge_ends.old edge_records.old) tokens.old sentence.now }
    ensures unchanged { begins (tested_book (book_in head roots.now slots.now records.now logarithms.now))
        (work_of chars.old offsets.old starts.old scores.old ends.old route_records.old) tokens.old sentence.now ≡ false
        → Unchanged chars.old chars.new × Unchanged offsets.old offsets.new × Unchanged starts.old starts.new × Unchanged scores.old scores.new × Unchanged ends.old ends.new × Unchanged route_records.old route_records.new
        × Unchanged edge_ends.old edge_ends.new × Unchanged edge_records.old edge_records.new }
{
    let shortest = sentence::shortest(
        chars.len(),
        offsets.len(),
        starts.len(),
        scores.len(),
        ends.len(),
        route_records.len(),
    );
    let room = sentence::shorter(edge_ends.len(), edge_records.len());
    cut_sentence::cut_sentence(
        head,
        roots,
        slots,
        records,
        logarithms,
        sentence,
        TokenizeMode::Default,
        shortest,
        chars,
        offsets,
        starts,
        scores,
        ends,
        route_records,
        edge_ends,
        edge_records,
        room,
        tokens,
    )
}
