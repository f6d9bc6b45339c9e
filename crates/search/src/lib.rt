//! What one token brings in search (lib.rs, `cut_for_search`): its parts, the words in it, and itself.
#![tactic(auto)]

ghost use Rattle.std.specs.Prelude.{◌≡◌, List, ℕ, ◌+◌, ◌≤◌, ◌<◌, Float, length, take};
ghost use Rattle.book.specs.Returns.{longest_text};
ghost use Rattle.route.specs.Slices.{rows_of};
ghost use Rattle.cuts.specs.Slices.{Placed};
ghost use Rattle.cuts.specs.Tokens.{span, Base, written};
ghost use Rattle.cuts.specs.Cuts.{cut_answer, put_spans};
ghost use Rattle.search_words.specs.Rising.{EndsRise};
ghost use Rattle.search.specs.Brought.{brought_by};

use cuts::CutError;

// What the token from x up to y brings: its parts, its held words of two characters, those of three, and itself.
pub fn search_token(
    chars: &[u32],
    offsets: &[u64],
    starts: &[usize],
    edge_ends: &[u32],
    base: u32,
    x: usize,
    y: usize,
    tokens: &mut [u32],
    count: usize,
) -> Result<usize, CutError>
    requires x_le_y { (x ≤ y) × (y ≤ length chars.now) × (y < length offsets.now) × (y < length starts.now) × (base + y ≤ longest_text) }
    requires ends_rise { EndsRise starts.now edge_ends.now y }
    ensures { (place : Base) (n : ℕ) (records : List ℕ) (logarithms : List Float) → y ≤ n → Placed place base (take n chars.now) offsets.now
        → cut_answer result tokens.new ≡ put_spans place (take n chars.now) (written count tokens.old)
        (brought_by (take n chars.now) (rows_of starts.now edge_ends.now records logarithms n) (span x y)) }
{
    let parts = search_parts::emit_parts(chars, offsets, base, x, y, tokens, count)?;
    let pairs = search_words::emit_words(2, offsets, starts, edge_ends, base, x, y, tokens, parts)?;
    let triples = search_words::emit_words(
        3, offsets, starts, edge_ends, base, x, y, tokens, pairs,
    )?;
    tokens::emit_span(offsets, base, x, y, tokens, triples)
}
