//! The shorter words in a token that search brings (lib.rs, `cut_for_search`; `word_at` of sparse_dag.rs): each held stretch of two or
//! of three characters, by the block's edges.
#![tactic(auto)]

ghost use Rattle.std.specs.Prelude.{◌≡◌, List, [], ◌∷◌, ℕ, ◌+◌, ◌≤◌, ◌<◌, Float, length};
ghost use Rattle.book.specs.Returns.{longest_text};
ghost use Rattle.route.specs.Slices.{rows_of};
ghost use Rattle.cuts.specs.Slices.{Placed};
ghost use Rattle.cuts.specs.Tokens.{span, those, held_between, words_of_size, Base, written};
ghost use Rattle.cuts.specs.Cuts.{cut_answer, put_spans};
ghost use Rattle.search_words.specs.Rising.{EndsRiseAt, EndsRise};

use cuts::CutError;

// Whether a held word starts at a position and ends at another. Ends rise, so the look ends at the first that is no smaller.
fn word_at(starts: &[usize], edge_ends: &[u32], at: usize, end: usize) -> bool
    requires { (at + 1 < length starts.now) × EndsRiseAt starts.now edge_ends.now at }
    ensures { (n : ℕ) (records : List ℕ) (logarithms : List Float) → at < n
        → result ≡ held_between (rows_of starts.now edge_ends.now records logarithms n) (span at end) }
{
    let last = starts[at + 1];
    for place in starts[at]..last {
        let reached = edge_ends[place] as usize;
        if end <= reached {
            return reached == end;
        }
    }
    false
}

// Writes the stretch from one position up to another, if it is a held word.
fn push_gram(
    offsets: &[u64],
    starts: &[usize],
    edge_ends: &[u32],
    base: u32,
    at: usize,
    end: usize,
    tokens: &mut [u32],
    count: usize,
) -> Result<usize, CutError>
    requires at_lt_end { (at < end) × (end < length offsets.now) × (end < length starts.now) × (base + end ≤ longest_text) }
    requires ends_rise_at { EndsRiseAt starts.now edge_ends.now at }
    ensures { (place : Base) (cs : List ℕ) (n : ℕ) (records : List ℕ) (logarithms : List Float) → Placed place base cs offsets.now
        → end ≤ length cs → at < n
        → cut_answer result tokens.new ≡ put_spans place cs (written count tokens.old)
        (those (held_between (rows_of starts.now edge_ends.now records logarithms n)) (span at end ∷ [])) }
{
    if word_at(starts, edge_ends, at, end) {
        return tokens::emit_span(offsets, base, at, end, tokens, count);
    }
    Ok(count)
}

// The held words of so many characters in the token from x up to y, if it has more characters than that.
pub fn emit_words(
    size: usize,
    offsets: &[u64],
    starts: &[usize],
    edge_ends: &[u32],
    base: u32,
    x: usize,
    y: usize,
    tokens: &mut [u32],
    count: usize,
) -> Result<usize, CutError>
    requires size_nonzero { (0 < size) × (x ≤ y) × (y < length offsets.now) × (y < length starts.now) × (base + y ≤ longest_text) }
    requires ends_rise { EndsRise starts.now edge_ends.now y }
    ensures { (place : Base) (cs : List ℕ) (n : ℕ) (records : List ℕ) (logarithms : List Float) → Placed place base cs offsets.now
        → y ≤ length cs → y ≤ n
        → cut_answer result tokens.new ≡ put_spans place cs (written count tokens.old)
        (words_of_size size (rows_of starts.now edge_ends.now records logarithms n) (span x y)) }
{
    let mut count = count;
    if size < y - x {
        for end in x + size..y + 1 {
            let at = end - size;
            count = push_gram(offsets, starts, edge_ends, base, at, end, tokens, count)?;
        }
    }
    Ok(count)
}
