//! The tokens of a block along its route (lib.rs, `cut_route`): each step is one, and steps of one ASCII letter or digit join.
//!
//! What a token brings goes by the mode: itself, or in search its parts and the words in it too.
#![tactic(auto)]

ghost use Rattle.std.specs.Prelude.{◌≡◌, List, ℕ, ◌+◌, ◌≤◌, ◌<◌, Float, length, take};
ghost use Rattle.book.specs.Returns.{longest_text};
ghost use Rattle.route.specs.Route.{Best};
ghost use Rattle.route.specs.Slices.{rows_of};
ghost use Rattle.cuts.specs.Slices.{Placed};
ghost use Rattle.cuts.specs.Tokens.{span, cut_route, Base, written};
ghost use Rattle.cuts.specs.Cuts.{cut_answer, put_spans};
ghost use Rattle.search_words.specs.Rising.{EndsRise};
ghost use Rattle.cut_route.specs.Routes.{Forward, HasEnds, letter_run, token_by, tokens_by};

use cuts::{CutError, TokenizeMode};

// The end of the run of route steps of one ASCII letter or digit that goes on at a position.
fn letters_end(chars: &[u32], ends: &[u32], n: usize, from: usize) -> usize
    requires { (from ≤ n) × (n ≤ length chars.now) × (n ≤ length ends.now) }
    ensures { letter_run chars.now ends.now n from result }
{
    for y in from..n {
        if ends[y] as usize != y + 1 {
            return y;
        }
        if !classes::is_ascii_alphanumeric(chars[y]) {
            return y;
        }
    }
    n
}

// Writes what the token from x up to y brings.
fn emit_token(
    mode: TokenizeMode,
    chars: &[u32],
    offsets: &[u64],
    starts: &[usize],
    edge_ends: &[u32],
    base: u32,
    x: usize,
    y: usize,
    tokens: &mut [u32],
    count: usize,
) -> Result<usize, CutError>
    requires x_le_y { (x ≤ y) × (y ≤ length chars.now) × (y < length offsets.now) × (y < length starts.now) × (base + y ≤ longest_text) }
    requires ends_rise { EndsRise starts.now edge_ends.now y }
    ensures { (place : Base) (n : ℕ) (records : List ℕ) (logarithms : List Float) → y ≤ n → Placed place base (take n chars.now) offsets.now
        → cut_answer result tokens.new ≡ put_spans place (take n chars.now) (written count tokens.old)
        (token_by mode (take n chars.now) (rows_of starts.now edge_ends.now records logarithms n) (span x y)) }
{
    match mode {
        TokenizeMode::Default => tokens::emit_span(offsets, base, x, y, tokens, count),
        TokenizeMode::Search => search::search_token(
            chars, offsets, starts, edge_ends, base, x, y, tokens, count,
        ),
    }
}

// The tokens of a block of n characters along its route: steps of one ASCII letter or digit join.
pub fn cut_route(
    mode: TokenizeMode,
    chars: &[u32],
    offsets: &[u64],
    starts: &[usize],
    edge_ends: &[u32],
    ends: &[u32],
    n: usize,
    base: u32,
    tokens: &mut [u32],
    count: usize,
) -> Result<usize, CutError>
    requires n_in_bounds { (n ≤ length chars.now) × (n < length offsets.now) × (n < length starts.now) × (n ≤ length ends.now) × (base + n ≤ longest_text) }
    requires forward { Forward n ends.now × EndsRise starts.now edge_ends.now n }
    ensures { (place : Base) (route : List Best) (records : List ℕ) (logarithms : List Float)
        → Placed place base (take n chars.now) offsets.now → HasEnds n route ends.now
        → cut_answer result tokens.new ≡ put_spans place (take n chars.now) (written count tokens.old)
        (tokens_by mode (take n chars.now) (rows_of starts.now edge_ends.now records logarithms n) (cut_route (take n chars.now) route)) }
{
    let mut count = count;
    let mut x: usize = 0;
    // Kept: each turn goes on where the token ends, by the route and `letters_end`, which no `for` counts.
    while x < n {
        let mut y = ends[x] as usize;
        if y == x + 1 {
            if classes::is_ascii_alphanumeric(chars[x]) {
                y = letters_end(chars, ends, n, y);
            }
        }
        count = emit_token(
            mode, chars, offsets, starts, edge_ends, base, x, y, tokens, count,
        )?;
        x = y;
    }
    Ok(count)
}
