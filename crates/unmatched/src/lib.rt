//! A block's tokens outside the class (lib.rs, the unmatched runs of `cut_each` and `cut_all`).
#![tactic(auto)]

ghost use Rattle.std.specs.Prelude.{◌≡◌, ◌+◌, ◌≤◌, ◌<◌, length, take};
ghost use Rattle.book.specs.Returns.{longest_text};
ghost use Rattle.cuts.specs.Slices.{Placed};
ghost use Rattle.cuts.specs.Tokens.{singly, runs_of, Base, written};
ghost use Rattle.cuts.specs.Cuts.{cut_answer, put_spans};
ghost use Rattle.unmatched.specs.Joining.{joining_run};

use cuts::CutError;

// The tokens of a block of n characters outside the class of `cut`: each character is one, and CR LF is one.
pub fn cut_unmatched(
    chars: &[u32],
    offsets: &[u64],
    n: usize,
    base: u32,
    tokens: &mut [u32],
    count: usize,
) -> Result<usize, CutError>
    requires { (n ≤ length chars.now) × (n < length offsets.now) × (base + n ≤ longest_text) }
    ensures { (place : Base) → Placed place base (take n chars.now) offsets.now
        → cut_answer result tokens.new ≡ put_spans place (take n chars.now) (written count tokens.old) (singly 0 (take n chars.now)) }
{
    let mut count = count;
    let mut x: usize = 0;
    // Kept: each turn goes on behind the token, of one character or of CR LF, which no `for` counts.
    while x < n {
        let mut y = x + 1;
        if chars[x] == 0x0D {
            if y < n {
                if chars[y] == 0x0A {
                    y += 1;
                }
            }
        }
        count = tokens::emit_span(offsets, base, x, y, tokens, count)?;
        x = y;
    }
    Ok(count)
}

// The end of the run of joining characters that goes on at a position.
fn joining_end(chars: &[u32], n: usize, from: usize) -> usize
    requires { (from ≤ n) × (n ≤ length chars.now) }
    ensures { joining_run chars.now n from result }
{
    for y in from..n {
        if classes::is_skip_cut_all(chars[y]) {
            return y;
        }
    }
    n
}

// The tokens of a block of n characters outside the class of `cut_all`: maximal runs of ASCII letters, digits, + # and LF, and
// each other character.
pub fn cut_all_unmatched(
    chars: &[u32],
    offsets: &[u64],
    n: usize,
    base: u32,
    tokens: &mut [u32],
    count: usize,
) -> Result<usize, CutError>
    requires { (n ≤ length chars.now) × (n < length offsets.now) × (base + n ≤ longest_text) }
    ensures { (place : Base) → Placed place base (take n chars.now) offsets.now
        → cut_answer result tokens.new ≡ put_spans place (take n chars.now) (written count tokens.old) (runs_of (take n chars.now)) }
{
    let mut count = count;
    let mut x: usize = 0;
    // Kept: each turn goes on behind the token, whose end `joining_end` found, which no `for` counts.
    while x < n {
        let mut y = x + 1;
        if !classes::is_skip_cut_all(chars[x]) {
            y = joining_end(chars, n, y);
        }
        count = tokens::emit_span(offsets, base, x, y, tokens, count)?;
        x = y;
    }
    Ok(count)
}
