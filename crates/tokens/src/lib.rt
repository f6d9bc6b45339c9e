//! Tokens into the token area.
//!
//! The Rust pushes tokens that borrow from the sentence. Here the token area is one flat slice of numbers that the caller lends,
//! six numbers a token. A block is given by its characters, the place of each of them and of its end, and the number of
//! characters before it in the sentence, `base`; a place is a byte offset and a UTF-16 offset in one number
//! (`cuts::UTF16_UNIT`). Every function that writes tokens answers how many are written so far, and stops where there is no place
//! for one more.
#![tactic(auto)]

ghost use Rattle.std.specs.Prelude.{◌≡◌, List, [], ◌∷◌, ℕ, ◌+◌, ◌*◌, ◌≤◌, ◌<◌, length};
ghost use Rattle.std.proofs.lemmas.List.Edits.{sets};
ghost use Rattle.book.specs.Returns.{longest_text};
ghost use Rattle.cuts.specs.Slices.{Placed};
ghost use Rattle.cuts.specs.Tokens.{span, Base, numbers_of, token_width, written};
ghost use Rattle.cuts.specs.Cuts.{cut_answer, put_spans};
ghost use Rattle.tokens.specs.Places.{token_from};

use book::Refusal;
use cuts::{ByteOffsets, CharOffsets, CutError, Utf16Offsets};

// Writes a start and an end, counted in one unit.
fn put_pair(tokens: &mut [u32], at: usize, start: u32, end: u32)
    requires { at + 2 ≤ length tokens.old }
    ensures { tokens.new ≡ sets tokens.old at (start ∷ end ∷ []) }
{
    tokens[at] = start;
    tokens[at + 1] = end;
}

// Writes the token of the block's characters from x up to y at its place. Each pair is written before the next one is worked
// out: with all six numbers at hand at once, the compiler runs out of registers in the loops that call this.
fn put_token(tokens: &mut [u32], count: usize, base: u32, x: usize, y: usize, offsets: &[u64])
    requires token_width_in_bounds { count * token_width + token_width ≤ length tokens.old }
    requires x_le_y { (x ≤ y) × (y < length offsets.now) × (base + y ≤ longest_text) }
    ensures { tokens.new ≡ sets tokens.old (count * token_width) (numbers_of (token_from base x y offsets.now)) }
{
    let at = count * cuts::TOKEN_WIDTH;
    let chars = CharOffsets(base + x as u32, base + y as u32);
    put_pair(tokens, at, chars.0, chars.1);
    let start = offsets[x];
    let end = offsets[y];
    let bytes = ByteOffsets(cuts::byte_offset(start), cuts::byte_offset(end));
    put_pair(tokens, at + 2, bytes.0, bytes.1);
    let utf16 = Utf16Offsets(cuts::utf16_offset(start), cuts::utf16_offset(end));
    put_pair(tokens, at + 4, utf16.0, utf16.1);
}

// Writes the token of the block's characters from x up to y, if there is a place for it.
pub fn emit_span(
    offsets: &[u64],
    base: u32,
    x: usize,
    y: usize,
    tokens: &mut [u32],
    count: usize,
) -> Result<usize, CutError>
    requires { (x ≤ y) × (y < length offsets.now) × (base + y ≤ longest_text) }
    ensures { (place : Base) (chars : List ℕ) → Placed place base chars offsets.now → y ≤ length chars
        → cut_answer result tokens.new ≡ put_spans place chars (written count tokens.old) (span x y ∷ []) }
{
    if count < tokens.len() / cuts::TOKEN_WIDTH {
        put_token(tokens, count, base, x, y, offsets);
        return Ok(count + 1);
    }
    Err(CutError {
        refusal: Refusal::TokensFull,
        count,
    })
}
