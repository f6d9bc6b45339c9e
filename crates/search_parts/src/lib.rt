//! The parts of a token that search brings (lib.rs, `cut_for_search`): those between . _ and -, of at least 2 bytes and with an ASCII
//! letter.
//!
//! The Rust splits the token's text and counts the characters before each part from the token's start. Here a token is a stretch of
//! a block, whose characters and their places stand in slices, so that a part is found by one look at each character and counted by
//! none.
#![tactic(auto)]

ghost use Rattle.std.specs.Prelude.{◌≡◌, List, [], ◌∷◌, ℕ, ◌+◌, ◌≤◌, ◌<◌, length, take};
ghost use Rattle.classes.specs.Tokens.{ascii_letter};
ghost use Rattle.book.specs.Returns.{longest_text};
ghost use Rattle.cuts.specs.Slices.{Placed};
ghost use Rattle.cuts.specs.Tokens.{span, any_of, those, chars_between, searchable, parts_of, Base, written};
ghost use Rattle.cuts.specs.Cuts.{cut_answer, put_spans};
ghost use Rattle.search_parts.specs.Parts.{PartFrom};

use cuts::CutError;

// A part of a token, from where it starts.
#[derive(Clone, Copy)]
pub struct Part {
    // The position after it.
    pub end: usize,
    // Whether it has an ASCII letter.
    pub lettered: bool,
}

// Whether c is an ASCII letter.
fn is_ascii_alphabetic(c: u32) -> bool
    ensures { result ≡ ascii_letter c }
{
    match c {
        0x41..=0x5A | 0x61..=0x7A => true,
        _ => false,
    }
}

// The part that starts at a position: up to the first connector, or to the token's end.
fn next_part(chars: &[u32], from: usize, to: usize) -> Part
    requires { (from ≤ to) × (to ≤ length chars.now) }
    ensures { PartFrom chars.now from to result }
{
    let mut lettered = false;
    for end in from..to {
        let c = chars[end];
        if classes::is_connector(c) {
            return Part { end, lettered };
        }
        if is_ascii_alphabetic(c) {
            lettered = true;
        }
    }
    Part { end: to, lettered }
}

// Writes a part, if it is one to search for: of at least 2 bytes, with an ASCII letter.
fn emit_part(
    offsets: &[u64],
    base: u32,
    from: usize,
    part: Part,
    tokens: &mut [u32],
    count: usize,
) -> Result<usize, CutError>
    requires { (from ≤ part.end) × (part.end < length offsets.now) × (base + part.end ≤ longest_text) }
    ensures { (place : Base) (cs : List ℕ) → Placed place base cs offsets.now → part.end ≤ length cs
        → part.lettered ≡ any_of ascii_letter (chars_between cs (span from part.end))
        → cut_answer result tokens.new ≡ put_spans place cs (written count tokens.old)
        (those (λ p. searchable (chars_between cs p)) (span from part.end ∷ [])) }
{
    let end = part.end;
    if part.lettered {
        let start = cuts::byte_offset(offsets[from]) as usize;
        if start + 2 <= cuts::byte_offset(offsets[end]) as usize {
            return tokens::emit_span(offsets, base, from, end, tokens, count);
        }
    }
    Ok(count)
}

// The parts of the token from x up to y, between its connectors. A token without one is its own only part, and brings none.
pub fn emit_parts(
    chars: &[u32],
    offsets: &[u64],
    base: u32,
    x: usize,
    y: usize,
    tokens: &mut [u32],
    count: usize,
) -> Result<usize, CutError>
    requires { (x ≤ y) × (y ≤ length chars.now) × (y < length offsets.now) × (base + y ≤ longest_text) }
    ensures { (place : Base) (n : ℕ) → y ≤ n → Placed place base (take n chars.now) offsets.now
        → cut_answer result tokens.new ≡ put_spans place (take n chars.now) (written count tokens.old) (parts_of (take n chars.now) (span x y)) }
{
    let mut count = count;
    let mut from = x;
    let mut part = next_part(chars, x, y);
    if part.end == y {
        return Ok(count);
    }
    // Kept: each turn goes on behind the part that `next_part` found, which no `for` counts: a hand-written iterator would be longer.
    while part.end < y {
        count = emit_part(offsets, base, from, part, tokens, count)?;
        from = part.end + 1;
        part = next_part(chars, from, y);
    }
    emit_part(offsets, base, from, part, tokens, count)
}
