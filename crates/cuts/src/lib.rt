//! What the cuts of a sentence are (lib.rs, `cut`, `cut_all`, `cut_for_search`, `tokenize`), in `specs/`, and the token that they write.
//!
//! The Rust's `Token` borrows its word from the sentence. Here it is the word's place, counted in scalar values, in bytes and in
//! UTF-16 code units.
#![tactic(auto)]

ghost use Rattle.std.specs.Prelude.{◌≡◌, ◌/◌, ◌%◌, ◌^◌};

use book::Refusal;

// Where a token starts and ends, counted in scalar values.
#[derive(Clone, Copy)]
pub struct CharOffsets(pub u32, pub u32);

// Where a token starts and ends, counted in bytes.
#[derive(Clone, Copy)]
pub struct ByteOffsets(pub u32, pub u32);

// Where a token starts and ends, counted in UTF-16 code units.
#[derive(Clone, Copy)]
pub struct Utf16Offsets(pub u32, pub u32);

// A word of a sentence, by its place. It is written pair after pair (`tokens::put_token`).
#[derive(Clone, Copy)]
pub struct Token {
    pub chars: CharOffsets,
    pub bytes: ByteOffsets,
    pub utf16: Utf16Offsets,
}

// The numbers of a token in the token area.
pub const TOKEN_WIDTH: usize = 6;

// What a code unit of UTF-16 adds to a place. A place between two characters of a sentence is one number: its byte offset, and
// this many times its UTF-16 offset. So a character's offsets are one slice of the work area, and one load.
pub const UTF16_UNIT: u64 = 0x1_0000_0000;

// The byte offset of a place.
pub fn byte_offset(place: u64) -> u32
    ensures { result ≡ place % 2 ^ 32 }
{
    (place % UTF16_UNIT) as u32
}

// The UTF-16 offset of a place.
pub fn utf16_offset(place: u64) -> u32
    ensures { result ≡ place / 2 ^ 32 }
{
    (place / UTF16_UNIT) as u32
}

// What stopped a cut, of a whole sentence or of a part: the refusal, and how many tokens are written. A cut that is done answers
// that number alone.
#[derive(Clone, Copy, Debug, PartialEq, Eq)]
pub struct CutError {
    pub refusal: Refusal,
    pub count: usize,
}

// Which cut `tokenize` chooses.
#[derive(Clone, Copy)]
pub enum TokenizeMode {
    // `cut`
    Default,
    // `cut_for_search`
    Search,
}
