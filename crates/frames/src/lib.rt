//! The frames of the program `cutlines` (document 01, "Program `cutlines`").
//!
//! A frame is a line of hexadecimal digits of either case, two for each byte: the kind, and at most 1,024 bytes of text. Here it is
//! a slice of bytes; who reads it, and what the calls answer, is for others.
#![tactic(auto)]

ghost use Rattle.std.specs.Prelude.{◌≡◌, ◌+◌, ◌/◌, ◌%◌, ◌≤◌, length, take, drop, IfSome};
ghost use Rattle.frames.specs.Frames.{value_of, byte_of, bytes_of, decoded, kind_of, longest, read, frame_of};

// The bytes of the longest frame, its kind with them.
pub const LONGEST: usize = 1025;

// The digits of the longest frame.
const LONGEST_LINE: usize = 2050;

// A cut that is asked for.
#[derive(Clone, Copy, Debug, PartialEq, Eq)]
pub enum CutKind {
    // 02
    Plain,
    // 03
    All,
    // 04
    Search,
}

// What is asked. A cut leaves the book as it is.
#[derive(Clone, Copy, Debug, PartialEq, Eq)]
pub enum Kind {
    // 01
    Load,
    Cut(CutKind),
}

// A frame: its kind, and the bytes after it.
#[derive(Clone, Copy, Debug, PartialEq, Eq)]
pub struct Frame<'a> {
    pub kind: Kind,
    pub text: &'a [u8],
}

// The value of a digit; any other byte has none.
#[tactic(auto, unfolding(crate::specs::Frames::value_of))]
fn value_of(b: u8) -> Option<u8>
    ensures value { result ≡ value_of b }
    ensures below_16 { IfSome result (λ v. v ≤ 15) }
{
    match b {
        0x30..=0x39 => Some(b - 0x30),
        0x41..=0x46 => Some(b - 0x41 + 10),
        0x61..=0x66 => Some(b - 0x61 + 10),
        _ => None,
    }
}

// The byte of two digits.
#[tactic(auto, unfolding(crate::specs::Frames::byte_of))]
fn byte_of(high: u8, low: u8) -> Option<u8>
    ensures { result ≡ byte_of high low }
{
    let h = value_of(high)?;
    let l = value_of(low)?;
    Some(h * 16 + l)
}

// Writes the bytes of a line's digits, and answers whether it is digits.
#[tactic(auto, using(std::proofs::lemmas::Grind::common_steps, crate::proofs::Bytes::no_byte, crate::proofs::Bytes::one_byte, crate::proofs::Bytes::all_bytes), unfolding(crate::specs::Frames::decoded))]
fn decode(line: &[u8], bytes: &mut [u8]) -> Option<()>
    requires { (length line.now % 2 ≡ 0) × (length line.now / 2 ≤ length bytes.old) }
    ensures { decoded result (take (length line.now / 2) bytes.new) ≡ bytes_of line.now }
{
    // Kept: an index: two digits make one byte, and of what a zip of `iter_mut` with `chunks_exact` writes the check knows nothing.
    for i in 0..line.len() / 2 {
        bytes[i] = byte_of(line[2 * i], line[2 * i + 1])?;
    }
    Some(())
}

// The kind of a number.
#[tactic(auto, unfolding(crate::specs::Frames::kind_of))]
fn kind_of(b: u8) -> Option<Kind>
    ensures { result ≡ kind_of b }
{
    match b {
        1 => Some(Kind::Load),
        2 => Some(Kind::Cut(CutKind::Plain)),
        3 => Some(Kind::Cut(CutKind::All)),
        4 => Some(Kind::Cut(CutKind::Search)),
        _ => None,
    }
}

// Reads a line without its end into a space for its bytes. A line that is no frame gives nothing.
#[tactic(auto, using(std::proofs::lemmas::Grind::common_steps, crate::proofs::Bytes::not_framed, crate::proofs::Bytes::no_digits, crate::proofs::Bytes::no_kind, crate::proofs::Bytes::frame_read))]
pub fn read_frame<'a>(line: &[u8], bytes: &'a mut [u8]) -> Option<Frame<'a>>
    requires { length bytes.old ≡ 1 + longest }
    ensures frame { read result ≡ frame_of line.now }
    ensures text_le_longest { IfSome result (λ frame. length frame.text.now ≤ longest) }
{
    let length = line.len();
    if length < 2 || LONGEST_LINE < length || length % 2 != 0 {
        return None;
    }
    decode(line, bytes)?;
    Some(Frame {
        kind: kind_of(bytes[0])?,
        text: &bytes[1..length / 2],
    })
}
