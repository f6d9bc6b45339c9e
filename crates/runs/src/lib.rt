//! A sentence's blocks, one at a time: maximal runs of one class of characters (lib.rs, `SplitByCharacterClass`).
//!
//! `next_recording` answers the run that starts at a position, and as the Rust's it records the run's characters and where each of
//! them starts, so that no later pass over the run decodes it again. Where a character starts is recorded as one number, its byte
//! offset and its UTF-16 offset in it (`cuts::UTF16_UNIT`). The splitter that goes from run to run is `splitter`.
#![tactic(auto)]

ghost use Rattle.std.specs.Prelude.{◌≡◌, ◌≤◌, ◌<◌, length};
ghost use Rattle.std.proofs.Math.Option.{IsSome};
ghost use Rattle.utf8.specs.Text.{chars_from};
ghost use Rattle.book.specs.Returns.{longest_text};
ghost use Rattle.cuts.specs.Slices.{packed};
ghost use Rattle.runs.specs.Runs.{class_of, text_from, Recorded};

// The class of characters by which a sentence is split.
#[derive(Clone, Copy)]
pub enum CharacterClass {
    // Of `cut`: Han, ASCII letters and digits, and + # & . _ % -
    Default,
    // Of `cut_all`: Han.
    CutAll,
}

// A maximal run of characters that are all of the class, or all not.
#[derive(Clone, Copy)]
pub struct Run {
    pub matched: bool,
    // How many characters it has.
    pub chars: usize,
    // The position of the sentence after it.
    pub end: usize,
    // The same position in UTF-16 code units.
    pub units: usize,
}

// Whether a character is of the class.
fn classify(class: CharacterClass, c: u32) -> bool
    ensures { result ≡ class_of class c }
{
    match class {
        CharacterClass::Default => classes::is_han_default(c),
        CharacterClass::CutAll => classes::is_han_cut_all(c),
    }
}

// A place by its byte offset and its UTF-16 offset. Of the bytes and units of a character it is how far the next place is.
fn place(bytes: usize, units: usize) -> u64
    requires { (bytes ≤ longest_text) × (units ≤ longest_text) }
    ensures { result ≡ packed bytes units }
{
    bytes as u64 + units as u64 * cuts::UTF16_UNIT
}

// The run that starts at a position of the sentence s, which in UTF-16 is `from`, with its characters, and with the place of each
// of them and of its end.
pub fn next_recording(
    s: &[u8],
    at: usize,
    from: usize,
    class: CharacterClass,
    chars: &mut [u32],
    offsets: &mut [u64],
) -> Run
    requires at_in_bounds { (at < length s.now) × (length s.now ≤ longest_text) × IsSome (chars_from s.now at) × (from ≤ at) }
    requires at_in_bounds_2 { (length (text_from s.now at) < length chars.old) × (length (text_from s.now at) < length offsets.old) }
    ensures { Recorded (class_of class) s.now at from result chars.new offsets.new }
{
    // Lent anew, so that the compiler passes the slice's place and length, and not where the two are kept.
    let s = &*s;
    let mut matched = false;
    let mut n: usize = 0;
    let mut end = at;
    let mut reached = place(at, from);
    // Kept: each turn goes on by the width of the character that `next_char` read, which no `for` counts.
    while end < s.len() {
        let next = utf8::next_char(s, end);
        let of_class = classify(class, next.value);
        // The first character says of which kind the run is. It is read here, as the others are, and not before the loop:
        // `classify` is called in one place, and so inlined.
        if n > 0 && of_class != matched {
            break;
        }
        matched = of_class;
        chars[n] = next.value;
        offsets[n] = reached;
        n += 1;
        end += next.width;
        reached += place(next.width, next.units);
    }
    offsets[n] = reached;
    Run {
        matched,
        chars: n,
        end,
        units: cuts::utf16_offset(reached) as usize,
    }
}
