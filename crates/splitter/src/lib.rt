//! The way through a sentence's blocks (lib.rs, `SplitByCharacterClass`).
//!
//! As in the Rust, the splitter keeps the text and how far it has got. Its functions are thin: they make it, move it and ask it.
//! The work is in the step on slice and position, `runs::next_recording`.
//!
//! A loop over a sentence's blocks keeps the position alone: `start`, `has_next` and `advance` make the splitter of it, and
//! answer what it says. That the runs in turn are the sentence's blocks is the claim `BlocksInTurn`.
#![tactic(auto)]

ghost use Rattle.std.specs.Prelude.{◌≡◌};
ghost use Rattle.splitter.specs.Turns.{begun, moved_to, within, has_next};

// A text, and how far it has been split. The class, which the Rust keeps beside them, is a parameter of `next_recording`.
#[derive(Clone, Copy)]
pub struct SplitByCharacterClass<'t> {
    pub text: &'t [u8],
    pub pos: usize,
}

impl<'t> SplitByCharacterClass<'t> {
    // A splitter at the text's start.
    pub fn new(text: &'t [u8]) -> SplitByCharacterClass<'t>
        ensures { result ≡ begun text.entry }
    {
        SplitByCharacterClass { text, pos: 0 }
    }

    // How far it has got.
    pub fn position(self) -> usize
        ensures { result ≡ self.entry.pos }
    {
        self.pos
    }

    // The same splitter behind a run, which ends there.
    pub fn moved(self, end: usize) -> SplitByCharacterClass<'t>
        ensures { result ≡ moved_to self.entry end }
    {
        SplitByCharacterClass {
            text: self.text,
            pos: end,
        }
    }

    // Whether there is a run that it has not passed.
    pub fn has_next(self) -> bool
        ensures { result ≡ has_next self.entry }
    {
        is_within(self.text, self.pos)
    }
}

// Whether a position is before the end of the text.
fn is_within(s: &[u8], at: usize) -> bool
    ensures { result ≡ within s.now at }
{
    at < s.len()
}

// Where the splitter of a sentence starts.
pub fn start(sentence: &[u8]) -> usize
    ensures { result ≡ 0 }
{
    SplitByCharacterClass::new(sentence).position()
}

// Whether the splitter of a sentence that has got to a position has a run before it.
pub fn has_next(sentence: &[u8], at: usize) -> bool
    ensures { result ≡ within sentence.now at }
{
    let splitter = SplitByCharacterClass {
        text: sentence,
        pos: at,
    };
    splitter.has_next()
}

// Where that splitter stands, once it is moved behind the run that starts at the position.
pub fn advance(sentence: &[u8], at: usize, end: usize) -> usize
    ensures { result ≡ end }
{
    let splitter = SplitByCharacterClass {
        text: sentence,
        pos: at,
    };
    splitter.moved(end).position()
}
