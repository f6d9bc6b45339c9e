//! The lines of the program `cutlines`'s input (document 01, "Program `cutlines`"), as they are read piece by piece. Of a line only its
//! beginning is kept: as much as tells whether it is a frame, and which.
#![tactic(auto)]

ghost use Rattle.std.specs.Prelude.{◌≡◌, ◌<◌, ◌≤◌, ◌==◌, ◌++◌, ℕ, List, [], length, take, IfSome, IsTrue, MatchOption, ◌↔◌};
ghost use Rattle.std.specs.List.{position};
ghost use Rattle.printing.specs.Answers.{line_end};
ghost use Rattle.input_lines.specs.Input.{most_kept, taken, line_from};

use std::marker::Model;

// The bytes that are kept of a line: one more than the longest frame has digits, so that a longer line is seen to be none.
pub const KEPT: usize = 2051;

// A line as far as it has come: the bytes that are kept of it.
#[derive(Drop)]
pub struct Line {
    bytes: [u8; KEPT],
    count: usize,
}

// Clauses see the bytes that are kept.
impl Model for Line {
    ghost Value = { List ℕ };

    ghost view = { λ l. take l.count l.bytes };

    ghost invariant = { λ l. l.count ≤ most_kept };
}

impl Line {
    // A line of which nothing has come.
    pub fn new() -> Line
        ensures { result ≡ [] }
    {
        Line {
            bytes: [0; KEPT],
            count: 0,
        }
    }

    pub fn is_empty(&self) -> bool
        ensures { IsTrue result ↔ (length self.now ≡ 0) }
    {
        self.count == 0
    }

    pub fn bytes(&self) -> &[u8]
        ensures { result.now ≡ self.now }
    {
        &self.bytes[..self.count]
    }

    pub fn clear(&mut self)
        ensures { self.new ≡ [] }
    {
        self.count = 0;
    }

    // Adds bytes at the end, as far as there is room.
    #[tactic(auto, using(std::proofs::lemmas::Grind::common_steps, crate::proofs::Input::bytes_kept))]
    fn keep(&mut self, bytes: &[u8])
        ensures kept { self.new ≡ take most_kept (self.old ++ bytes.now) }
        ensures few { length self.old ≤ most_kept }
    {
        let count = bytes.len().min(KEPT - self.count);
        let end = self.count + count;
        self.bytes[self.count..end].copy_from_slice(&bytes[..count]);
        self.count = end;
    }
}

// The place of the first LF.
fn first_line_end(input: &[u8]) -> Option<usize>
    ensures { result ≡ position (λ b. b == line_end) input.now }
{
    input.iter().position(|b| *b == b'\n')
}

// Takes the input up to an LF or to its end, and adds it to a line. Where the line is whole, the answer is the input after its LF.
#[tactic(auto, using(std::proofs::lemmas::Grind::common_steps, crate::proofs::Input::whole_line, crate::proofs::Input::unfinished_line))]
pub fn take_line<'a>(input: &'a [u8], line: &mut Line) -> Option<&'a [u8]>
    ensures input_after { MatchOption result
        (taken line.new None ≡ line_from line.old input.now)
        (λ rest. taken line.new (Some rest.now) ≡ line_from line.old input.now) }
    ensures shorter { IfSome result (λ rest. length rest.now < length input.now) }
{
    let Some(end) = first_line_end(input) else {
        line.keep(input);
        return None;
    };
    line.keep(&input[..end]);
    Some(&input[end + 1..])
}
