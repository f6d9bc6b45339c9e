//! A case is a text, whose parts have `|` between them: a heading, the lengths of a book's four areas, and what the program does
//! with them. Commands are each ended by `;`, and their fields are parted by single spaces. A call written out takes many lines; a case
//! is written in a few words.
ghost use Rattle.std.specs.Prelude.{◌≤◌, length};
ghost use Rattle.std.specs.Iterator.{at_most};

// The commands of a script one after the other. The last one needs no `;`.
#[derive(Drop)]
pub struct Script<'a>(&'a [u8]);

pub fn commands(script: &[u8]) -> Script<'_> {
    Script(script)
}

impl<'a> Iterator for Script<'a> {
    type Item = &'a [u8];

    ghost remaining = { λ s. at_most (length s.0.now) };

    fn next(&mut self) -> Option<&'a [u8]> {
        let script = self.0;
        if script.is_empty() {
            return None;
        }
        let Some(end) = script.iter().position(|b| *b == b';') else {
            self.0 = &[];
            return Some(script);
        };
        self.0 = &script[end + 1..];
        Some(&script[..end])
    }
}

// A piece of a text whose pieces have this byte between them, the first being piece 0; nothing where the text has fewer.
fn piece(text: &[u8], number: usize, mark: u8) -> &[u8] {
    text.split(|b| *b == mark).nth(number).unwrap_or(&[])
}

// A field of a command, the name being field 0.
pub fn field(command: &[u8], number: usize) -> &[u8] {
    piece(command, number, b' ')
}

// A command from a field on.
pub fn rest(command: &[u8], number: usize) -> &[u8] {
    command
        .splitn(number.saturating_add(1), |b| *b == b' ')
        .nth(number)
        .unwrap_or(&[])
}

// A number with another digit behind it, where it is one and 64 bits have room for it; else the number as it is.
fn with_digit(n: u64, digit: u8) -> u64 {
    match digit {
        b'0'..=b'9' if n <= 1_844_674_407_370_955_160 => n * 10 + u64::from(digit - b'0'),
        _ => n,
    }
}

// The number in a field of a command.
pub fn number(command: &[u8], at: usize) -> u64 {
    field(command, at)
        .iter()
        .fold(0, |n, digit| with_digit(n, *digit))
}

// The same as a length of an area that has so many places: that many where the number is greater.
pub fn length(command: &[u8], at: usize, places: usize) -> usize
    ensures { result ≤ places }
{
    (number(command, at) as usize).min(places)
}

// A part of a case, the heading being part 0.
pub fn part(case: &[u8], number: usize) -> &[u8] {
    piece(case, number, b'|')
}

// A length of a case's second part, `root R, slots S, records N L`, where the area has so many places.
pub fn size(case: &[u8], field: usize, places: usize) -> usize
    ensures { result ≤ places }
{
    length(part(case, 1), field, places)
}
