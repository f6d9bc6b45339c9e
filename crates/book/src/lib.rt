//! What a book is and what the calls on it return: its head, the sizes that are allowed, and the damage that a head shows.
#![tactic(auto)]

ghost use Rattle.std.specs.Prelude.{◌≡◌, ◌≤◌};
ghost use Rattle.trie.specs.SlotCounts.{most_slots};
ghost use Rattle.book.specs.Returns.{number_of, cell_frequency, head_damaged};
ghost use Rattle.book.specs.Enter.{cell_with_frequency};
ghost use Rattle.book.specs.Areas.{areas_allowed};

use lines::LineError;
use utf8::Malformed;

// The refusals of document 01's table, each by its number. A call that is done has the number 0.
#[derive(Clone, Copy, Debug, PartialEq, Eq)]
pub enum Refusal {
    // A book area outside the allowed sizes, or a token area that is not a whole number of tokens.
    BadAreas = 1,
    // A text over 16,777,215 bytes.
    TooLong = 2,
    // Malformed UTF-8.
    Malformed = 3,
    // A frequency malformed or over 4,294,967,295.
    BadFrequency = 4,
    // The total would pass 4,294,967,295.
    TotalTooLarge = 5,
    // A new word, and every record taken.
    RecordsFull = 6,
    // A new word, and too few slots.
    SlotsFull = 7,
    // A damaged book met.
    Damaged = 8,
    // A work area shorter than the sentence's characters + 1.
    WorkTooShort = 9,
    // A block has more edges than the edge area.
    EdgesFull = 10,
    // More tokens than places.
    TokensFull = 11,
}

// A text that is no UTF-8.
impl From<Malformed> for Refusal {
    ghost use Rattle.book.specs.declared.Refusal.TheVariants.{Malformed};

    ghost from_gives = { λ _ r. r ≡ Malformed };

    fn from(_e: Malformed) -> Refusal {
        Refusal::Malformed
    }
}

// A line that is no UTF-8, or whose frequency is none.
impl From<LineError> for Refusal {
    ghost use Rattle.book.specs.Returns.{refusal_of_line};

    ghost from_gives = { λ e r. r ≡ refusal_of_line e };

    fn from(e: LineError) -> Refusal {
        match e {
            LineError::Malformed => Refusal::Malformed,
            LineError::BadFrequency => Refusal::BadFrequency,
        }
    }
}

// A book's head.
#[derive(Clone, Copy, Debug, PartialEq, Eq)]
pub struct Head {
    // Records used.
    pub records: u64,
    // Slots used.
    pub slots: u64,
    // The node number that the next new node gets.
    pub next: u64,
    // The sum of the frequencies of the words held.
    pub total: u64,
}

// What stopped a load: the refusal, and its line. Lines are counted from 1; 0 is the text as a whole.
#[derive(Clone, Copy, Debug, PartialEq, Eq)]
pub struct LoadError {
    pub refusal: Refusal,
    pub line: usize,
}

// How a word enters: into a record that it has, or as a new word that takes so many slots and nodes. Both carry the total
// that follows.
#[derive(Clone, Copy)]
pub enum Entering {
    Replace(usize, u64),
    Insert(u64, u64, u64),
}

// The number of a call that is done or refused, as document 01's table has it.
pub fn number_of(outcome: Result<(), Refusal>) -> u32
    ensures { result ≡ number_of outcome }
{
    match outcome {
        Ok(()) => 0,
        Err(refusal) => refusal as u32,
    }
}

// The most entries of a root table.
const MOST_ENTRIES: usize = 65_536;

// The most records.
const MOST_RECORDS: usize = 1_048_576;

// The longest text that is read.
pub const LONGEST_TEXT: usize = 16_777_215;

// The greatest frequency, and the greatest total.
pub const GREATEST_TOTAL: u64 = 4_294_967_295;

// The greatest number of the next node: the last that is given out is the one before it.
pub const GREATEST_NEXT: u64 = 16_777_215;

// Whether the lengths of a book's areas are allowed: a number for each root entry, two for each slot, one for each record, and
// its logarithm.
pub fn is_allowed(roots: usize, slots: usize, records: usize, logarithms: usize) -> bool
    ensures { result ≡ areas_allowed roots slots records logarithms }
{
    (1 <= roots)
        & (roots <= MOST_ENTRIES)
        & trie::is_slot_count(slots / 2)
        & (slots % 2 == 0)
        & (1 <= records)
        & (records <= MOST_RECORDS)
        & (logarithms == records)
}

// 2^32: a record's frequency is what is below it.
const FREQUENCIES: u64 = 0x1_0000_0000;

// The frequency in a record's cell.
pub fn cell_frequency(cell: u64) -> u32
    ensures { result ≡ cell_frequency cell }
{
    (cell % FREQUENCIES) as u32
}

// A record's cell with another frequency.
pub fn cell_with_frequency(cell: u64, frequency: u32) -> u64
    ensures { result ≡ cell_with_frequency cell frequency }
{
    cell / FREQUENCIES * FREQUENCIES + frequency as u64
}

// Whether a head is damaged, in a book of so many records and slots.
pub fn is_head_damaged(head: Head, records: usize, slots: usize) -> bool
    requires { slots ≤ most_slots }
    ensures { result ≡ head_damaged head records slots }
{
    if (slots as u64) < head.slots {
        return true;
    }
    ((records as u64) < head.records)
        | (slots as u64 * 6 < head.slots * 8)
        | (GREATEST_TOTAL < head.total)
        | (head.next < 1)
        | (GREATEST_NEXT < head.next)
}
