//! How a word enters a book: the decision, which tests everything that document 01 tests, in its order, and writes nothing.
#![tactic(auto)]

ghost use Rattle.std.specs.Prelude.{◌≡◌, false, List, ◌/◌, ◌≤◌, Float, length};
ghost use Rattle.std.proofs.Math.Option.{IsSome};
ghost use Rattle.utf8.specs.Text.{chars_of};
ghost use Rattle.trie.specs.Trie.{trie_of, SlotTable};
ghost use Rattle.book.specs.Areas.{book_of};
ghost use Rattle.book.specs.Returns.{longest_text, greatest_total, most_records, head_damaged};
ghost use Rattle.decision.specs.Texts.{absent_text, decide_text};

use book::{Entering, Head, Refusal};
use trie::{Slots, Tables};
use walk::Room;

// How a word enters that the lookup does not find: by the insertion's own walk, which tests no bits.
fn decide_absent(
    head: Head,
    roots: &[u64],
    slots: &[u64],
    records: &[u64],
    shift: u32,
    word: &[u8],
    frequency: u64,
) -> Result<Entering, Refusal>
    requires slot_table { SlotTable (length slots.now) shift }
    requires slots_value { head_damaged head (length records.now) (length slots.now / 2) ≡ false }
    requires some { IsSome (chars_of word.now) × (length word.now ≤ longest_text) × (frequency ≤ greatest_total) }
    ensures { (logarithms : List Float) → result
        ≡ absent_text (book_of head (trie_of roots.now slots.now) records.now logarithms) (chars_of word.now) frequency }
{
    let used = head.records as usize;
    let tables = Tables {
        roots,
        slots: Slots {
            numbers: slots,
            shift,
        },
    };
    let Ok(room) = word_walk::room_for(tables, used, word) else {
        return Err(Refusal::Damaged);
    };
    match room {
        Room::Whole(number) => match number {
            Err(_) => Err(Refusal::Damaged),
            Ok(_) => counts::decide_new(head, records.len(), slots, 0, 0, frequency),
        },
        Room::Partly(new_slots, nodes) => counts::decide_new(
            head,
            records.len(),
            slots,
            new_slots as u64,
            nodes as u64,
            frequency,
        ),
    }
}

// How a word enters: by its lookup, which tests the bits.
pub fn decide(
    head: Head,
    roots: &[u64],
    slots: &[u64],
    records: &[u64],
    shift: u32,
    word: &[u8],
    frequency: u64,
) -> Result<Entering, Refusal>
    requires slot_table { SlotTable (length slots.now) shift }
    requires slots_value { head_damaged head (length records.now) (length slots.now / 2) ≡ false }
    requires some { IsSome (chars_of word.now) × (length word.now ≤ longest_text) × (frequency ≤ greatest_total) × (length records.now ≤ most_records) }
    ensures { (logarithms : List Float) → result
        ≡ decide_text (book_of head (trie_of roots.now slots.now) records.now logarithms) (chars_of word.now) frequency }
{
    let used = head.records as usize;
    let tables = Tables {
        roots,
        slots: Slots {
            numbers: slots,
            shift,
        },
    };
    match word_walk::get(tables, used, word) {
        Ok(Some(n)) => counts::decide_held(
            head.total,
            book::cell_frequency(records[n]),
            n,
            frequency,
        ),
        Ok(None) => decide_absent(head, roots, slots, records, shift, word, frequency),
        Err(_) => Err(Refusal::Damaged),
    }
}
