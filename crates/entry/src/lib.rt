//! A word enters a book: first the decision, which tests everything and writes nothing (`decision`), then the write, which refuses
//! nothing. A refused word leaves no trace.
#![tactic(auto)]

ghost use Rattle.std.specs.Prelude.{◌≡◌, true, ◌-◌, ◌/◌, ◌≤◌, length};
ghost use Rattle.std.proofs.Math.Option.{IsSome};
ghost use Rattle.utf8.specs.Text.{chars_of};
ghost use Rattle.score.specs.Logarithm.{log_float};
ghost use Rattle.trie.specs.Trie.{log2};
ghost use Rattle.book.specs.Areas.{areas_allowed, book_in};
ghost use Rattle.book.specs.Returns.{longest_text};
ghost use Rattle.entry.specs.Texts.{enter_answer, enter_text};

use book::{Entering, Head, Refusal};

// A word enters with its frequency and the logarithm of that, or is refused and leaves everything as it was.
pub fn load_entry(
    head: &mut Head,
    roots: &mut [u64],
    slots: &mut [u64],
    records: &mut [u64],
    logarithms: &mut [f64],
    shift: u32,
    word: &[u8],
    frequency: u32,
    logarithm: f64,
) -> Result<(), Refusal>
    requires logarithms_value { areas_allowed (length roots.old) (length slots.old) (length records.old) (length logarithms.old) ≡ true }
    requires shift_value { (shift ≡ 64 - log2 (length slots.old / 2)) × IsSome (chars_of word.now) × (length word.now ≤ longest_text)
        × (logarithm ≡ log_float frequency) }
    ensures { enter_answer result (book_in head.new roots.new slots.new records.new logarithms.new)
        ≡ enter_text (book_in head.old roots.old slots.old records.old logarithms.old) (chars_of word.now) frequency }
{
    // Number by number: copied as a whole right after it was written, the head waits for the writes before it.
    let before = Head {
        records: head.records,
        slots: head.slots,
        next: head.next,
        total: head.total,
    };
    if book::is_head_damaged(before, records.len(), slots.len() / 2) {
        return Err(Refusal::Damaged);
    }
    match decision::decide(before, roots, slots, records, shift, word, frequency as u64)? {
        Entering::Replace(n, total) => {
            let cell = book::cell_with_frequency(records[n], frequency);
            records::set_record(records, logarithms, n, cell, logarithm);
            head.total = total;
        }
        Entering::Insert(new_slots, nodes, total) => {
            let n = records::next_record(before);
            insert::insert(roots, slots, shift, word, before.next as u32, n as u32);
            records::set_record(records, logarithms, n as usize, frequency as u64, logarithm);
            head.records += 1;
            head.slots += new_slots;
            head.next += nodes;
            head.total = total;
        }
    }
    Ok(())
}
