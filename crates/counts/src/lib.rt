//! How a word enters, by counts alone: the total, the records and slots used, the next node. The walk that tells a held word from a
//! new one, and how much of a new one is there, is behind it (`decision`).
#![tactic(auto)]

ghost use Rattle.std.specs.Prelude.{◌≡◌, ◌/◌, ◌%◌, ◌≤◌, length};
ghost use Rattle.trie.specs.Trie.{keys_of};
ghost use Rattle.trie.specs.SlotCounts.{most_slots};
ghost use Rattle.book.specs.Returns.{longest_text, greatest_total, greatest_next};
ghost use Rattle.book.specs.Enter.{replace_by, insert_by};

use book::{Entering, Head, Refusal};

// How a word that is held enters, by the total, its record's old frequency and that record.
pub fn decide_held(total: u64, old: u32, n: usize, frequency: u64) -> Result<Entering, Refusal>
    requires { (total ≤ greatest_total) × (frequency ≤ greatest_total) }
    ensures { result ≡ replace_by total old n frequency }
{
    let old = old as u64;
    if total < old {
        return Err(Refusal::Damaged);
    }
    let new = total - old + frequency;
    if book::GREATEST_TOTAL < new {
        return Err(Refusal::TotalTooLarge);
    }
    Ok(Entering::Replace(n, new))
}

// How a new word enters that takes so many slots and nodes.
pub fn decide_new(
    head: Head,
    records: usize,
    table: &[u64],
    slots: u64,
    nodes: u64,
    frequency: u64,
) -> Result<Entering, Refusal>
    requires table_len_bound { (length table.now / 2 ≤ most_slots) × (head.slots ≤ length table.now / 2) × (length table.now % 2 ≡ 0) }
    requires total_le_greatest_total { (head.total ≤ greatest_total) × (head.next ≤ greatest_next) × (frequency ≤ greatest_total) }
    requires slots_le_longest_text { (slots ≤ longest_text) × (nodes ≤ longest_text) }
    ensures { result ≡ insert_by head records (keys_of table.now) slots nodes frequency }
{
    let total = head.total + frequency;
    if book::GREATEST_TOTAL < total {
        return Err(Refusal::TotalTooLarge);
    }
    if records::no_record(head, records) {
        return Err(Refusal::RecordsFull);
    }
    let most = table.len() / 2;
    if most as u64 * 6 < (head.slots + slots) * 8 {
        return Err(Refusal::SlotsFull);
    }
    if !empties::has_empty(table, empties::search_start(head.next, most), slots) {
        return Err(Refusal::Damaged);
    }
    if book::GREATEST_NEXT < head.next + nodes {
        return Err(Refusal::Damaged);
    }
    Ok(Entering::Insert(slots, nodes, total))
}
