//! Whether a new word finds the slots that it needs. 01 asks for so many empty slots after the test of the head's counts, which
//! may be wrong in a book that was not filled here; so they are counted, no further than has to be.
#![tactic(auto)]

ghost use Rattle.std.specs.Prelude.{◌≡◌, ◌-◌, ◌/◌, ◌%◌, ◌≤◌, leb, length};
ghost use Rattle.trie.specs.Trie.{keys_of};
ghost use Rattle.trie.specs.SlotCounts.{most_slots};
ghost use Rattle.book.specs.Returns.{greatest_next};
ghost use Rattle.book.specs.Enter.{empty_slots};

// The nodes for which a search for empty slots starts at one place.
const STAY: u64 = 1_024;

// The golden ratio's share of 2^32: its multiples spread evenly over it.
const GOLDEN: u64 = 0x9E37_79B9;

const PARTS: u64 = 0x1_0000_0000;

// How many empty slots are still wanted after these, of so many. It looks no further than it has to.
fn still_wanted(slots: &[u64], count: u64) -> u64
    requires { length slots.now % 2 ≡ 0 }
    ensures { result ≡ count - empty_slots (keys_of slots.now) }
{
    let mut left = count;
    for i in 0..slots.len() / 2 {
        if left == 0 {
            return 0;
        }
        if trie::key_at(slots, i) == 0 {
            left -= 1;
        }
    }
    left
}

// Whether so many slots are empty, or more: looked for from the start on, and then before it.
pub fn has_empty(slots: &[u64], start: usize, count: u64) -> bool
    requires { (start ≤ length slots.now / 2) × (length slots.now % 2 ≡ 0) }
    ensures { result ≡ leb count (empty_slots (keys_of slots.now)) }
{
    let cut = 2 * start;
    let left = still_wanted(&slots[cut..], count);
    still_wanted(&slots[..cut], left) == 0
}

// Where a new word's search for empty slots starts: a place that goes far each time it moves, so that a long run of taken slots
// is not passed again for every new word. It stays for some nodes, since a search that is much like the last one is quicker.
pub fn search_start(next: u64, slots: usize) -> usize
    requires { (next ≤ greatest_next) × (slots ≤ most_slots) }
    ensures { result ≤ slots }
{
    let part = (next / STAY + 1) * GOLDEN % PARTS;
    (part * slots as u64 / PARTS) as usize
}
