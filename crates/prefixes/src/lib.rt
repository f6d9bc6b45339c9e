//! The words of the dictionary that start at one position of a block (trie.rs's `for_each_prefix_at_every_char`, its inner walk).
//!
//! The Rust grows an array of edges. Here their ends and records go to two lent slices, behind those of the positions before. So the
//! walk can run out of room, and in a damaged book it can meet damage; it answers which it met first.
#![tactic(auto)]

ghost use Rattle.std.specs.Prelude.{◌≡◌, ◌≤◌, ◌<◌, length, take, drop};
ghost use Rattle.trie.specs.Tables.{trie_in};
ghost use Rattle.book.specs.Returns.{Book, longest_text, most_records};
ghost use Rattle.book.specs.Prefixes.{words_from};
ghost use Rattle.cuts.specs.Slices.{Characters};
ghost use Rattle.prefixes.specs.Edges.{Kept, WalkedAt};

use trie::{Damaged, ParentRef, Tables};

// Why a walk has not left all its edges in the edge slices.
#[derive(Clone, Copy, Debug, PartialEq, Eq)]
pub enum PrefixError {
    // More edges than places.
    Full,
    // Damage, before an edge that found no place.
    Damaged,
}

impl From<Damaged> for PrefixError {
    ghost use Rattle.prefixes.specs.declared.PrefixError.TheVariants.{Damaged};

    ghost from_gives = { λ _ e. e ≡ Damaged };

    fn from(_damaged: Damaged) -> PrefixError {
        PrefixError::Damaged
    }
}

// The words that start at a position of a block of n characters, after the edges before them: so many of the room's places are
// taken. Ends rise. It answers how many are taken then.
pub fn prefixes_at(
    tables: Tables,
    used: usize,
    chars: &[u32],
    n: usize,
    at: usize,
    edge_ends: &mut [u32],
    edge_records: &mut [u32],
    room: usize,
    taken: usize,
) -> Result<usize, PrefixError>
    requires at_lt_n { (at < n) × (n ≤ length chars.now) × (n ≤ longest_text) × Characters n chars.now }
    requires taken_le_room { (taken ≤ room) × (room ≤ length edge_ends.old) × (room ≤ length edge_records.old) × (used ≤ most_records) }
    ensures walked_at { (b : Book) → b.trie ≡ trie_in tables.entry → b.head.records ≡ used
        → WalkedAt b n at room taken (words_from b at (drop at (take n chars.now))) edge_ends.new edge_records.new result }
    ensures kept { Kept taken edge_ends.old edge_ends.new × Kept taken edge_records.old edge_records.new }
{
    let mut count = taken;
    let mut place = ParentRef::Root;
    for next in at..n {
        let Some(child) = walk::tested_step(tables, place, chars[next])? else {
            return Ok(count);
        };
        place = child;
        // Kept: no `?`, so that an edit can answer otherwise where the number is bad.
        let Ok(number) = walk::word_at(tables.roots, tables.slots.numbers, used, place) else {
            return Err(PrefixError::Damaged);
        };
        let Some(record) = number else {
            continue;
        };
        if count == room {
            return Err(PrefixError::Full);
        }
        edge_ends[count] = (next + 1) as u32;
        edge_records[count] = record as u32;
        count += 1;
    }
    Ok(count)
}
