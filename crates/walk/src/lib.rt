//! One step of a walk through the trie (trie.rs), and what stands where it leads.
//!
//! A walk keeps the place that it has reached, the root, a root entry or a slot, and reads one character after another. A
//! lookup tests the bits at each step, and an insertion tests none.
#![tactic(auto)]

ghost use Rattle.std.specs.Prelude.{◌≡◌, List, length, ℕ, ◌/◌, ◌^◌, ◌<◌};
ghost use Rattle.trie.specs.Trie.{node_at, from_root, open_step, tested_step, word_at, children_of, keys_of, trie_of};
ghost use Rattle.trie.specs.Tables.{trie_in};
ghost use Rattle.walk.specs.Walk.{Inside, first_step};

use trie::{Damaged, ParentRef, Tables};

// The filter of a root entry, which has no key.
const ALL_ONES: u64 = 0xFFFF_FFFF_FFFF_FFFF;

// What a new word finds.
#[derive(Clone, Copy)]
pub enum Room {
    // Every step is there; what the last one's word number says.
    Whole(Result<Option<usize>, Damaged>),
    // The slots and the nodes that the missing steps take.
    Partly(usize, usize),
}

// The node at a place.
// Kept: roots and slots apart, here and in `word_at`: neither asks that the shift goes with the slots, as `Tables` does.
pub fn node_at(roots: &[u64], slots: &[u64], place: ParentRef) -> u32
    requires { Inside (length roots.now) (length slots.now / 2) place }
    ensures { result ≡ node_at (trie_of roots.now slots.now) place }
{
    match place {
        ParentRef::Root => 0,
        ParentRef::RootEntry(i) => trie::child_of(roots[i]) % trie::NODES,
        ParentRef::Slot(i) => trie::child_of(trie::link_at(slots, i)) % trie::NODES,
    }
}

// Whether a step uses the root table: that of a first character that has an entry there.
pub fn from_root(roots: &[u64], place: ParentRef, ch: u32) -> bool
    ensures { (slots : List ℕ) → result ≡ from_root (trie_of roots.now slots) place ch }
{
    match place {
        ParentRef::Root => (ch as usize) < roots.len(),
        ParentRef::RootEntry(_) => false,
        ParentRef::Slot(_) => false,
    }
}

// The root's step: by the root table, or among the slots where the table is too short.
pub fn root_step(tables: Tables, ch: u32) -> Result<Option<ParentRef>, Damaged>
    requires { ch < 2 ^ 21 }
    ensures { result ≡ first_step (children_of tables.entry.roots.now) (keys_of tables.entry.slots.numbers.now) ch }
{
    let i = ch as usize;
    if i < tables.roots.len() {
        if trie::child_of(tables.roots[i]) == 0 {
            return Ok(None);
        }
        return Ok(Some(ParentRef::RootEntry(i)));
    }
    char_trie::slot_step(tables.slots, 0, ch)
}

// A lookup's step: it tests the bits.
pub fn tested_step(tables: Tables, place: ParentRef, ch: u32) -> Result<Option<ParentRef>, Damaged>
    requires { Inside (length tables.roots.now) (length tables.slots.numbers.now / 2) place × (ch < 2 ^ 21) }
    ensures { result ≡ tested_step (trie_in tables.entry) place ch }
{
    let slots = tables.slots;
    match place {
        ParentRef::Root => root_step(tables, ch),
        ParentRef::RootEntry(i) => {
            char_trie::step(slots, ALL_ONES, trie::child_of(tables.roots[i]), ch)
        }
        ParentRef::Slot(i) => {
            let filter = trie::key_at(slots.numbers, i);
            char_trie::step(
                slots,
                filter,
                trie::child_of(trie::link_at(slots.numbers, i)),
                ch,
            )
        }
    }
}

// An insertion's step: it tests no bits.
pub fn open_step(tables: Tables, place: ParentRef, ch: u32) -> Result<Option<ParentRef>, Damaged>
    requires { Inside (length tables.roots.now) (length tables.slots.numbers.now / 2) place × (ch < 2 ^ 21) }
    ensures { result ≡ open_step (trie_in tables.entry) place ch }
{
    if from_root(tables.roots, place, ch) {
        return root_step(tables, ch);
    }
    char_trie::slot_step(
        tables.slots,
        node_at(tables.roots, tables.slots.numbers, place),
        ch,
    )
}

// The record of the word that ends at a place.
pub fn word_at(
    roots: &[u64],
    slots: &[u64],
    used: usize,
    place: ParentRef,
) -> Result<Option<usize>, Damaged>
    requires { Inside (length roots.now) (length slots.now / 2) place }
    ensures { result ≡ word_at used (trie_of roots.now slots.now) place }
{
    match place {
        ParentRef::Root => Ok(None),
        ParentRef::RootEntry(i) => trie::word_number(roots[i], used),
        ParentRef::Slot(i) => trie::word_number(trie::link_at(slots, i), used),
    }
}
