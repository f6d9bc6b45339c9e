//! What an insertion writes at one place of the trie (trie.rs, `insert`): filter bits, a word's number, a new root entry, a new slot.
//!
//! A function takes only the tables that it touches, and what it ensures of the trie holds whatever the others contain.
#![tactic(auto)]

ghost use Rattle.std.specs.Prelude.{◌≡◌, List, ℕ, ◌+◌, ◌/◌, ◌^◌, ◌<◌, pos, length};
ghost use Rattle.trie.specs.Trie.{trie_of, with_bits, with_word, new_root_entry, new_slot};
ghost use Rattle.walk.specs.Walk.{Inside};

use trie::ParentRef;

// A place gains a character's filter bits: a slot both, a root entry the child's, the root neither.
pub fn set_bits(roots: &mut [u64], slots: &mut [u64], place: ParentRef, ch: u32)
    requires { Inside (length roots.old) (length slots.old / 2) place }
    ensures { trie_of roots.new slots.new ≡ with_bits (trie_of roots.old slots.old) place ch }
{
    let bits = trie::filter_bits(ch);
    match place {
        ParentRef::Root => {}
        ParentRef::RootEntry(i) => {
            roots[i] = trie::with_child_bit(roots[i], bits.child);
        }
        ParentRef::Slot(i) => {
            let key = arith::set_bit(trie::key_at(slots, i), bits.key);
            let link = trie::with_child_bit(trie::link_at(slots, i), bits.child);
            trie::set_key(slots, i, key);
            trie::set_link(slots, i, link);
        }
    }
}

// The word that ends at a place has this record.
pub fn set_word(roots: &mut [u64], slots: &mut [u64], place: ParentRef, number: u32)
    requires inside { Inside (length roots.old) (length slots.old / 2) place }
    requires number_bound { number + 1 < 2 ^ 32 }
    ensures { trie_of roots.new slots.new ≡ with_word (trie_of roots.old slots.old) place (pos number) }
{
    match place {
        ParentRef::Root => {}
        ParentRef::RootEntry(i) => {
            roots[i] = trie::with_word(roots[i], number);
        }
        ParentRef::Slot(i) => {
            let link = trie::with_word(trie::link_at(slots, i), number);
            trie::set_link(slots, i, link);
        }
    }
}

// A root entry for a first character that has none.
pub fn new_root_entry(roots: &mut [u64], ch: usize, node: u32)
    requires { ch < length roots.old }
    ensures { (slots : List ℕ) → trie_of roots.new slots ≡ new_root_entry (trie_of roots.old slots) ch node }
{
    roots[ch] = trie::new_link(node);
}

// A slot for a step that has none.
pub fn new_slot(slots: &mut [u64], i: usize, key: u64, node: u32)
    requires { i < length slots.old / 2 }
    ensures { (roots : List ℕ) → trie_of roots slots.new ≡ new_slot (trie_of roots slots.old) i key node }
{
    trie::set_key(slots, i, key);
    trie::set_link(slots, i, trie::new_link(node));
}
