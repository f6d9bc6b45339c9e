//! A word's insertion into the trie: `CharTrie::insert` (trie.rs).
//!
//! The Rust has one loop with a branch for each kind of step. Here the steps that are there come first, with their bits
//! (`mark`), and the new ones after them (`extend`): from a word's first absent step on every step is new. The tables are lent:
//! the root's entries and the slots, and the shift that goes with the number of slots.
//!
//! Nothing is refused here: the caller has checked the text, the slots and the node numbers before anything is written. In
//! tables that were not filled here a probe may still meet neither its key nor an empty slot; the insertion then stops.
#![tactic(auto)]

ghost use Rattle.std.specs.Prelude.{◌≡◌, ◌+◌, ◌/◌, ◌^◌, ◌<◌, pos, length, drop};
ghost use Rattle.std.proofs.Math.Option.{IsSome};
ghost use Rattle.utf8.specs.Text.{chars_of};
ghost use Rattle.trie.specs.declared.ParentRef.TheVariants.{Root};
ghost use Rattle.trie.specs.Trie as Trie;
ghost use Rattle.trie.specs.Trie.{trie_of, SlotTable};
ghost use Rattle.walk.specs.Walk.{Inside};
ghost use Rattle.insert.specs.Insert as Insert;
ghost use Rattle.insert.specs.Insert.{characters, marked, reach_of, Ready, stepped, new_step};

use trie::{Damaged, ParentRef, Slots, Tables};

// How far a word's steps are there: up to a place. The rest of the word stands from a position of its text on.
#[derive(Clone, Copy)]
pub struct Marked {
    pub place: ParentRef,
    pub at: usize,
}

// Follows the steps of a word that are there, from the root on. Each place that it steps on from gains the character's bits.
// Kept: roots, slots and shift apart, here and below: a struct of two `&mut` needs a clause more in each contract, on both's names.
fn mark(roots: &mut [u64], slots: &mut [u64], shift: u32, s: &[u8]) -> Result<Marked, Damaged>
    requires slot_table { SlotTable (length slots.old) shift }
    requires some { IsSome (chars_of s.now) }
    ensures ready { Ready (length roots.old) (length slots.old) s.now result }
    ensures slots_value { marked (reach_of s.now result) (trie_of roots.new slots.new) ≡ Insert.mark (trie_of roots.old slots.old) Root (characters s.now) }
{
    let mut place = ParentRef::Root;
    let mut at: usize = 0;
    // Kept: no `for`, here and in `extend`: the position moves by a character's width, which is read with the character.
    while at < s.len() {
        let next = utf8::next_char(s, at);
        let tables = Tables {
            roots: &*roots,
            slots: Slots {
                numbers: &*slots,
                shift,
            },
        };
        let Some(child) = walk::open_step(tables, place, next.value)? else {
            return Ok(Marked { place, at });
        };
        places::set_bits(roots, slots, place, next.value);
        place = child;
        at += next.width;
    }
    Ok(Marked { place, at })
}

// Makes a step that is not there, with this node, and says where it leads.
fn new_step(
    roots: &mut [u64],
    slots: &mut [u64],
    shift: u32,
    place: ParentRef,
    ch: u32,
    node: u32,
) -> Result<ParentRef, Damaged>
    requires slot_table { SlotTable (length slots.old) shift }
    requires inside { Inside (length roots.old) (length slots.old / 2) place }
    requires ch_bound { ch < 2 ^ 21 }
    ensures { stepped result (trie_of roots.new slots.new)
        ≡ new_step (trie_of roots.old slots.old) place ch node }
{
    if walk::from_root(roots, place, ch) {
        let i = ch as usize;
        places::new_root_entry(roots, i, node);
        return Ok(ParentRef::RootEntry(i));
    }
    let key = trie::key(walk::node_at(roots, slots, place), ch);
    let searched = Slots {
        numbers: &*slots,
        shift,
    };
    let i = char_trie::first_empty(searched, key)?;
    places::set_bits(roots, slots, place, ch);
    places::new_slot(slots, i, key, node);
    Ok(ParentRef::Slot(i))
}

// Makes the steps for the characters of a text from a position on, the first of them from a place that is there. Their nodes
// are numbered from `node` on, and the last one gets the record number.
fn extend(
    roots: &mut [u64],
    slots: &mut [u64],
    shift: u32,
    s: &[u8],
    mut at: usize,
    mut place: ParentRef,
    mut node: u32,
    number: u32,
)
    requires slot_table { SlotTable (length slots.old) shift }
    requires inside { Inside (length roots.old) (length slots.old / 2) place }
    requires some { IsSome (chars_of (drop at s.now)) }
    requires s_bound { (node + length s.now < 2 ^ 32) × (number + 1 < 2 ^ 32) }
    ensures { trie_of roots.new slots.new
        ≡ Trie.extend (trie_of roots.old slots.old) place (characters (drop at s.now)) node (pos number) }
{
    while at < s.len() {
        let next = utf8::next_char(s, at);
        let step = new_step(roots, slots, shift, place, next.value, node);
        let Ok(child) = step else {
            return;
        };
        place = child;
        at += next.width;
        node += 1;
    }
    places::set_word(roots, slots, place, number);
}

// Sets the record number of a word, making its steps as needed. New nodes are numbered from `node` on, at most one for each byte
// of the text, so that their numbers fit.
pub fn insert(roots: &mut [u64], slots: &mut [u64], shift: u32, s: &[u8], node: u32, number: u32)
    requires slot_table { SlotTable (length slots.old) shift }
    requires some { IsSome (chars_of s.now) }
    requires s_bound { (node + length s.now < 2 ^ 32) × (number + 1 < 2 ^ 32) }
    ensures { trie_of roots.new slots.new
        ≡ Trie.insert (trie_of roots.old slots.old) Root (characters s.now) node (pos number) }
{
    let Ok(marked) = mark(roots, slots, shift, s) else {
        return;
    };
    extend(
        roots,
        slots,
        shift,
        s,
        marked.at,
        marked.place,
        node,
        number,
    );
}
