//! Walks along a word: the lookup of its record, and what it would take if it is new (trie.rs).
//!
//! A lookup tests the bits at each step. An insertion tests none, and is looked at here before anything is written: whether its
//! steps are all there, or how many slots and nodes the missing ones take. The Rust finds out while it inserts, and grows.
#![tactic(auto)]

ghost use Rattle.std.specs.Prelude.{◌≡◌, List, length, ℕ};
ghost use Rattle.std.proofs.Math.Option.{IsSome, some};
ghost use Rattle.trie.specs.Trie.{trie_of};
ghost use Rattle.trie.specs.Tables.{trie_in};
ghost use Rattle.trie.specs.declared.ParentRef.TheVariants.{Root};
ghost use Rattle.utf8.specs.Text.{chars_of};
ghost use Rattle.walk.specs.Walk.{BeginsWith, walk_from, got_of, new_steps, room_of};

use trie::{Damaged, ParentRef, Tables};
use walk::Room;

// Where a lookup's steps along the word s lead.
fn walk(tables: Tables, s: &[u8]) -> Result<Option<ParentRef>, Damaged>
    requires { IsSome (chars_of s.now) }
    ensures { result ≡ walk_from (trie_in tables.entry) Root (chars_of s.now) }
{
    let mut at: usize = 0;
    let mut place = ParentRef::Root;
    // Kept: no `for`, here and in `room_for`: the position moves by a character's width, which is read with the character.
    while at < s.len() {
        let next = utf8::next_char(s, at);
        let Some(child) = walk::tested_step(tables, place, next.value)? else {
            return Ok(None);
        };
        place = child;
        at += next.width;
    }
    Ok(Some(place))
}

// The record of the word s, if it is in the dictionary. Only the last place's word number is read.
pub fn get(tables: Tables, used: usize, s: &[u8]) -> Result<Option<usize>, Damaged>
    requires { IsSome (chars_of s.now) }
    ensures { result ≡ got_of used (trie_in tables.entry) (chars_of s.now) }
{
    let Some(place) = walk(tables, s)? else {
        return Ok(None);
    };
    walk::word_at(tables.roots, tables.slots.numbers, used, place)
}

// What new steps take for all characters of s, of which ch is the first, from a place that is there: a node each, and a slot
// each but for a first character that the root table serves.
fn new_steps(roots: &[u64], place: ParentRef, ch: u32, s: &[u8]) -> Room
    requires { BeginsWith ch (chars_of s.now) }
    ensures { (slots cs : List ℕ) → chars_of s.now ≡ some cs → result ≡ new_steps (trie_of roots.now slots) place cs }
{
    let Ok(nodes) = utf8::char_count(s) else {
        unreachable!()
    };
    if walk::from_root(roots, place, ch) {
        let slots = nodes - 1;
        return Room::Partly(slots, nodes);
    }
    Room::Partly(nodes, nodes)
}

// What the word s finds when it is new to the lookup: the insertion's walk, which tests no bits and writes nothing.
pub fn room_for(tables: Tables, used: usize, s: &[u8]) -> Result<Room, Damaged>
    requires { IsSome (chars_of s.now) }
    ensures { result ≡ room_of used (trie_in tables.entry) (chars_of s.now) }
{
    let mut at: usize = 0;
    let mut place = ParentRef::Root;
    while at < s.len() {
        let next = utf8::next_char(s, at);
        let Some(child) = walk::open_step(tables, place, next.value)? else {
            return Ok(new_steps(tables.roots, place, next.value, &s[at..]));
        };
        place = child;
        at += next.width;
    }
    let number = walk::word_at(tables.roots, tables.slots.numbers, used, place);
    Ok(Room::Whole(number))
}
