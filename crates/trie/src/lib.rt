//! The leaves of a character-level trie for the dictionary, built for the segmenter's access pattern: from every character of
//! the input, enumerate the dictionary words that start there (trie.rs).
//!
//! Nodes are prefixes of dictionary words. The root's transitions for the first characters live in a directly indexed table.
//! Every other transition is one slot of an open-addressing hash table keyed by (parent node, character), and the slot carries
//! everything a walk needs to know about the child: its number, the record of the word that ends there, and a small Bloom-style
//! filter of the characters its own children start with. One probe per character, and no probe at all for the common case of a
//! character that is not a child.
//!
//! The tables are lent: the root's entries, one number each, and the slots, two numbers each, a key and beside it a link. They
//! need not have been filled here, so a probe that meets neither its key nor an empty slot ends after one round, and a stored
//! word number that names no record is told apart.
#![tactic(auto)]

ghost use Rattle.std.specs.Prelude.{◌≡◌, ◌+◌, ◌-◌, ◌/◌, ◌^◌, ◌<◌, pos, length, get_or, set};
ghost use Rattle.arith.specs.Bits.{with_bit};
ghost use Rattle.std.proofs.Props.{props};
ghost use Rattle.trie.specs.Trie.{slot_count_once, no_word, word_number, child_of, word_of, keys_of, links_of, key_of, log2, SlotCount, SlotTable, key_bit, child_bit};
ghost use Rattle.trie.specs.SlotCounts.{slot_count};

// A slot's key is parent × 2^21 + character + 1 in its low 48 bits, and has the first child filter in its high 16 bits.
const CHARS: u64 = 0x20_0000;

const KEY_BITS: u32 = 48;

// A child is its node's number in the low 24 bits, and has the second child filter in its high 8 bits.
const ID_BITS: u32 = 24;

// 2^24: a child's node is what is below it.
pub const NODES: u32 = 0x100_0000;

// The slots, two numbers each, and the shift that goes with how many they are.
#[derive(Clone, Copy)]
pub struct Slots<'a> {
    pub numbers: &'a [u64],
    pub shift: u32,
    ghost table: { SlotTable (length numbers.now) shift } by { Prim.hlevel (slot_count_once, props) },
}

// The tables as they are lent to what only reads them.
#[derive(Clone, Copy)]
pub struct Tables<'r, 's> {
    pub roots: &'r [u64],
    pub slots: Slots<'s>,
}

// Where a node's child pointer is stored.
#[derive(Clone, Copy)]
pub enum ParentRef {
    // The node is the root itself, which has no pointer.
    Root,
    RootEntry(usize),
    Slot(usize),
}

// The error of tables that no calls have left so: a probe without an end, or a word number that names no record.
#[derive(Clone, Copy, Debug, PartialEq, Eq)]
pub struct Damaged;

// Where a probe ends: at the key or at an empty slot.
#[derive(Clone, Copy)]
pub enum Probe {
    Found(usize),
    Empty(usize),
}

// Which bits a character sets in a node's two child filters: one of 16 in the slot's key, one of 8 in its child.
#[derive(Clone, Copy)]
pub struct FilterBits {
    pub key: u32,
    pub child: u32,
}

pub fn key(parent: u32, ch: u32) -> u64
    requires { (parent < 2 ^ 24) × (ch < 2 ^ 21) }
    ensures { result ≡ key_of parent ch }
{
    u64::from(parent) * CHARS + u64::from(ch) + 1
}

// The Rust gives the two masks. A lookup probes only where both bits are set, which rejects most characters that are not
// children without touching the hash table.
pub fn filter_bits(ch: u32) -> FilterBits
    ensures { (result.key ≡ key_bit ch) × (result.child ≡ child_bit ch) }
{
    let h = arith::wrapping_mul_u32(ch, 0x9E37_79B1);
    FilterBits {
        key: KEY_BITS + (h >> 28),
        child: ID_BITS + (h >> 25) % 8,
    }
}

// The fewest slots of a table, and the most.
const FEWEST_SLOTS: usize = 16;

pub const MOST_SLOTS: usize = 4_194_304;

// Whether a table may have n slots: a power of two from the fewest to the most.
pub fn is_slot_count(n: usize) -> bool
    ensures { result ≡ slot_count n }
{
    if n < FEWEST_SLOTS {
        return false;
    }
    if MOST_SLOTS < n {
        return false;
    }
    n == 1usize << (63 - usize::leading_zeros(n))
}

// 64 - log2 of the number of slots: a hash shifted right by it indexes the table.
pub fn shift_of(slots: usize) -> u32
    requires { SlotCount slots }
    ensures { result ≡ 64 - log2 slots }
{
    usize::leading_zeros(slots) + 1
}

// A link, which is a root entry or what a slot has beside its key, is a child in its low 32 bits, and in its high 32 the word
// number plus one. So where no word ends there is a 0, and an empty place is 0 as a whole.
const HALF: u64 = 0x1_0000_0000;

// The high half of a link at which no word ends.
const NO_WORD: u64 = 0;

// The child of a link.
pub fn child_of(link: u64) -> u32
    ensures { result ≡ child_of link }
{
    (link % HALF) as u32
}

// The record that a link's word number names, or that no word ends there, where the records from 0 on to the number used are in
// use.
pub fn word_number(link: u64, used: usize) -> Result<Option<usize>, Damaged>
    ensures { result ≡ word_number used (word_of link) }
{
    let number = link / HALF;
    if number == NO_WORD {
        return Ok(None);
    }
    let n = number as usize;
    if used < n {
        return Err(Damaged);
    }
    Ok(Some(n - 1))
}

// A link whose child has gained a bit.
pub fn with_child_bit(link: u64, bit: u32) -> u64
    requires { bit < 32 }
    ensures { (child_of result ≡ with_bit (child_of link) bit) × (word_of result ≡ word_of link) }
{
    arith::set_bit(link, bit)
}

// A link with another word number.
pub fn with_word(link: u64, number: u32) -> u64
    requires { number + 1 < 2 ^ 32 }
    ensures { (child_of result ≡ child_of link) × (word_of result ≡ pos number) }
{
    (u64::from(number) + 1) * HALF + link % HALF
}

// The link of a new node, at which no word ends.
pub fn new_link(node: u32) -> u64
    ensures { (child_of result ≡ node) × (word_of result ≡ no_word) }
{
    NO_WORD * HALF + u64::from(node)
}

// Kept: key and link by functions of their own: they are told by two definitions, so that one function would have a case for each.

// The key of slot i, with its filter: the first of the slot's two numbers.
pub fn key_at(slots: &[u64], i: usize) -> u64
    requires { i < length slots.now / 2 }
    ensures { result ≡ get_or (keys_of slots.now) i 0 }
{
    slots[2 * i]
}

// The link of slot i: the second.
pub fn link_at(slots: &[u64], i: usize) -> u64
    requires { i < length slots.now / 2 }
    ensures { result ≡ get_or (links_of slots.now) i 0 }
{
    slots[2 * i + 1]
}

// Slot i gets another key, and keeps its link.
pub fn set_key(slots: &mut [u64], i: usize, key: u64)
    requires { i < length slots.old / 2 }
    ensures { (keys_of slots.new ≡ set (keys_of slots.old) i key) × (links_of slots.new ≡ links_of slots.old) }
{
    slots[2 * i] = key;
}

// Slot i gets another link, and keeps its key.
pub fn set_link(slots: &mut [u64], i: usize, link: u64)
    requires { i < length slots.old / 2 }
    ensures { (keys_of slots.new ≡ keys_of slots.old) × (links_of slots.new ≡ set (links_of slots.old) i link) }
{
    slots[2 * i + 1] = link;
}
