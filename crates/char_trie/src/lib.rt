//! Slots by their keys: where a key's probe starts and ends, and one step of a walk, bits first. The counterparts are methods
//! of the Rust's `CharTrie`. The Rust keeps the shift beside the slots; here it is worked out once a call, from the number of
//! slots, and lent with them as `trie::Slots`.
#![tactic(auto)]

ghost use Rattle.std.specs.Prelude.{◌≡◌, ◌*◌, ◌/◌, ◌%◌, ◌^◌, ◌<◌};
ghost use Rattle.trie.specs.Trie.{key_of, keys_of, next_slot, probe_of, empty_slot, step_by_probe, step_from};

use trie::{Damaged, ParentRef, Probe, Slots};

const MULTIPLIER: u64 = 0x9E37_79B9_7F4A_7C15;

// 2^48: a key is compared by what is below it.
const KEYS: u64 = 0x1_0000_0000_0000;

// The slot that a key's probe starts from.
pub fn index(key: u64, shift: u32) -> usize
    requires { shift < 64 }
    ensures { result ≡ key * 0x9E3779B97F4A7C15 % 2 ^ 64 / 2 ^ shift }
{
    (arith::wrapping_mul_u64(key, MULTIPLIER) >> shift) as usize
}

// The slot after i, of n, wrapping.
fn next_slot(n: usize, i: usize) -> usize
    requires { i < n }
    ensures { result ≡ next_slot n i }
{
    let next = i + 1;
    if next == n { 0 } else { next }
}

// The slot that holds the (filter-free) key, or the empty slot that its probe meets first. The Rust's probe has no third end:
// its tables always have an empty slot. Whether a slot is left is asked after one was looked at, and not before the first.
pub fn probe(slots: Slots, key: u64) -> Result<Probe, Damaged>
    ensures { result ≡ probe_of (keys_of slots.entry.numbers.now) key }
{
    let numbers = slots.numbers;
    let n = numbers.len() / 2;
    let mut left = n;
    let mut i = index(key, slots.shift);
    // Kept: no `for`, which would ask before the first slot whether one is left; most probes end at the first.
    loop {
        let stored = numbers[2 * i];
        if stored % KEYS == key {
            return Ok(Probe::Found(i));
        }
        if stored == 0 {
            return Ok(Probe::Empty(i));
        }
        left -= 1;
        if left == 0 {
            return Err(Damaged);
        }
        i = next_slot(n, i);
    }
}

// The first empty slot from a key's start on: where a new step goes. It does not look for the key.
pub fn first_empty(slots: Slots, key: u64) -> Result<usize, Damaged>
    ensures { result ≡ empty_slot (keys_of slots.entry.numbers.now) key }
{
    let numbers = slots.numbers;
    let n = numbers.len() / 2;
    let mut i = index(key, slots.shift);
    for _ in 0..n {
        if numbers[2 * i] == 0 {
            return Ok(i);
        }
        i = next_slot(n, i);
    }
    Err(Damaged)
}

// The step to a child that has a slot: where the probe for its parent's node and its character ends.
pub fn slot_step(slots: Slots, node: u32, ch: u32) -> Result<Option<ParentRef>, Damaged>
    requires { (node < 2 ^ 24) × (ch < 2 ^ 21) }
    ensures { result ≡ step_by_probe (probe_of (keys_of slots.entry.numbers.now) (key_of node ch)) }
{
    match probe(slots, trie::key(node, ch))? {
        Probe::Found(i) => Ok(Some(ParentRef::Slot(i))),
        Probe::Empty(_) => Ok(None),
    }
}

// The slot of the child reached on ch from a node, whose key and child a walk has read. The filters in the spare bits of both
// reject most absent children before the probe. A root entry has no key: its filter is all ones.
pub fn step(slots: Slots, filter: u64, child: u32, ch: u32) -> Result<Option<ParentRef>, Damaged>
    requires { ch < 2 ^ 21 }
    ensures { result ≡ step_from (keys_of slots.entry.numbers.now) filter child ch }
{
    let bits = trie::filter_bits(ch);
    if !arith::has_bit(filter, bits.key) {
        return Ok(None);
    }
    if !arith::has_bit(u64::from(child), bits.child) {
        return Ok(None);
    }
    slot_step(slots, child % trie::NODES, ch)
}
