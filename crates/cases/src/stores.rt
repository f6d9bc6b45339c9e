//! Stores into a book's areas, by which a book is made that no call builds. `NAME FROM END VALUE` stores a value into the places
//! from the first number on to below the second. The first letter tells the stores apart: `table` and `root` are the root entries'
//! children and word numbers; `keys`, `children` and `words` are the slots'. Each program names its stores into the records itself.
use crate::script;

const HALF: u64 = 0x1_0000_0000;

// ---- What a store makes of a number and a value.

fn whole(_old: u64, value: u64) -> u64 {
    value
}

// A child stands in a number's low 32 bits.
fn child(old: u64, value: u64) -> u64 {
    old / HALF * HALF + value % HALF
}

// A word number stands in the high 32 with one added. 2^32 - 1 has no room for one more, and stands for none.
fn word_number(old: u64, value: u64) -> u64 {
    (value % HALF + 1) % HALF * HALF + old % HALF
}

// ---- The stores

// The places of an area that a store changes.
fn places(command: &[u8]) -> (usize, usize) {
    (
        script::number(command, 1) as usize,
        script::number(command, 2) as usize,
    )
}

// A place is one number.
fn store_singly<F: Fn(u64, u64) -> u64>(s: &mut [u64], command: &[u8], stored: F)
    requires { F.IsAlwaysCallable stored }
{
    let (from, end) = places(command);
    let value = script::number(command, 3);
    for number in s.iter_mut().take(end).skip(from) {
        *number = stored(*number, value);
    }
}

// A place is a slot: the first of its two numbers, or the second.
fn store_in_pairs<F: Fn(u64, u64) -> u64>(
    slots: &mut [u64],
    second: usize,
    command: &[u8],
    stored: F,
)
    requires { F.IsAlwaysCallable stored }
{
    let (from, end) = places(command);
    let value = script::number(command, 3);
    for slot in slots.chunks_mut(2).take(end).skip(from) {
        if let Some(number) = slot.get_mut(second) {
            *number = stored(*number, value);
        }
    }
}

// The double of these bits. A NaN comes from a division: `from_bits` takes no bits of one.
fn double(bits: u64) -> f64 {
    if 0x7FF0_0000_0000_0000 < bits % 0x8000_0000_0000_0000 {
        return 0.0 / 0.0;
    }
    f64::from_bits(bits)
}

// The value is a double's 64 bits.
pub fn store_f64(s: &mut [f64], command: &[u8]) {
    let (from, end) = places(command);
    let value = double(script::number(command, 3));
    for number in s.iter_mut().take(end).skip(from) {
        *number = value;
    }
}

// `table` and `root`; any other command stores nothing here.
pub fn store_in_root(roots: &mut [u64], command: &[u8]) {
    match command {
        [b't', ..] => store_singly(roots, command, child),
        [b'r', ..] => store_singly(roots, command, word_number),
        _ => {}
    }
}

// `keys`, `children` and `words`; any other command stores nothing here.
pub fn store_in_slots(slots: &mut [u64], command: &[u8]) {
    match command {
        [b'k', ..] => store_in_pairs(slots, 0, command, whole),
        [b'c', ..] => store_in_pairs(slots, 1, command, child),
        [b'w', ..] => store_in_pairs(slots, 1, command, word_number),
        _ => {}
    }
}

// Whole records, with both halves.
pub fn store_records(records: &mut [u64], command: &[u8]) {
    store_singly(records, command, whole);
}
