//! Wrapping products and single bits: the arithmetic under the trie's hashes, keys and child pointers (trie.rs).
#![tactic(auto)]

ghost use Rattle.std.specs.Prelude.{◌≡◌, ◌*◌, ◌%◌, ◌^◌, ◌<◌};
ghost use Rattle.arith.specs.Bits.{has_bit, with_bit};

// The product modulo 2^64, for the slot hash.
// Kept: document 01 names the two helpers, of 64 and of 32 bits.
pub fn wrapping_mul_u64(a: u64, b: u64) -> u64
    ensures { result ≡ (a * b) % 2 ^ 64 }
{
    u64::wrapping_mul(a, b)
}

// The product modulo 2^32, for the child filters.
pub fn wrapping_mul_u32(a: u32, b: u32) -> u32
    ensures { result ≡ (a * b) % 2 ^ 32 }
{
    u32::wrapping_mul(a, b)
}

// Whether bit n of x is set. x is a slot's key, or a child pointer made wide.
#[tactic(auto, using(crate::proofs::SetBit::bit_tested))]
pub fn has_bit(x: u64, n: u32) -> bool
    requires { n < 64 }
    ensures { result ≡ has_bit x n }
{
    (x >> n) & 1 == 1
}

// x with bit n set.
#[tactic(auto, using(crate::proofs::SetBit::or_sets))]
pub fn set_bit(x: u64, n: u32) -> u64
    requires { n < 64 }
    ensures { result ≡ with_bit x n }
{
    x | (1 << n)
}
