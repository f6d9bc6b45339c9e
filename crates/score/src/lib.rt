//! The logarithm that scores the words of a dictionary.
//!
//! The Rust takes the platform's `ln`. Here it is L of document 01: the logarithm to the base 2, times 2^24, worked out in whole
//! numbers, and so the same on every platform. A double holds it exactly.
#![tactic(auto)]

ghost use Rattle.std.specs.Prelude.{◌≡◌, ◌<◌};
ghost use Rattle.score.specs.Scores.{minus_infinity, float_of};
ghost use Rattle.score.specs.Logarithm.{log_of, log_float};

// Minus infinity, L of 0.
pub fn minus_infinity() -> f64
    ensures { result ≡ float_of minus_infinity }
{
    f64::NEG_INFINITY
}

// The square p of a significand stands for p / 2^62, and this one for 2.
const TWO: u64 = 0x8000_0000_0000_0000;

// L of an n of at least 1, as a whole number. m / 2^31 is n less its power of two, from 1 to below 2, and p is its square, which
// has twice the logarithm: the next bit is whether p is 2^63 or more. The squares that may come next are both worked out before
// that is tested, the second modulo 2^32 so that it fits where it is not taken. The compiler then makes the test a jump, and not
// a shift by what it finds; a total's jumps are the same at every cut, so that the machine foresees them. A bit that is 1 is
// added at its place, so that for a 0 nothing is done.
pub fn log_scaled(n: u32) -> u64
    requires { 0 < n }
    ensures { result ≡ log_of n }
{
    let zeros = n.leading_zeros();
    let m = u64::from(n) << zeros;
    let mut p = m * m;
    let mut bits: u64 = 0;
    for place in (0..24u32).rev() {
        let high = p >> 32;
        let low = (p >> 31) % 0x1_0000_0000;
        let after_one = high * high;
        let after_zero = low * low;
        if p >= TWO {
            p = after_one;
            bits += 1 << place;
        } else {
            p = after_zero;
        }
    }
    u64::from(31 - zeros) * 0x100_0000 + bits
}

// L of a frequency or of a total, as the double that the scores are summed from.
pub fn log(n: u32) -> f64
    ensures { result ≡ log_float n }
{
    if n == 0 {
        return minus_infinity();
    }
    log_scaled(n) as f64
}
