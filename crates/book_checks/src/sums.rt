//! The four areas as lists of numbers: a sum that tells their contents apart.

// The greatest prime below 2^32. Sums are kept below it.
const PRIME: u64 = 4_294_967_291;

fn mix(sum: u64, x: u64) -> u64 {
    (sum % PRIME * 1_000_003 + x % PRIME) % PRIME
}

// A logarithm is minus infinity, which counts as the prime less 1, or a whole number, which counts as itself.
fn whole(x: f64) -> u64 {
    if x > -1.0 {
        if x < 18446744073709551616.0 {
            return std::num::truncating_f64_to_u64(x);
        }
    }
    PRIME - 1
}

fn sum_from(start: u64, numbers: &[u64]) -> u64 {
    numbers.iter().fold(start, |sum, x| mix(sum, *x))
}

// The sum over all four areas, one after the other: a `chain` of them asks at each number in which it is.
pub fn sum_of(roots: &[u64], slots: &[u64], records: &[u64], logarithms: &[f64]) -> u64 {
    let sum = sum_from(sum_from(sum_from(1, roots), slots), records);
    logarithms.iter().fold(sum, |sum, x| mix(sum, whole(*x)))
}
