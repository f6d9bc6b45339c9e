//! Logarithms looked up: those of small numbers are read from a table, and are not worked out again for every word.
//!
//! Most words of a house have frequencies of at most 1,024. A constant that is indexed where it stands is copied as a whole at each
//! use, which takes longer than to work the logarithm out. So who needs many logarithms takes the table once, and lends it.
#![tactic(auto)]

ghost use Rattle.std.specs.Prelude.{◌≡◌, true};
ghost use Rattle.score.specs.Logarithm.{log_float};
ghost use Rattle.logs.specs.Table.{is_log_table};

mod entries;

// A table of 1,024 numbers.
pub type LogTable = [u32; 1024];

// The table whose entry of n, at n - 1, is L of n.
pub fn table() -> LogTable
    ensures { is_log_table result ≡ true }
{
    entries::ENTRIES
}

// L of a frequency as a double, as `score::log`: from 1 to 1,024 it is read from the table.
#[tactic(auto, using(crate::proofs::Places::entry_as_float))]
pub fn log_by(table: &LogTable, n: u32) -> f64
    requires { is_log_table table.now ≡ true }
    ensures { result ≡ log_float n }
{
    if (1..=1024).contains(&n) {
        f64::from(table[n as usize - 1])
    } else {
        score::log(n)
    }
}
