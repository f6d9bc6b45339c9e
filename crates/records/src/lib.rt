//! Records: whether one is left, which one a new word takes, and what is written to it.
#![tactic(auto)]

ghost use Rattle.std.specs.Prelude.{◌≡◌, length, set};
ghost use Rattle.book.specs.Enter.{no_record, next_record};
ghost use Rattle.records.specs.Places.{RecordInside};

use book::Head;

// Whether every record is taken, of so many.
pub fn no_record(head: Head, records: usize) -> bool
    ensures { result ≡ no_record head records }
{
    records as u64 <= head.records
}

// The record that a new word takes.
pub fn next_record(head: Head) -> u64
    ensures { result ≡ next_record head }
{
    head.records
}

// A record's cell, and the logarithm of its frequency.
pub fn set_record(records: &mut [u64], logarithms: &mut [f64], n: usize, cell: u64, logarithm: f64)
    requires { RecordInside (length records.old) (length logarithms.old) n }
    ensures { (records.new ≡ set records.old n cell) × (logarithms.new ≡ set logarithms.old n logarithm) }
{
    records[n] = cell;
    logarithms[n] = logarithm;
}
