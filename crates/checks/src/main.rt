//! Runs what RFC 3629 and document 01 fix and no starred theorem states, and prints what the calls answer, a group of lines under
//! each heading.
//!
//! The gate compares the lines with `stdout`, which does not come from this program: models/checks.py computes it from
//! Python's codecs of UTF-8 and UTF-16, document 01's ranges and document 01's definition of L. Proved here is only that the program
//! is safe and ends.
#![tactic(auto)]

mod class_ranges;
mod dictionary_lines;
mod encodings;
mod logarithms;
mod output;
mod sweep;
mod texts;

use std::io;

fn main(rt: HostRuntime) -> io::Result<()> {
    encodings::print_group(&rt)?;
    texts::print_boundaries(&rt)?;
    texts::print_truncations(&rt)?;
    texts::print_positions(&rt)?;
    texts::print_counts(&rt)?;
    class_ranges::print_group(&rt)?;
    dictionary_lines::print_group(&rt)?;
    logarithms::print_group(&rt)
}
