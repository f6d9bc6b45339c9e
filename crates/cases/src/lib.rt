//! What the programs share that execute the library on cases: the cases of an input, the commands of a case, stores into a book's
//! areas, and the lines that are printed.
//!
//! Proved here is only that each function is safe and ends, and that what it answers lies within what it was given.
#![tactic(auto)]

pub mod areas;
pub mod output;
pub mod paragraphs;
pub mod script;
pub mod stores;
