//! The cuts of a case of `cut_checks`, each with the line that is printed of it. A library, so that these wide calls are proved by
//! themselves.
//!
//! Proved here is only that each function is safe and ends.
#![tactic(auto)]

pub mod cutting;
mod kept;
mod line;
