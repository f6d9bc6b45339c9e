//! Books built by calls: definitions and theorems only, no code. `specs/Claims.antt` has what is claimed of them.
#![tactic(auto)]
