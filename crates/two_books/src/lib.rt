//! Demand 3: two books side by side (document 01, "Two books side by side"). There is no code here: `specs/Demand3.antt` states the
//! demand on the definitions that the public contracts cite, and `proofs/Demand3.antt` proves it.
#![tactic(auto)]
