//! The route of a block is the best of all paths through it, exactly; of several best ones it is the one that has the larger end where
//! it parts from any other; at a total of 0 it takes the shortest words. There is no code here: `specs/Claims.antt` and `specs/Ties.antt`
//! state this of the route that the contract of `calc::calc` cites, and `proofs/` proves it.
#![tactic(auto)]
