//! Cuts in books built by calls: the words of a block are the ledger's, so the route is the best of all paths, of several best
//! ones a fixed one, or at a total of 0 the shortest word; and in any book the words that search takes from the walks are those that lookups find.
//! There is no code here: `specs/Claims.antt` states this of the definitions that the public contracts cite, `specs/Examples.antt` has two books that
//! are written out, and `proofs/` proves it.
#![tactic(auto)]
