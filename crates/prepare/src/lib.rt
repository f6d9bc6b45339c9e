//! An empty book in lent areas.
//!
//! The Rust makes its tables (`CharTrie::with_slots`) and lets them grow. Here they are lent, of sizes that the caller
//! chooses within document 01's limits, and whatever they hold is overwritten.
#![tactic(auto)]

ghost use Rattle.trie.specs.Trie.{trie_of};
ghost use Rattle.std.specs.Prelude.{◌≡◌};
ghost use Rattle.book.specs.Returns.{prepare_answer, prepare_of};
ghost use Rattle.book.specs.Numbers.{prepared_returns, prepare_returns};

use book::{Head, Refusal};

// Makes an empty book of the areas, or refuses them and leaves them as they are. An area of zeros is an empty one: a word number
// is stored with one added, so that 0 is that of no word.
pub fn prepare(
    roots: &mut [u64],
    slots: &mut [u64],
    records: &mut [u64],
    logarithms: &mut [f64],
) -> Result<Head, Refusal>
    ensures logarithms_value { prepare_answer result (trie_of roots.new slots.new) records.new logarithms.new
        ≡ prepare_of (trie_of roots.old slots.old) records.old logarithms.old }
    ensures result_value { prepared_returns result ≡ prepare_returns (trie_of roots.old slots.old) records.old logarithms.old }
{
    if !book::is_allowed(roots.len(), slots.len(), records.len(), logarithms.len()) {
        return Err(Refusal::BadAreas);
    }
    roots.fill(0);
    slots.fill(0);
    records.fill(0);
    logarithms.fill(0.0);
    Ok(Head {
        records: 0,
        slots: 0,
        next: 1,
        total: 0,
    })
}
