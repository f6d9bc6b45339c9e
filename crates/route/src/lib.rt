//! The best route through a block: what it is, and the choice between two steps from a position.
//!
//! The Rust chooses in an `Option<RouteEntry>`; here the choice is an enum of two cases. Positions are counted from the block's
//! start.
#![tactic(auto)]

ghost use Rattle.std.specs.Prelude.{◌≡◌, ◌⊎◌};
ghost use Rattle.route.specs.Route.{step_score, chosen};
ghost use Rattle.route.specs.Slices.{as_choice};

// The chosen step from a position.
#[derive(Clone, Copy)]
pub struct RouteEntry {
    // The score from the position to the block's end.
    pub score: f64,
    // The position after the step.
    pub end: u32,
    // The chosen word's record, or `NO_RECORD` for a lone character.
    pub record: u32,
}

// While choosing: no edge yet, or the best edge with its score, end and record.
// Kept: document 01 names this enum ("Rust forms to recast") in place of `Option<RouteEntry>`.
#[derive(Clone, Copy)]
pub enum Choice {
    NoEdge,
    Best(f64, u32, u32),
}

// The record number of a step that is no word.
// Kept: it stands in a lent area of numbers, which C lends too, so that it is a number and no Option.
pub const NO_RECORD: u32 = 4_294_967_295;

// The choice after one more edge, to a position of the given score. Greater score wins, then larger end. No comparison with a
// NaN holds, so a NaN is chosen as the first edge only, and then stays.
pub fn next_choice(
    choice: Choice,
    logarithm: f64,
    log_total: f64,
    score: f64,
    end: u32,
    record: u32,
) -> Choice
    ensures result_value { as_choice result ≡ chosen (as_choice choice) (record { score = step_score logarithm log_total score; end = end }) }
    ensures fact { (result ≡ choice) ⊎ (result ≡ Choice.Best (step_score logarithm log_total score) end «record») }
{
    let new = logarithm - log_total + score;
    match choice {
        Choice::NoEdge => Choice::Best(new, end, record),
        Choice::Best(old, old_end, old_record) => {
            if old < new {
                return Choice::Best(new, end, record);
            }
            if new == old {
                if old_end < end {
                    return Choice::Best(new, end, record);
                }
                return Choice::Best(old, old_end, old_record);
            }
            Choice::Best(old, old_end, old_record)
        }
    }
}
