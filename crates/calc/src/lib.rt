//! The best route through a block, from the right: at each position, the step that leads to the highest score.
//!
//! The Rust fills a `Vec` of `RouteEntry`. Here the route is written into slices that the caller lends, one for each field of an
//! entry. Positions are counted from the block's start.
#![tactic(auto)]

ghost use Rattle.std.specs.Prelude.{◌≡◌, [], ◌∷◌, ◌≤◌, ◌<◌, length};
ghost use Rattle.book.specs.Returns.{longest_text};
ghost use Rattle.route.specs.Route.{settled};
ghost use Rattle.route.specs.Slices.{as_best, as_choice, record_of, with_scores, EdgesFit, PlacesFit, chosen_from, ChosenOf, KeepsRoute};

use route::{Choice, RouteEntry};

// The best of the edges from one place of the edge slices up to another.
fn best_of(
    edge_ends: &[u32],
    edge_records: &[u32],
    logarithms: &[f64],
    scores: &[f64],
    log_total: f64,
    from: usize,
    to: usize,
) -> Choice
    requires { PlacesFit edge_ends.now edge_records.now (length scores.now) (length logarithms.now) from to }
    ensures result_value { as_choice result ≡ chosen_from edge_ends.now edge_records.now logarithms.now scores.now
        log_total from to }
    ensures chosen_of { ChosenOf edge_ends.now edge_records.now from to result }
{
    let mut choice = Choice::NoEdge;
    for place in from..to {
        let end = edge_ends[place];
        let record = edge_records[place];
        let logarithm = logarithms[record as usize];
        let score = scores[end as usize];
        choice = route::next_choice(choice, logarithm, log_total, score, end, record);
    }
    choice
}

// The entry of a position after the choice: the best edge, or, where no word starts, the step to the next position, of the
// given score.
fn settle(choice: Choice, log_total: f64, score: f64, next: u32) -> RouteEntry
    ensures result_value { as_best result ≡ settled log_total (with_scores (score ∷ [])) next (as_choice choice) }
    ensures record_value { result.«record» ≡ record_of choice }
{
    match choice {
        Choice::NoEdge => RouteEntry {
            score: 0.0 - log_total + score,
            end: next,
            record: route::NO_RECORD,
        },
        Choice::Best(score, end, record) => RouteEntry { score, end, record },
    }
}

// The route of a block of n characters, from the right: writes the score, the end and the record of each position up to n.
// The edges of a position i are the places `starts[i]` up to `starts[i + 1]` of the edge slices.
pub fn calc(
    starts: &[usize],
    edge_ends: &[u32],
    edge_records: &[u32],
    logarithms: &[f64],
    log_total: f64,
    n: usize,
    scores: &mut [f64],
    ends: &mut [u32],
    records: &mut [u32],
)
    requires n_le_longest_text { (n ≤ longest_text) × (n < length starts.now) × (n < length scores.old) × (n < length ends.old) × (n < length records.old) }
    requires edges_fit { EdgesFit starts.now edge_ends.now edge_records.now (length logarithms.now) n }
    ensures { KeepsRoute starts.now edge_ends.now edge_records.now logarithms.now log_total n
        scores.new ends.new records.new }
{
    scores[n] = 0.0;
    ends[n] = n as u32;
    records[n] = route::NO_RECORD;
    for i in (0..n).rev() {
        let next = i + 1;
        let choice = best_of(
            edge_ends,
            edge_records,
            logarithms,
            scores,
            log_total,
            starts[i],
            starts[next],
        );
        let entry = settle(choice, log_total, scores[next], next as u32);
        scores[i] = entry.score;
        ends[i] = entry.end;
        records[i] = entry.record;
    }
}
