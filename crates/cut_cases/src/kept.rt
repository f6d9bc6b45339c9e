//! Whether areas that held sevens still hold nothing else.

pub fn holds_only<T: PartialEq + Copy>(s: &[T], value: T) -> bool {
    s.iter().all(|x| *x == value)
}

// Of a work area and an edge area.
pub fn are_sevens(
    chars: &[u32],
    offsets: &[u64],
    starts: &[usize],
    scores: &[f64],
    ends: &[u32],
    route_records: &[u32],
    edge_ends: &[u32],
    edge_records: &[u32],
) -> bool {
    holds_only(chars, 7)
        && holds_only(offsets, 7)
        && holds_only(starts, 7)
        && holds_only(scores, 7.0)
        && holds_only(ends, 7)
        && holds_only(route_records, 7)
        && holds_only(edge_ends, 7)
        && holds_only(edge_records, 7)
}
