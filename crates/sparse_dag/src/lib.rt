//! A block's edges: the words of the dictionary that start at each of its positions (sparse_dag.rs, and trie.rs's
//! `for_each_prefix_at_every_char`).
//!
//! The Rust's `StaticSparseDAG` grows an array of edges and an array of offsets into it. Here both are lent: the edges' ends and
//! records in two slices, position after position, and for each position the place of its first edge, with one more at the
//! block's end.
#![tactic(auto)]

ghost use Rattle.std.specs.Prelude.{◌≡◌, ◌≤◌, ◌<◌, length, take};
ghost use Rattle.trie.specs.Tables.{trie_in};
ghost use Rattle.book.specs.Returns.{Book, longest_text, most_records};
ghost use Rattle.cuts.specs.Slices.{Characters};
ghost use Rattle.prefixes.specs.Edges.{WalkedBlock};

use prefixes::PrefixError;
use trie::Tables;

// The words that start at each position of a block of n characters. The edges of a position i are the places `starts[i]` up to
// `starts[i + 1]` of the edge slices, of which the room's places may be taken. It answers how many are.
pub fn for_each_prefix_at_every_char(
    tables: Tables,
    used: usize,
    chars: &[u32],
    n: usize,
    starts: &mut [usize],
    edge_ends: &mut [u32],
    edge_records: &mut [u32],
    room: usize,
) -> Result<usize, PrefixError>
    requires n_in_bounds { (n ≤ length chars.now) × (n ≤ longest_text) × (n < length starts.old) × Characters n chars.now }
    requires room_in_bounds { (room ≤ length edge_ends.old) × (room ≤ length edge_records.old) × (used ≤ most_records) }
    ensures { (b : Book) → b.trie ≡ trie_in tables.entry → b.head.records ≡ used → used ≤ length b.logarithms
        → WalkedBlock b n room (take n chars.now) starts.new edge_ends.new edge_records.new result }
{
    starts[0] = 0;
    let mut count: usize = 0;
    for at in 0..n {
        count = prefixes::prefixes_at(
            tables,
            used,
            chars,
            n,
            at,
            edge_ends,
            edge_records,
            room,
            count,
        )?;
        starts[at + 1] = count;
    }
    Ok(count)
}
