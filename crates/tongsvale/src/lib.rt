//! The static library: the public calls for programs in C and Rust, on numbers and slices.
//!
//! Each export but the interface's number is a thin function over the call of its name, and none asks anything of its caller but
//! what a slice is: valid for its length, aligned, and apart from every other slice that is written. A book's head crosses as a
//! slice of four numbers: records used, slots used, next node, total. `include/tongsvale.h` says what each returns.
#![tactic(auto)]

ghost use Rattle.trie.specs.Trie.{trie_of};
ghost use Rattle.std.specs.Prelude.{◌≡◌, List, ℕ, false, ◌&&◌};
ghost use Rattle.book.specs.Returns.{number_of};
ghost use Rattle.cuts.specs.Slices.{Unchanged};
ghost use Rattle.cuts.specs.Cuts.{cut_answer};
ghost use Rattle.cut_sentence.specs.Areas as CutAreas;
ghost use Rattle.cut_all.specs.Areas as CutAllAreas;
ghost use Rattle.numbers.specs.Numbers.{found_numbers, is_mode};
ghost use Rattle.tongsvale.specs.Exports.{abi, exported, prepare_export, load_export, add_export, lookup_export, bad_areas, cut_numbers};
ghost use Rattle.tongsvale.specs.Exports.{cut_export, cut_for_search_export, tokenize_export, cut_all_export, cut_begins};

use book::{LoadError, Refusal};
use cuts::CutError;

// What a load returns: its number and its line.
// Kept: these four are the C interface (`include/tongsvale.h`), numbers side by side.
#[repr(C)]
#[derive(Clone, Copy)]
pub struct TongsvaleLoaded {
    pub number: u32,
    pub line: usize,
}

// What an addition returns: its number and the frequency.
#[repr(C)]
#[derive(Clone, Copy)]
pub struct TongsvaleAdded {
    pub number: u32,
    pub frequency: u64,
}

// What a lookup returns: its number, whether the word is held (1 or 0), and its frequency.
#[repr(C)]
#[derive(Clone, Copy)]
pub struct TongsvaleFound {
    pub number: u32,
    pub held: u32,
    pub frequency: u32,
}

// What a cut returns: its number and the tokens written.
#[repr(C)]
#[derive(Clone, Copy)]
pub struct TongsvaleCut {
    pub number: u32,
    pub count: usize,
}

// What a cut answers, in numbers.
fn returned(cut: Result<usize, CutError>) -> TongsvaleCut
    ensures { (area : List ℕ) → (result.number ≡ number_of (cut_answer cut area).outcome) × (result.count ≡ (cut_answer cut area).written.count) }
{
    match cut {
        Ok(count) => TongsvaleCut { number: 0, count },
        Err(CutError { refusal, count }) => TongsvaleCut {
            number: book::number_of(Err(refusal)),
            count,
        },
    }
}

// What a cut answers that is not tried, its head or its mode being none.
fn refused() -> TongsvaleCut
    ensures { (result.number ≡ bad_areas) × (result.count ≡ 0) }
{
    TongsvaleCut {
        number: book::number_of(Err(Refusal::BadAreas)),
        count: 0,
    }
}

// The number of the interface, which the symbol bears too: a program compiled with a header of another number refers to another
// symbol and does not link. The number goes up with every change of an area, a token or a call.
#[unsafe(no_mangle)]
pub extern "C" fn tongsvale_abi_2() -> u32
    ensures { result ≡ abi }
{
    2
}

// An empty book.
#[unsafe(no_mangle)]
pub extern "C" fn tongsvale_prepare(
    head: &mut [u64],
    roots: &mut [u64],
    slots: &mut [u64],
    records: &mut [u64],
    logarithms: &mut [f64],
) -> u32
    ensures { exported result 0 head.new (trie_of roots.new slots.new) records.new logarithms.new
        ≡ prepare_export head.old (trie_of roots.old slots.old) records.old logarithms.old }
{
    if head.len() != numbers::HEAD_LENGTH {
        return book::number_of(Err(Refusal::BadAreas));
    }
    match prepare::prepare(roots, slots, records, logarithms) {
        Ok(value) => {
            numbers::write_head(head, value);
            0
        }
        Err(refusal) => book::number_of(Err(refusal)),
    }
}

// Loads a dictionary.
#[unsafe(no_mangle)]
pub extern "C" fn tongsvale_load(
    head: &mut [u64],
    roots: &mut [u64],
    slots: &mut [u64],
    records: &mut [u64],
    logarithms: &mut [f64],
    text: &[u8],
) -> TongsvaleLoaded
    ensures { exported result.number result.line head.new (trie_of roots.new slots.new) records.new logarithms.new
        ≡ load_export head.old (trie_of roots.old slots.old) records.old logarithms.old text.now }
{
    if head.len() != numbers::HEAD_LENGTH {
        return TongsvaleLoaded {
            number: book::number_of(Err(Refusal::BadAreas)),
            line: 0,
        };
    }
    let mut value = numbers::read_head(head);
    let loaded = dict::load_dict(&mut value, roots, slots, records, logarithms, text);
    numbers::write_head(head, value);
    match loaded {
        Ok(line) => TongsvaleLoaded { number: 0, line },
        Err(LoadError { refusal, line }) => TongsvaleLoaded {
            number: book::number_of(Err(refusal)),
            line,
        },
    }
}

// Adds a word with its frequency, or gives a word that is held the new frequency.
#[unsafe(no_mangle)]
pub extern "C" fn tongsvale_add(
    head: &mut [u64],
    roots: &mut [u64],
    slots: &mut [u64],
    records: &mut [u64],
    logarithms: &mut [f64],
    word: &[u8],
    frequency: u64,
) -> TongsvaleAdded
    ensures { exported result.number result.frequency head.new (trie_of roots.new slots.new) records.new logarithms.new
        ≡ add_export head.old (trie_of roots.old slots.old) records.old logarithms.old word.now frequency }
{
    if head.len() != numbers::HEAD_LENGTH {
        return TongsvaleAdded {
            number: book::number_of(Err(Refusal::BadAreas)),
            frequency: 0,
        };
    }
    let mut value = numbers::read_head(head);
    let added = addition::add_word(
        &mut value, roots, slots, records, logarithms, word, frequency,
    );
    numbers::write_head(head, value);
    match added {
        Ok(frequency) => TongsvaleAdded {
            number: 0,
            frequency,
        },
        Err(refusal) => TongsvaleAdded {
            number: book::number_of(Err(refusal)),
            frequency: 0,
        },
    }
}

// The frequency of a word.
#[unsafe(no_mangle)]
pub extern "C" fn tongsvale_lookup(
    head: &[u64],
    roots: &[u64],
    slots: &[u64],
    records: &[u64],
    logarithms: &[f64],
    word: &[u8],
) -> TongsvaleFound
    ensures { found_numbers result.number result.held result.frequency
        ≡ lookup_export head.now (trie_of roots.now slots.now) records.now logarithms.now word.now }
{
    if head.len() != numbers::HEAD_LENGTH {
        return TongsvaleFound {
            number: book::number_of(Err(Refusal::BadAreas)),
            held: 0,
            frequency: 0,
        };
    }
    let found = numbers::found_numbers(lookup::lookup(
        numbers::read_head(head),
        roots,
        slots,
        records,
        logarithms,
        word,
    ));
    TongsvaleFound {
        number: found.number,
        held: found.held,
        frequency: found.frequency,
    }
}

// Cuts a sentence into words.
#[unsafe(no_mangle)]
pub extern "C" fn tongsvale_cut(
    head: &[u64],
    roots: &[u64],
    slots: &[u64],
    records: &[u64],
    logarithms: &[f64],
    sentence: &[u8],
    chars: &mut [u32],
    offsets: &mut [u64],
    starts: &mut [usize],
    scores: &mut [f64],
    ends: &mut [u32],
    route_records: &mut [u32],
    edge_ends: &mut [u32],
    edge_records: &mut [u32],
    tokens: &mut [u32],
) -> TongsvaleCut
    ensures tokens_value { cut_numbers result.number result.count tokens.new
        ≡ cut_export head.now (trie_of roots.now slots.now) records.now logarithms.now
        (CutAreas.work_of chars.old offsets.old starts.old scores.old ends.old route_records.old) (CutAreas.room_of edge_ends.old edge_records.old) tokens.old sentence.now }
    ensures unchanged { cut_begins head.now (trie_of roots.now slots.now) records.now logarithms.now
        (CutAreas.work_of chars.old offsets.old starts.old scores.old ends.old route_records.old) tokens.old sentence.now ≡ false
        → Unchanged chars.old chars.new × Unchanged offsets.old offsets.new × Unchanged starts.old starts.new × Unchanged scores.old scores.new × Unchanged ends.old ends.new × Unchanged route_records.old route_records.new
        × Unchanged edge_ends.old edge_ends.new × Unchanged edge_records.old edge_records.new }
{
    if head.len() != numbers::HEAD_LENGTH {
        return refused();
    }
    returned(cut::cut(
        numbers::read_head(head),
        roots,
        slots,
        records,
        logarithms,
        sentence,
        chars,
        offsets,
        starts,
        scores,
        ends,
        route_records,
        edge_ends,
        edge_records,
        tokens,
    ))
}

// Cuts a sentence into words, before each of them what search finds in it.
#[unsafe(no_mangle)]
pub extern "C" fn tongsvale_cut_for_search(
    head: &[u64],
    roots: &[u64],
    slots: &[u64],
    records: &[u64],
    logarithms: &[f64],
    sentence: &[u8],
    chars: &mut [u32],
    offsets: &mut [u64],
    starts: &mut [usize],
    scores: &mut [f64],
    ends: &mut [u32],
    route_records: &mut [u32],
    edge_ends: &mut [u32],
    edge_records: &mut [u32],
    tokens: &mut [u32],
) -> TongsvaleCut
    ensures tokens_value { cut_numbers result.number result.count tokens.new
        ≡ cut_for_search_export head.now (trie_of roots.now slots.now) records.now logarithms.now
        (CutAreas.work_of chars.old offsets.old starts.old scores.old ends.old route_records.old) (CutAreas.room_of edge_ends.old edge_records.old) tokens.old sentence.now }
    ensures unchanged { cut_begins head.now (trie_of roots.now slots.now) records.now logarithms.now
        (CutAreas.work_of chars.old offsets.old starts.old scores.old ends.old route_records.old) tokens.old sentence.now ≡ false
        → Unchanged chars.old chars.new × Unchanged offsets.old offsets.new × Unchanged starts.old starts.new × Unchanged scores.old scores.new × Unchanged ends.old ends.new × Unchanged route_records.old route_records.new
        × Unchanged edge_ends.old edge_ends.new × Unchanged edge_records.old edge_records.new }
{
    if head.len() != numbers::HEAD_LENGTH {
        return refused();
    }
    returned(cut_for_search::cut_for_search(
        numbers::read_head(head),
        roots,
        slots,
        records,
        logarithms,
        sentence,
        chars,
        offsets,
        starts,
        scores,
        ends,
        route_records,
        edge_ends,
        edge_records,
        tokens,
    ))
}

// Cuts a sentence into words by a mode: 0 as `tongsvale_cut`, 1 as `tongsvale_cut_for_search`.
#[unsafe(no_mangle)]
pub extern "C" fn tongsvale_tokenize(
    head: &[u64],
    roots: &[u64],
    slots: &[u64],
    records: &[u64],
    logarithms: &[f64],
    sentence: &[u8],
    mode: u32,
    chars: &mut [u32],
    offsets: &mut [u64],
    starts: &mut [usize],
    scores: &mut [f64],
    ends: &mut [u32],
    route_records: &mut [u32],
    edge_ends: &mut [u32],
    edge_records: &mut [u32],
    tokens: &mut [u32],
) -> TongsvaleCut
    ensures tokens_value { cut_numbers result.number result.count tokens.new
        ≡ tokenize_export head.now (trie_of roots.now slots.now) records.now logarithms.now
        mode (CutAreas.work_of chars.old offsets.old starts.old scores.old ends.old route_records.old) (CutAreas.room_of edge_ends.old edge_records.old) tokens.old sentence.now }
    ensures unchanged { (is_mode mode && cut_begins head.now (trie_of roots.now slots.now) records.now logarithms.now
        (CutAreas.work_of chars.old offsets.old starts.old scores.old ends.old route_records.old) tokens.old sentence.now) ≡ false
        → Unchanged chars.old chars.new × Unchanged offsets.old offsets.new × Unchanged starts.old starts.new × Unchanged scores.old scores.new × Unchanged ends.old ends.new × Unchanged route_records.old route_records.new
        × Unchanged edge_ends.old edge_ends.new × Unchanged edge_records.old edge_records.new }
{
    if head.len() != numbers::HEAD_LENGTH {
        return refused();
    }
    if numbers::SEARCH < mode {
        return refused();
    }
    returned(tokenize::tokenize(
        numbers::read_head(head),
        roots,
        slots,
        records,
        logarithms,
        sentence,
        numbers::mode_of(mode),
        chars,
        offsets,
        starts,
        scores,
        ends,
        route_records,
        edge_ends,
        edge_records,
        tokens,
    ))
}

// Cuts a sentence into all possible words.
#[unsafe(no_mangle)]
pub extern "C" fn tongsvale_cut_all(
    head: &[u64],
    roots: &[u64],
    slots: &[u64],
    records: &[u64],
    logarithms: &[f64],
    sentence: &[u8],
    chars: &mut [u32],
    offsets: &mut [u64],
    tokens: &mut [u32],
) -> TongsvaleCut
    ensures tokens_value { cut_numbers result.number result.count tokens.new
        ≡ cut_all_export head.now (trie_of roots.now slots.now) records.now logarithms.now
        (CutAllAreas.work_of chars.old offsets.old) tokens.old sentence.now }
    ensures unchanged { cut_begins head.now (trie_of roots.now slots.now) records.now logarithms.now
        (CutAllAreas.work_of chars.old offsets.old) tokens.old sentence.now ≡ false
        → Unchanged chars.old chars.new × Unchanged offsets.old offsets.new }
{
    if head.len() != numbers::HEAD_LENGTH {
        return refused();
    }
    returned(cut_all::cut_all(
        numbers::read_head(head),
        roots,
        slots,
        records,
        logarithms,
        sentence,
        chars,
        offsets,
        tokens,
    ))
}
