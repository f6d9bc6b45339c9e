//! What crosses to programs in C and Rust as numbers: a book's head, in a slice of four, what a lookup found, and the mode of a cut.
#![tactic(auto)]

ghost use Rattle.std.specs.Prelude.{◌≡◌, length};
ghost use Rattle.book.specs.Numbers.{found_returns};
ghost use Rattle.numbers.specs.Numbers.{head_length, head_of, head_numbers, found_as, mode_of};

use book::{Head, Refusal};
use cuts::TokenizeMode;

// The numbers of a head.
pub const HEAD_LENGTH: usize = 4;

// The mode of `cut_for_search`; that of `cut` is 0, and there is no other.
pub const SEARCH: u32 = 1;

// What a lookup found: document 01's number, whether the word is held (1 or 0), and its frequency.
// Kept: it crosses to C, which has no Option.
#[derive(Clone, Copy)]
pub struct FoundNumbers {
    pub number: u32,
    pub held: u32,
    pub frequency: u32,
}

// The head in a slice.
pub fn read_head(head: &[u64]) -> Head
    requires { length head.now ≡ head_length }
    ensures { result ≡ head_of head.now }
{
    Head {
        records: head[0],
        slots: head[1],
        next: head[2],
        total: head[3],
    }
}

// A head into a slice.
pub fn write_head(head: &mut [u64], value: Head)
    requires { length head.old ≡ head_length }
    ensures { head.new ≡ head_numbers value }
{
    head[0] = value.records;
    head[1] = value.slots;
    head[2] = value.next;
    head[3] = value.total;
}

// What a lookup found, in numbers.
pub fn found_numbers(found: Result<Option<u32>, Refusal>) -> FoundNumbers
    ensures { result ≡ found_as (found_returns found) }
{
    match found {
        Ok(Some(frequency)) => FoundNumbers {
            number: 0,
            held: 1,
            frequency,
        },
        Ok(None) => FoundNumbers {
            number: 0,
            held: 0,
            frequency: 0,
        },
        Err(refusal) => FoundNumbers {
            number: book::number_of(Err(refusal)),
            held: 0,
            frequency: 0,
        },
    }
}

// The mode of a number.
// Kept: a total function and no `TryFrom`, since the exports refuse what is no mode before (`is_mode`), with the areas as they are.
pub fn mode_of(mode: u32) -> TokenizeMode
    ensures { result ≡ mode_of mode }
{
    if mode == SEARCH {
        return TokenizeMode::Search;
    }
    TokenizeMode::Default
}
