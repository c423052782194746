// Rows of numbers, written shortly, in lent words: how long a row is, its outermost part, the number at a place, and the numbers from a place on.
#![tactic(auto)]

ghost use Rattle.weave.specs.Promise.{AsLong, AtPlace};
ghost use Rattle.rows.specs.Words.{ToldByWords};

mod lent_row;
mod numbers;

pub use lent_row::{LentRow, Part};

// A word has two halves, and each number of a row and how long it is fit one.
pub const HALF: u64 = 4_294_967_296;

// The low half of a part's first word is its kind and so many times how many parts its first row has.
pub const KINDS: u64 = 8;

// The kinds, as numbers, since lent memory has words: `LentRow::outermost` makes a `Part` of them.
pub const KIND_ONE: u64 = 0;

pub const KIND_THEN: u64 = 1;

pub const KIND_TIMES: u64 = 2;

pub const KIND_TURNED: u64 = 3;

pub const KIND_RUN: u64 = 4;

// Each part has so many words.
pub const PART_WORDS: usize = 2;

// A row has at most so many parts,
pub const MAX_PARTS: usize = 256;

// is at most so deep,
pub const MAX_DEEP: u32 = 32;

// and at most so long.
pub const MAX_LONG: u64 = 16_777_216;

// A row is as long as all its numbers; a number found by going down is the one that is written at its place; words tell their row.
pub fn rows_stand() -> u8
    ensures long { AsLong }
    ensures place { AtPlace }
    ensures told { ToldByWords }
{
    0
}
