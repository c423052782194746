// Numbers of four and of eight bytes, low byte first, written and read; the kinds of what is written; and what its limits are.
#![tactic(auto)]

ghost use Rattle.std.specs.Prelude.{◌≡◌, ◌<◌, ◌≤◌, length, drop, Some, None};
ghost use Rattle.encoding.specs.Numbers.{four, eight, number_in, wide_in};
ghost use Rattle.encoding.specs.Laws.{CallsComeBack, AnswersComeBack, ReadAsWritten, NarrowSets, FirstMisfit};

mod kinds;
mod parts;

pub use kinds::{AnswerKind, CallKind, PartKind, UnknownKind};
pub use parts::{Source, outermost};

// How many cells an answer may have.
pub const MOST_CELLS: u32 = 1024;

// The bytes of the most cells, eight to a byte.
pub const CELL_BYTES: usize = 128;

// How deep a row may be, and how many parts it may have, to be read from bytes.
pub const DEEPEST: u32 = 255;

pub const MOST_PARTS: u32 = 1024;

// Two functions for four bytes and two for eight: a trait over both types would be longer than their six lines.

// The four bytes of a number.
pub fn u32_bytes(n: u32) -> [u8; 4]
    ensures { result ≡ four n }
{
    n.to_le_bytes()
}

// The eight bytes of a number, which is mostly a set, a bit for each of its members.
pub fn u64_bytes(set: u64) -> [u8; 8]
    ensures { result ≡ eight set }
{
    set.to_le_bytes()
}

// The number in the first four bytes, and the bytes after it; none if there are fewer.
pub fn take_u32(bytes: &[u8]) -> Option<(u32, &[u8])>
    ensures { elim result [
      | Some v ↦ (4 ≤ length bytes.now) × (v.0 ≡ number_in bytes.now) × (v.1.now ≡ drop 4 bytes.now)
      | None ↦ length bytes.now < 4
    ] }
{
    let (first, rest) = bytes.split_first_chunk::<4>()?;
    Some((u32::from_le_bytes(*first), rest))
}

// The number in the first eight bytes, and the bytes after it; none if there are fewer.
pub fn take_u64(bytes: &[u8]) -> Option<(u64, &[u8])>
    ensures { elim result [
      | Some v ↦ (8 ≤ length bytes.now) × (v.0 ≡ wide_in bytes.now) × (v.1.now ≡ drop 8 bytes.now)
      | None ↦ length bytes.now < 8
    ] }
{
    let (first, rest) = bytes.split_first_chunk::<8>()?;
    Some((u64::from_le_bytes(*first), rest))
}

// A call that is written is read back.
pub fn calls_come_back() -> u8
    ensures { CallsComeBack }
{
    0
}

// An answer that is written is read back.
pub fn answers_come_back() -> u8
    ensures { AnswersComeBack }
{
    0
}

// What is read was written.
pub fn read_as_written() -> u8
    ensures { ReadAsWritten }
{
    0
}

// Sets of fewer than 64 shafts and treadles have the bytes of sets of 64.
pub fn narrow_sets() -> u8
    ensures { NarrowSets }
{
    0
}

// The place that is told of bytes that are no call is the first that fits none.
pub fn first_misfit() -> u8
    ensures { FirstMisfit }
{
    0
}
