// A row's bytes checked, and stored as words in lent memory.
#![tactic(auto)]

ghost use Rattle.std.specs.Prelude.{◌≡◌, ℕ, ◌+◌, ◌*◌, ◌<◌, ◌≤◌, true, Some, None, List, ◌∷◌, ◌++◌, length, drop, slice_index};
ghost use Rattle.weave.specs.Rows.{Row, long, size, deep};
ghost use Rattle.weave.specs.Promise.{carried};
ghost use Rattle.encoding.specs.Rows.{row_bytes};
ghost use Rattle.encoding.specs.Kinds.{part_byte};
ghost use Rattle.rows.specs.Words.{head_word, two_numbers, row_words, row_of, Small};
ghost use Rattle.stored.specs.Sources.{Followed};
ghost use Rattle.stored.specs.Measures.{Measures, Checks};
ghost use Rattle.stored.specs.Stores.{Stores, joined as both_stored, repeated as repeat_stored, mirrored as turn_stored};

mod measured;

use encoding::{DEEPEST, PartKind, Source, outermost};
use measured::Measured;
use rows::{
    HALF, KIND_ONE, KIND_RUN, KIND_THEN, KIND_TIMES, KIND_TURNED, KINDS, MAX_DEEP, PART_WORDS,
};

// A part has the same kind in bytes and in words.
const _: () = prove!(PartKind::One as u64 == KIND_ONE);

const _: () = prove!(PartKind::Then as u64 == KIND_THEN);

const _: () = prove!(PartKind::Times as u64 == KIND_TIMES);

const _: () = prove!(PartKind::Turned as u64 == KIND_TURNED);

const _: () = prove!(PartKind::Run as u64 == KIND_RUN);

// How many parts a row has, and how many numbers it is long.
#[derive(Clone, Copy)]
pub struct Extent {
    pub parts: usize,
    pub numbers: u32,
}

// What there is to find about the row that the bytes start with, which is at most so deep, and the bytes after it; none if it may not be taken.
fn measure(bytes: &[u8], deepest: u32, limit: u32) -> Option<(Measured, &[u8])>
    requires { (r : Row) × (rest : List ℕ) × Followed r rest bytes.now × (deep r ≤ deepest) }
    ensures { (r : Row) (rest : List ℕ) → Followed r rest bytes.now → elim result [
      | Some v ↦ Measures limit r (Some v.0) × (v.1.now ≡ rest)
      | None ↦ Measures limit r None
    ] }
{
    let deepest = deepest - 1;
    match outermost(bytes).unwrap() {
        Source::One(n, rest) => Some((Measured::of_run(n, n, limit)?, rest)),
        Source::Then(inner) => {
            let (first, behind) = measure(inner, deepest, limit)?;
            let (second, rest) = measure(behind, deepest, limit)?;
            Some((first.joined(second)?, rest))
        }
        Source::Times(n, inner) => {
            let (within, rest) = measure(inner, deepest, limit)?;
            Some((within.repeated(n)?, rest))
        }
        Source::Turned(inner) => {
            let (within, rest) = measure(inner, deepest, limit)?;
            Some((within.turned()?, rest))
        }
        Source::Run(a, b, rest) => Some((Measured::of_run(a, b, limit)?, rest)),
    }
}

// Whether a row may be taken, of which these are the bytes: all its numbers are below the limit, none is repeated no times, and it is neither too large nor too deep nor too long. Then how large and how long it is.
pub fn check_row(bytes: &[u8], limit: u32) -> Option<Extent>
    requires { (r : Row) × (bytes.now ≡ row_bytes r) × (carried r ≡ true) }
    ensures { (r : Row) → bytes.now ≡ row_bytes r → carried r ≡ true → Checks limit r result }
{
    let (row, _) = measure(bytes, DEEPEST, limit)?;
    Some(Extent {
        parts: row.parts,
        numbers: row.numbers as u32,
    })
}

// Writes the two words of a part: its kind, how many parts the first of two rows in it has, how long it is, and its numbers.
fn put_part(words: &mut [u64], kind: PartKind, left: usize, long: u32, numbers: [u32; 2])
    requires { (2 ≤ length words.old) × (left ≤ 256) }
    ensures { words.new ≡ head_word (part_byte kind) left long ∷ (two_numbers (slice_index numbers 0) (slice_index numbers 1) ∷ drop 2 words.old) }
{
    words[0] = kind as u64 + KINDS * left as u64 + HALF * u64::from(long);
    words[1] = u64::from(numbers[0]) + HALF * u64::from(numbers[1]);
}

impl Extent {
    // Writes the part of this row and then another, whose words stand behind it already.
    fn put_then(self, next: Extent, words: &mut [u64]) -> Extent
        requires { (2 ≤ length words.old) × ((self.parts + next.parts < 256) × (self.numbers + next.numbers ≤ 16777216)) }
        ensures extent { result ≡ both_stored self next }
        ensures words { words.new ≡ head_word 1 self.parts (self.numbers + next.numbers) ∷ (0 ∷ drop 2 words.old) }
    {
        let both = Extent {
            parts: 1 + self.parts + next.parts,
            numbers: self.numbers + next.numbers,
        };
        put_part(words, PartKind::Then, self.parts, both.numbers, [0, 0]);
        both
    }

    // Writes the part of this row so many times, whose words stand behind it already.
    fn put_times(self, n: u32, words: &mut [u64]) -> Extent
        requires { (2 ≤ length words.old) × ((self.parts < 256) × (n * self.numbers ≤ 16777216)) }
        ensures extent { result ≡ repeat_stored n self }
        ensures words { words.new ≡ head_word 2 0 (n * self.numbers) ∷ (two_numbers n 0 ∷ drop 2 words.old) }
    {
        let times = Extent {
            parts: 1 + self.parts,
            numbers: n * self.numbers,
        };
        put_part(words, PartKind::Times, 0, times.numbers, [n, 0]);
        times
    }

    // Writes the part of this row from its end, whose words stand behind it already.
    fn put_turned(self, words: &mut [u64]) -> Extent
        requires { (2 ≤ length words.old) × (self.parts < 256) }
        ensures extent { result ≡ turn_stored self }
        ensures words { words.new ≡ head_word 3 0 self.numbers ∷ (0 ∷ drop 2 words.old) }
    {
        put_part(words, PartKind::Turned, 0, self.numbers, [0, 0]);
        Extent {
            parts: 1 + self.parts,
            numbers: self.numbers,
        }
    }
}

// Writes the row that the bytes start with, which is at most so deep, into the front of the words; and the bytes after it.
#[tactic(auto, using(rows::proofs::Parts::size_some, rows::proofs::Parts::deep_some))]
fn store<'a>(bytes: &'a [u8], deepest: u32, words: &mut [u64]) -> (Extent, &'a [u8])
    requires { (r : Row) × (rest : List ℕ) × Followed r rest bytes.now × Small r × (deep r ≤ deepest) × (2 * size r ≤ length words.old) }
    ensures { (r : Row) (rest : List ℕ) → Followed r rest bytes.now → Stores r result.0 words.old words.new × (result.1.now ≡ rest) }
{
    let deepest = deepest - 1;
    match outermost(bytes).unwrap() {
        Source::One(n, rest) => {
            put_part(words, PartKind::One, 0, 1, [n, 0]);
            (
                Extent {
                    parts: 1,
                    numbers: 1,
                },
                rest,
            )
        }
        Source::Then(inner) => {
            let room = &mut words[PART_WORDS..];
            let (first, behind) = store(inner, deepest, room);
            let used = PART_WORDS * first.parts;
            let (second, rest) = store(behind, deepest, &mut room[used..]);
            (first.put_then(second, words), rest)
        }
        Source::Times(n, inner) => {
            let (within, rest) = store(inner, deepest, &mut words[PART_WORDS..]);
            (within.put_times(n, words), rest)
        }
        Source::Turned(inner) => {
            let (within, rest) = store(inner, deepest, &mut words[PART_WORDS..]);
            (within.put_turned(words), rest)
        }
        Source::Run(a, b, rest) => {
            let numbers = a.abs_diff(b) + 1;
            put_part(words, PartKind::Run, 0, numbers, [a, b]);
            (Extent { parts: 1, numbers }, rest)
        }
    }
}

// Writes the row of which these are the bytes into the front of the words, and leaves those behind it as they are. How long it is.
pub fn store_row(bytes: &[u8], words: &mut [u64]) -> u32
    requires { (r : Row) × (bytes.now ≡ row_bytes r) × Small r × (2 * size r ≤ length words.old) }
    ensures long { (r : Row) → bytes.now ≡ row_bytes r → Small r → result ≡ long r }
    ensures words { (r : Row) → bytes.now ≡ row_bytes r → Small r → words.new ≡ row_words r ++ drop (2 * size r) words.old }
    ensures told { (r : Row) → bytes.now ≡ row_bytes r → Small r → row_of 32 words.new ≡ r }
{
    let (row, _) = store(bytes, MAX_DEEP, words);
    row.numbers
}
