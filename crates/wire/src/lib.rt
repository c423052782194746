// Calls and answers, and how they are read from bytes and written as bytes.
#![tactic(auto)]

ghost use Rattle.std.specs.Prelude.{◌≡◌, suc, ◌+◌, ◌-◌, ◌*◌, ◌<◌, ◌≤◌, true, false, ◌∷◌, ◌++◌, length, drop, replicate, Some, None, Ok, Err};
ghost use Rattle.weave.specs.Rows.{Row};
ghost use Rattle.weave.specs.Calls.{Call as Meant, garbled, cells};
ghost use Rattle.weave.specs.Promise.{readable};
ghost use Rattle.encoding.specs.Rows.{row_in, row_read, row_of, skip_of, HoldsRow};
ghost use Rattle.encoding.specs.Calls.{call_bytes, begins, misfit, with_row, call_in, first_call, reads};
ghost use Rattle.encoding.specs.Numbers.{placed, eight, fours, numbers_in};
ghost use Rattle.encoding.specs.Kinds.{call_byte};
ghost use Rattle.encoding.specs.Answers.{bits_in, octet, known, answer_bytes, cells_read, first_answer};
ghost use Rattle.wire.specs.Calls.{call_of, Holds, bytes_of, Written, skip_from, TookNumbers, SplitRow, ReadAfter};
ghost use Rattle.wire.specs.Answers.{number_of, place_of, IsRefusal, answer_of, Answered};

use encoding::{
    AnswerKind, CELL_BYTES, CallKind, DEEPEST, MOST_CELLS, MOST_PARTS, PartKind, Source, outermost,
    take_u32, take_u64, u32_bytes, u64_bytes,
};

// How many bytes there are from the first that does not fit on, where bytes are missing.
const MISSING: usize = 0;

// What is entered and asked. A row is the bytes that it was read from.
#[derive(Clone, Copy, Debug, PartialEq)]
pub enum Call<'a> {
    Thread(&'a [u8]),
    Treadle(&'a [u8]),
    Tie { treadle: u32, shaft: u32 },
    Back,
    Cell { pick: u32, end: u32 },
    Part { pick: u32, end: u32, count: u32 },
    Floats(u32),
    Fewest,
    Hangs,
}

// So many numbers that bytes begin with, and the bytes after them; none if there are fewer.
fn take_numbers<const N: usize>(bytes: &[u8]) -> Option<([u32; N], &[u8])>
    ensures { TookNumbers N bytes.now result }
{
    let mut numbers = [0; N];
    let mut left = bytes;
    for n in numbers.iter_mut() {
        let (number, rest) = take_u32(left)?;
        *n = number;
        left = rest;
    }
    Some((numbers, left))
}

// The bytes after the row that bytes begin with, and how many more parts there may be; or how many bytes there are from the first that does not fit on.
#[tactic(auto, unfolding(encoding::specs::Rows::row_in, encoding::specs::Rows::part_in, encoding::specs::Rows::around, encoding::specs::Rows::second))]
fn skip_row<'a>(bytes: &'a [u8], deep: u32, parts: u32) -> Result<(&'a [u8], u32), usize>
    ensures { skip_from result ≡ skip_of (row_in deep parts bytes.now) }
{
    if deep == 0 || parts == 0 {
        return Err(bytes.len());
    }
    let (deep, parts) = (deep - 1, parts - 1);
    match outermost(bytes) {
        Some(Source::One(_, rest)) => Ok((rest, parts)),
        Some(Source::Run(_, _, rest)) => Ok((rest, parts)),
        Some(Source::Then(rest)) => {
            let (rest, parts) = skip_row(rest, deep, parts)?;
            skip_row(rest, deep, parts)
        }
        Some(Source::Times(_, rest)) => skip_row(rest, deep, parts),
        Some(Source::Turned(rest)) => skip_row(rest, deep, parts),
        None => match bytes {
            [kind, ..] if PartKind::try_from(*kind).is_err() => Err(bytes.len()),
            _ => Err(MISSING),
        },
    }
}

// The bytes of the row that bytes begin with, and the bytes after it; or how many bytes there are from the first that does not fit on.
#[tactic(auto, using(encoding::proofs::Calling::row_far, encoding::proofs::Calling::row_near, encoding::proofs::Calling::row_bad))]
fn split_row<'a>(bytes: &'a [u8]) -> Result<(&'a [u8], &'a [u8]), usize>
    ensures { SplitRow bytes.now result }
{
    let (rest, _) = skip_row(bytes, DEEPEST, MOST_PARTS)?;
    Ok((&bytes[..bytes.len() - rest.len()], rest))
}

// The call of a kind, of which the bytes after the kind are given, and the bytes after it; or how many bytes there are from the first that does not fit on.
#[tactic(auto, unfolding(encoding::specs::Calls::call_in))]
fn call_after<'a>(kind: CallKind, bytes: &'a [u8]) -> Result<(Call<'a>, &'a [u8]), usize>
    ensures { ReadAfter (call_in row_read (call_byte kind) bytes.now) (length bytes.now) result }
{
    match kind {
        CallKind::Thread => {
            let (row, rest) = split_row(bytes)?;
            Ok((Call::Thread(row), rest))
        }
        CallKind::Treadle => {
            let (row, rest) = split_row(bytes)?;
            Ok((Call::Treadle(row), rest))
        }
        CallKind::Tie => {
            let ([treadle, shaft], rest) = take_numbers::<2>(bytes).ok_or(MISSING)?;
            Ok((Call::Tie { treadle, shaft }, rest))
        }
        CallKind::Back => Ok((Call::Back, bytes)),
        CallKind::Cell => {
            let ([pick, end], rest) = take_numbers::<2>(bytes).ok_or(MISSING)?;
            Ok((Call::Cell { pick, end }, rest))
        }
        CallKind::Part => {
            let ([pick, end, count], rest) = take_numbers::<3>(bytes).ok_or(MISSING)?;
            Ok((Call::Part { pick, end, count }, rest))
        }
        CallKind::Floats => {
            let ([kind], rest) = take_numbers::<1>(bytes).ok_or(MISSING)?;
            Ok((Call::Floats(kind), rest))
        }
        CallKind::Fewest => Ok((Call::Fewest, bytes)),
        CallKind::Hangs => Ok((Call::Hangs, bytes)),
    }
}

// Which call bytes begin with, and the bytes after it; or the place of the first byte that does not fit.
#[tactic(auto, unfolding(encoding::specs::Calls::first_in, encoding::specs::Calls::call_in))]
pub fn first_call<'a>(bytes: &'a [u8]) -> Result<(Call<'a>, &'a [u8]), u32>
    ensures { elim result [
      | Ok v ↦ (first_call bytes.now ≡ begins (call_of v.0) v.1.now) × (readable (call_of v.0) ≡ true) × Holds v.0
      | Err p ↦ first_call bytes.now ≡ misfit p
    ] }
{
    let (kind, rest) = bytes.split_first().ok_or(0_u32)?;
    let kind = CallKind::try_from(*kind).or(Err(0_u32))?;
    match call_after(kind, rest) {
        Ok(first) => Ok(first),
        Err(left) => Err((bytes.len() - left) as u32),
    }
}

// Which call bytes are; or the place of the first byte that does not fit, or is left over.
#[tactic(auto, unfolding(encoding::specs::Calls::whole))]
pub fn read_call<'a>(bytes: &'a [u8]) -> Result<Call<'a>, u32>
    ensures { elim result [
      | Ok c ↦ (call_of c ≡ reads bytes.now) × (readable (reads bytes.now) ≡ true) × Holds c
      | Err p ↦ reads bytes.now ≡ garbled p
    ] }
{
    let (call, rest) = first_call(bytes)?;
    if !rest.is_empty() {
        return Err((bytes.len() - rest.len()) as u32);
    }
    Ok(call)
}

// Writes a kind and numbers at the front, and returns how many bytes that makes. The kind is a byte, since it is a call's or an answer's.
fn put_numbers(out: &mut [u8], kind: u8, numbers: &[u32]) -> usize
    requires { 1 + 4 * length numbers.now ≤ length out.old }
    ensures count { result ≡ 1 + 4 * length numbers.now }
    ensures bytes { out.new ≡ placed out.old 0 (kind ∷ fours numbers.now) }
{
    out[0] = kind;
    // By places: nothing is known of what a loop over `chunks_exact_mut` has written.
    for (i, n) in numbers.iter().enumerate() {
        out[1 + 4 * i..5 + 4 * i].copy_from_slice(&u32_bytes(*n));
    }
    1 + 4 * numbers.len()
}

// Writes a kind and numbers, if there is room.
#[tactic(auto, using(encoding::proofs::Bytes::call_cast, encoding::proofs::Writing::length_fours))]
fn write_numbers(out: &mut [u8], kind: CallKind, numbers: &[u32]) -> Option<usize>
    requires { length numbers.now ≤ 3 }
    ensures { Written (call_byte kind ∷ fours numbers.now) out.old out.new result }
{
    if out.len() < 1 + 4 * numbers.len() {
        return None;
    }
    Some(put_numbers(out, kind as u8, numbers))
}

// Writes a kind and the bytes of a row, if there is room.
fn write_row(out: &mut [u8], kind: CallKind, row: &[u8]) -> Option<usize>
    ensures { Written (call_byte kind ∷ row.now) out.old out.new result }
{
    if out.len() <= row.len() {
        return None;
    }
    out[0] = kind as u8;
    out[1..1 + row.len()].copy_from_slice(row);
    Some(1 + row.len())
}

// Writes a call to the front of out, and returns how many bytes it has; none, and out as it was, if there is no room.
#[tactic(auto, using(crate::proofs::Meaning::meant))]
pub fn write_call(call: &Call, out: &mut [u8]) -> Option<usize>
    ensures written { Written (bytes_of call.now) out.old out.new result }
    ensures meant { Holds call.now → bytes_of call.now ≡ call_bytes (call_of call.now) }
{
    match call {
        Call::Thread(row) => write_row(out, CallKind::Thread, row),
        Call::Treadle(row) => write_row(out, CallKind::Treadle, row),
        Call::Tie { treadle, shaft } => write_numbers(out, CallKind::Tie, &[*treadle, *shaft]),
        Call::Back => write_numbers(out, CallKind::Back, &[]),
        Call::Cell { pick, end } => write_numbers(out, CallKind::Cell, &[*pick, *end]),
        Call::Part { pick, end, count } => write_numbers(
            out,
            CallKind::Part,
            &[*pick, *end, *count],
        ),
        Call::Floats(kind) => write_numbers(out, CallKind::Floats, &[*kind]),
        Call::Fewest => write_numbers(out, CallKind::Fewest, &[]),
        Call::Hangs => write_numbers(out, CallKind::Hangs, &[]),
    }
}

// Why a call is refused.
#[derive(Clone, Copy, Debug, PartialEq)]
pub enum Refusal {
    Unreadable(u32),
    NotThere,
    LimitsOutOfRange,
    TooLittleMemory,
    NothingToUndo,
}

// What is answered. Cells and sets are bits, the first the lowest. Cells lie in a fixed array, since a desk has no heap.
#[derive(Clone, Copy, Debug, PartialEq)]
pub enum Answer {
    Refused(Refusal),
    Number(u32),
    Two(u32, u32),
    Cells { count: u32, bits: [u8; CELL_BYTES] },
    Together,
    Over { shafts: u64, treadles: u64 },
}

impl Refusal {
    // The number of a refusal, and its place. A method, and no From: `refusal.code()` says which pair of numbers it is.
    pub fn code(&self) -> (u32, u32)
        ensures { (result.0 ≡ number_of self.now) × (result.1 ≡ place_of self.now) }
    {
        match self {
            Refusal::Unreadable(place) => (1, *place),
            Refusal::NotThere => (2, 0),
            Refusal::LimitsOutOfRange => (3, 1),
            Refusal::TooLittleMemory => (3, 0),
            Refusal::NothingToUndo => (6, 0),
        }
    }
}

// A number and a place that no refusal has.
#[derive(Clone, Copy, Debug, PartialEq)]
pub struct UnknownRefusal(pub u32, pub u32);

impl TryFrom<(u32, u32)> for Refusal {
    type Error = UnknownRefusal;

    ghost try_from_gives = { IsRefusal };

    fn try_from(code: (u32, u32)) -> Result<Self, UnknownRefusal> {
        match code {
            (1, place) => Ok(Refusal::Unreadable(place)),
            (2, 0) => Ok(Refusal::NotThere),
            (3, 1) => Ok(Refusal::LimitsOutOfRange),
            (3, 0) => Ok(Refusal::TooLittleMemory),
            (6, 0) => Ok(Refusal::NothingToUndo),
            (number, place) => Err(UnknownRefusal(number, place)),
        }
    }
}

// Byte i of the first `count` bits, those behind them 0.
fn cells_byte(bits: &[u8; CELL_BYTES], count: usize, i: usize) -> u8
    requires { (8 * i < count) × (count ≤ 1024) }
    ensures { result ≡ octet (bits_in bits.now count) i }
{
    let used = count - 8 * i;
    if used < 8 {
        bits[i] % (1 << used)
    } else {
        bits[i]
    }
}

// Writes cells, and returns how many bytes that makes.
fn put_cells(out: &mut [u8; 160], count: u32, bits: &[u8; CELL_BYTES]) -> usize
    requires { count ≤ 1024 }
    ensures count { result ≡ length (answer_bytes (cells (bits_in bits.now count))) }
    ensures bytes { out.new ≡ placed out.old 0 (answer_bytes (cells (bits_in bits.now count))) }
{
    let at = put_numbers(out, AnswerKind::Cells as u8, &[count]);
    let size = (count as usize).div_ceil(8);
    for (i, byte) in out[at..at + size].iter_mut().enumerate() {
        *byte = cells_byte(bits, count as usize, i);
    }
    at + size
}

// Writes shafts and treadles, and returns how many bytes that makes.
fn put_over(out: &mut [u8; 160], shafts: u64, treadles: u64) -> usize
    ensures count { result ≡ 17 }
    ensures bytes { out.new ≡ placed out.old 0 (5 ∷ (eight shafts ++ eight treadles)) }
{
    out[0] = AnswerKind::Over as u8;
    out[1..9].copy_from_slice(&u64_bytes(shafts));
    out[9..17].copy_from_slice(&u64_bytes(treadles));
    17
}

// Writes an answer to the front of out, and returns how many bytes it has. The bytes behind it stay.
#[tactic(auto, unfolding(encoding::specs::Answers::answer_bytes))]
pub fn write_answer(answer: &Answer, out: &mut [u8; 160]) -> usize
    ensures count { result ≡ length (answer_bytes (answer_of answer.now)) }
    ensures bytes { out.new ≡ placed out.old 0 (answer_bytes (answer_of answer.now)) }
{
    match answer {
        Answer::Refused(refusal) => {
            let (number, place) = refusal.code();
            put_numbers(out, AnswerKind::Refused as u8, &[number, place])
        }
        Answer::Number(n) => put_numbers(out, AnswerKind::Number as u8, &[*n]),
        Answer::Two(m, n) => put_numbers(out, AnswerKind::Two as u8, &[*m, *n]),
        Answer::Cells { count, bits } => put_cells(out, MOST_CELLS.min(*count), bits),
        Answer::Together => put_numbers(out, AnswerKind::Together as u8, &[]),
        Answer::Over { shafts, treadles } => put_over(out, *shafts, *treadles),
    }
}

// Bytes with zeros behind them.
fn padded(bytes: &[u8]) -> [u8; CELL_BYTES]
    requires { length bytes.now ≤ 128 }
    ensures { result ≡ bytes.now ++ replicate (128 - length bytes.now) 0 }
{
    let mut all = [0; CELL_BYTES];
    all[..bytes.len()].copy_from_slice(bytes);
    all
}

// So many cells, of which the bytes are given, and the bytes after them; none if there are too many, bytes are missing, or a bit behind them is 1.
#[tactic(auto, unfolding(encoding::specs::Answers::cells_read))]
fn read_cells(count: u32, bytes: &[u8]) -> Option<(Answer, &[u8])>
    ensures { Answered (cells_read count bytes.now) result }
{
    if count > MOST_CELLS {
        return None;
    }
    let size = (count as usize).div_ceil(8);
    let (cells, rest) = bytes.split_at_checked(size)?;
    let used = count % 8;
    if used > 0 && bytes[count as usize / 8] >= 1 << used {
        return None;
    }
    let bits = padded(cells);
    Some((Answer::Cells { count, bits }, rest))
}

// Which answer bytes begin with, and the bytes after it; none if there is no such.
#[tactic(auto, unfolding(encoding::specs::Answers::first_answer, encoding::specs::Answers::answer_in))]
pub fn read_answer(bytes: &[u8]) -> Option<(Answer, &[u8])>
    ensures { Answered (first_answer bytes.now) result }
{
    let (kind, rest) = bytes.split_first()?;
    match AnswerKind::try_from(*kind).ok()? {
        AnswerKind::Refused => {
            let ([number, place], rest) = take_numbers::<2>(rest)?;
            let refusal = Refusal::try_from((number, place)).ok()?;
            Some((Answer::Refused(refusal), rest))
        }
        AnswerKind::Number => {
            let ([n], rest) = take_numbers::<1>(rest)?;
            Some((Answer::Number(n), rest))
        }
        AnswerKind::Two => {
            let ([m, n], rest) = take_numbers::<2>(rest)?;
            Some((Answer::Two(m, n), rest))
        }
        AnswerKind::Cells => {
            let ([count], rest) = take_numbers::<1>(rest)?;
            read_cells(count, rest)
        }
        AnswerKind::Together => Some((Answer::Together, rest)),
        AnswerKind::Over => {
            let (shafts, rest) = take_u64(rest)?;
            let (treadles, rest) = take_u64(rest)?;
            Some((Answer::Over { shafts, treadles }, rest))
        }
    }
}
