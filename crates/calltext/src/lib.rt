// Lines of calls: a line of text is read as the bytes of the calls that it says.
#![tactic(auto)]

ghost use Rattle.std.specs.Prelude.{◌≡◌, ℕ, List, [], ◌∷◌, map, length, Ok, Err, IfOk, vec_items, ◌≢◌};
ghost use Rattle.weave.specs.Calls.{ties};
ghost use Rattle.encoding.specs.Calls.{call_bytes};
ghost use Rattle.encoding.specs.Kinds.{call_byte};
ghost use Rattle.tokens.specs.declared.TextError.TheVariants.{Unreadable, Memory};
ghost use Rattle.tokens.specs.Results.{UnlessMemory};
ghost use Rattle.rowtext.specs.Rows.{bad, row_of};
ghost use Rattle.calltext.specs.Lines.{unreadable, numbers, others, numbers_of, tie_each, treadle_and_shafts, says, words, spelled, word_in, line_says};
ghost use Rattle.calltext.specs.Results.{as_worded, PutNumbers, NumberCall, RowCall, AreCalls, IsLine, Returned};
ghost use Rattle.calltext.specs.Round.{LinesReadBack};

use encoding::{CallKind, u32_bytes};
use rowtext::put_row;
use std::alloc::{AllocError, Global};
use tokens::{TextError, Token, read_tokens, skip_blanks};

// The kinds of calls, of which each has a word.
const KINDS: [CallKind; 9] = [
    CallKind::Thread,
    CallKind::Treadle,
    CallKind::Tie,
    CallKind::Back,
    CallKind::Cell,
    CallKind::Part,
    CallKind::Floats,
    CallKind::Fewest,
    CallKind::Hangs,
];

// A call's line is read as just that call.
pub fn lines_read_back() -> u8
    ensures { LinesReadBack }
{
    0
}

// The word that a call of a kind begins with, as bytes, since a line may be no UTF-8.
fn spelling(kind: CallKind) -> &'static [u8]
    ensures { result.now ≡ spelled kind }
{
    match kind {
        CallKind::Thread => b"thread",
        CallKind::Treadle => b"treadle",
        CallKind::Tie => b"tie",
        CallKind::Back => b"back",
        CallKind::Cell => b"cell",
        CallKind::Part => b"part",
        CallKind::Floats => b"floats",
        CallKind::Fewest => b"fewest",
        CallKind::Hangs => b"hangs",
    }
}

// The kind of call that a text begins with the word of, and the text after the word.
fn first_word(text: &[u8]) -> Option<(CallKind, &[u8])>
    ensures { as_worded result ≡ word_in words text.now }
{
    for kind in KINDS {
        if let Some(rest) = text.strip_prefix(spelling(kind)) {
            return Some((kind, rest));
        }
    }
    None
}

// Puts the bytes of numbers behind others; tokens that are not numbers can't be read.
fn put_numbers(bytes: &mut Vec<u8>, tokens: &[Token]) -> Result<(), TextError>
    ensures { elim result [
      | Ok _ ↦ PutNumbers (numbers_of tokens.now) bytes.old.items bytes.new.items
      | Err e ↦ UnlessMemory e (numbers_of tokens.now ≡ others)
    ] }
{
    for token in tokens {
        let n = u32::try_from(*token)?;
        bytes.extend_from_slice(&u32_bytes(n))?;
    }
    Ok(())
}

// A call of a kind with so many numbers.
fn number_call(
    heap: Global,
    kind: CallKind,
    count: usize,
    tokens: &[Token],
) -> Result<Vec<Vec<u8>>, TextError>
    ensures { Returned result (λ v. NumberCall (numbers_of tokens.now) (call_byte kind) count (map vec_items v.items)) ((ns : List ℕ) → numbers_of tokens.now ≡ numbers ns → length ns ≢ count) }
{
    if tokens.len() != count {
        return Err(TextError::Unreadable);
    }
    let mut call = Vec::new(heap);
    call.push(kind as u8)?;
    put_numbers(&mut call, tokens)?;
    Ok(vec![in heap; call]?)
}

// A call of a kind with a row.
fn row_call(heap: Global, kind: CallKind, tokens: &[Token]) -> Result<Vec<Vec<u8>>, TextError>
    ensures { Returned result (λ v. RowCall (row_of tokens.now) (call_byte kind) (map vec_items v.items)) (row_of tokens.now ≡ bad) }
{
    let mut call = Vec::new(heap);
    call.push(kind as u8)?;
    put_row(&mut call, tokens)?;
    Ok(vec![in heap; call]?)
}

// A treadle tied to a shaft.
fn tie_call(heap: Global, treadle: u32, shaft: u32) -> Result<Vec<u8>, AllocError>
    ensures { IfOk result (λ v. v.items ≡ call_bytes (ties treadle shaft)) }
{
    let mut call = Vec::new(heap);
    call.push(CallKind::Tie as u8)?;
    call.extend_from_slice(&u32_bytes(treadle))?;
    call.extend_from_slice(&u32_bytes(shaft))?;
    Ok(call)
}

// A treadle tied to each of some shafts.
fn each_tie(heap: Global, treadle: u32, shafts: &[Token]) -> Result<Vec<Vec<u8>>, TextError>
    ensures { Returned result (λ v. AreCalls (tie_each treadle (numbers_of shafts.now)) (map vec_items v.items)) (tie_each treadle (numbers_of shafts.now) ≡ unreadable) }
{
    if shafts.is_empty() {
        return Err(TextError::Unreadable);
    }
    let mut calls = Vec::new(heap);
    for token in shafts {
        let shaft = u32::try_from(*token)?;
        calls.push(tie_call(heap, treadle, shaft)?)?;
    }
    Ok(calls)
}

// A treadle, a colon, and the shafts that it is tied to.
fn tie_calls(heap: Global, tokens: &[Token]) -> Result<Vec<Vec<u8>>, TextError>
    ensures { Returned result (λ v. AreCalls (treadle_and_shafts tokens.now) (map vec_items v.items)) (treadle_and_shafts tokens.now ≡ unreadable) }
{
    match tokens {
        [Token::Number(treadle), Token::Colon, shafts @ ..] => each_tie(heap, *treadle, shafts),
        _ => Err(TextError::Unreadable),
    }
}

// The calls that the word of a kind says with the tokens after it.
fn calls(heap: Global, kind: CallKind, tokens: &[Token]) -> Result<Vec<Vec<u8>>, TextError>
    ensures { Returned result (λ v. AreCalls (says kind tokens.now) (map vec_items v.items)) (says kind tokens.now ≡ unreadable) }
{
    match kind {
        CallKind::Thread | CallKind::Treadle => row_call(heap, kind, tokens),
        CallKind::Tie => tie_calls(heap, tokens),
        CallKind::Back | CallKind::Fewest | CallKind::Hangs => number_call(heap, kind, 0, tokens),
        CallKind::Floats => number_call(heap, kind, 1, tokens),
        CallKind::Cell => number_call(heap, kind, 2, tokens),
        CallKind::Part => number_call(heap, kind, 3, tokens),
    }
}

// The calls that a line says, each as its bytes, or none if it says nothing; the newline is not part of it.
pub fn read_line(heap: Global, line: &[u8]) -> Result<Option<Vec<Vec<u8>>>, TextError>
    ensures { elim result [
      | Ok said ↦ IsLine (λ v. map vec_items v.items) said (line_says line.now)
      | Err e ↦ UnlessMemory e (line_says line.now ≡ unreadable)
    ] }
{
    let text = skip_blanks(line);
    if text.is_empty() || text[0] == b'#' {
        return Ok(None);
    }
    let (kind, rest) = first_word(text).ok_or(TextError::Unreadable)?;
    let tokens = read_tokens(heap, rest)?;
    Ok(Some(calls(heap, kind, &tokens)?))
}
