// Rows as text: a text is read as the bytes of the row that it is.
#![tactic(auto)]

ghost use Rattle.std.specs.Prelude.{◌≡◌, ◌+◌, ◌-◌, ◌<◌, [], ◌∷◌, ◌++◌, if◌then◌else◌, Ok, Err, OnOk, nat_lt};
ghost use Rattle.encoding.specs.Numbers.{four};
ghost use Rattle.encoding.specs.Kinds.{part_byte};
ghost use Rattle.tokens.specs.declared.TextError.TheVariants.{Unreadable, Memory};
ghost use Rattle.tokens.specs.Results.{UnlessMemory};
ghost use Rattle.rowtext.specs.Rows.{outside, count, bad, row_in, row_of};
ghost use Rattle.rowtext.specs.Round.{ReadsBack, ListsAreShallow, text_row};
ghost use Rattle.rowtext.specs.Results.{Put, Told};

use encoding::{DEEPEST, PartKind, u32_bytes};
use std::alloc::{AllocError, Global};
use tokens::{TextError, Token, read_tokens};

// A row that is printed and read back is the same, part by part.
pub fn rows_read_back() -> u8
    ensures { ReadsBack }
{
    0
}

// Long lists of numbers are read, and are not deep.
pub fn lists_are_shallow() -> u8
    ensures { ListsAreShallow }
{
    0
}

// One item more, unless it is inside of parentheses.
fn one_more(items: usize, inside: usize) -> usize
    requires { items < 9223372036854775808 }
    ensures { result ≡ items + outside inside 1 }
{
    if inside == 0 { items + 1 } else { items }
}

// How many items there are up to the end, or to the parenthesis that closes.
fn count_items(tokens: &[Token]) -> usize
    ensures { result ≡ count 0 tokens.now }
{
    let mut items: usize = 0;
    let mut inside: usize = 0;
    for token in tokens {
        match token {
            Token::Number(_) | Token::Run(_, _) => items = one_more(items, inside),
            Token::Times(_) | Token::Turned | Token::Colon => {}
            Token::Open => {
                items = one_more(items, inside);
                inside += 1;
            }
            Token::Close => {
                if inside == 0 {
                    return items;
                }
                inside -= 1;
            }
        }
    }
    items
}

// Puts a kind and a number behind the bytes that there are.
fn put_part(bytes: &mut Vec<u8>, kind: PartKind, n: u32) -> Result<(), AllocError>
    ensures { OnOk result (bytes.new.items ≡ bytes.old.items ++ (part_byte kind ∷ four n)) }
{
    bytes.push(kind as u8)?;
    bytes.extend_from_slice(&u32_bytes(n))
}

// How deep n items in parentheses may be, where a row may be so deep: several are a join, which counts itself.
fn depth_inside(deep: u32, n: usize) -> u32
    requires { 0 < deep }
    ensures { result ≡ (if nat_lt 1 n then deep else deep - 1) }
{
    if n > 1 { deep } else { deep - 1 }
}

// Reads a row of n items, puts its bytes behind those that there are, and returns the tokens after it.
fn row<'a>(
    tokens: &'a [Token],
    n: usize,
    deep: u32,
    bytes: &mut Vec<u8>,
) -> Result<&'a [Token], TextError>
    ensures { Told result (row_in deep n tokens.now) bytes.old.items bytes.new.items }
{
    if deep == 0 {
        return Err(TextError::Unreadable);
    }
    if n == 0 {
        return Err(TextError::Unreadable);
    }
    if n > 1 {
        bytes.push(PartKind::Then as u8)?;
        let rest = row(tokens, n - n / 2, deep - 1, bytes)?;
        return row(rest, n / 2, deep - 1, bytes);
    }
    let [token, rest @ ..] = tokens else {
        return Err(TextError::Unreadable);
    };
    match *token {
        Token::Number(n) => {
            put_part(bytes, PartKind::One, n)?;
            Ok(rest)
        }
        Token::Run(a, b) => {
            put_part(bytes, PartKind::Run, a)?;
            bytes.extend_from_slice(&u32_bytes(b))?;
            Ok(rest)
        }
        Token::Times(n) => {
            put_part(bytes, PartKind::Times, n)?;
            row(rest, 1, deep - 1, bytes)
        }
        Token::Turned => {
            bytes.push(PartKind::Turned as u8)?;
            row(rest, 1, deep - 1, bytes)
        }
        Token::Open => {
            let n = count_items(rest);
            match row(rest, n, depth_inside(deep, n), bytes)? {
                [Token::Close, rest @ ..] => Ok(rest),
                _ => Err(TextError::Unreadable),
            }
        }
        Token::Close | Token::Colon => Err(TextError::Unreadable),
    }
}

// Puts the bytes of the row that tokens are behind those that there are.
pub fn put_row(bytes: &mut Vec<u8>, tokens: &[Token]) -> Result<(), TextError>
    ensures { elim result [
      | Ok _ ↦ Put (row_of tokens.now) bytes.old.items bytes.new.items []
      | Err e ↦ UnlessMemory e (row_of tokens.now ≡ bad)
    ] }
{
    let rest = row(tokens, count_items(tokens), DEEPEST, bytes)?;
    if rest.is_empty() {
        Ok(())
    } else {
        Err(TextError::Unreadable)
    }
}

// The row that a text is, as bytes.
pub fn read_row(heap: Global, text: &[u8]) -> Result<Vec<u8>, TextError>
    ensures { elim result [
      | Ok v ↦ Put (text_row text.now) [] v.items []
      | Err e ↦ UnlessMemory e (text_row text.now ≡ bad)
    ] }
{
    let tokens = read_tokens(heap, text)?;
    let mut bytes = Vec::new(heap);
    put_row(&mut bytes, &tokens)?;
    Ok(bytes)
}
