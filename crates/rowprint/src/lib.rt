// The text of a row that is given as bytes.
#![tactic(auto)]

ghost use Rattle.std.specs.Prelude.{◌≡◌, ℕ, ◌+◌, ◌<◌, ◌≤◌, true, ◌&&◌, List, ◌++◌, length, Ok, Err, string_bytes};
ghost use Rattle.weave.specs.Rows.{Row, deep as depth};
ghost use Rattle.weave.specs.Promise.{fields_in};
ghost use Rattle.encoding.specs.Rows.{row_bytes};
ghost use Rattle.tokens.specs.declared.TextError.TheVariants.{Unreadable, Memory};
ghost use Rattle.tokens.specs.Results.{UnlessMemory};
ghost use Rattle.rowtext.specs.Rows.{grouped, is_join, row_tokens};
ghost use Rattle.rowprint.specs.Results.{items_of, joined_items, Few, Shaped, Printed, Found, IsPrinted, NoRow};

use encoding::{DEEPEST, Source, outermost};
use std::alloc::Global;
use tokens::{InARow, TextError, Token};

// How many items a join has, if it is in halves, from those of its two rows.
fn in_halves(first: Option<usize>, second: Option<usize>) -> Option<usize>
    requires { items_of first + items_of second < 9223372036854775808 }
    ensures { result ≡ joined_items first second }
{
    match (first, second) {
        (Some(a), Some(b)) if a == b || a == b + 1 => Some(a + b),
        _ => None,
    }
}

// How many items the row has that the bytes begin with, if its joins are in halves, and the bytes after it.
fn shape(row: &[u8], deep: u32) -> Option<(Option<usize>, &[u8])>
    ensures few { Few result (length row.now) }
    ensures told { (r : Row) (rest : List ℕ) → row.now ≡ row_bytes r ++ rest → fields_in r ≡ true → depth r ≤ deep → Shaped result r rest }
{
    if deep == 0 {
        return None;
    }
    let deep = deep - 1;
    match outermost(row)? {
        Source::One(_, rest) => Some((Some(1), rest)),
        Source::Run(_, _, rest) => Some((Some(1), rest)),
        Source::Times(_, row) => {
            let (_, rest) = shape(row, deep)?;
            Some((Some(1), rest))
        }
        Source::Turned(row) => {
            let (_, rest) = shape(row, deep)?;
            Some((Some(1), rest))
        }
        Source::Then(row) => {
            let (first, rest) = shape(row, deep)?;
            let (second, rest) = shape(rest, deep)?;
            Some((in_halves(first, second), rest))
        }
    }
}

// Puts the tokens of the row that the bytes begin with behind others, in parentheses if it is a join and has to be one item; and returns the bytes after it.
fn push_row<'a>(
    row: &'a [u8],
    item: bool,
    deep: u32,
    out: &mut Vec<Token>,
) -> Result<&'a [u8], TextError>
    ensures found { Found result row.now deep }
    ensures told { (r : Row) (rest : List ℕ) → row.now ≡ row_bytes r ++ rest → fields_in r ≡ true → depth r ≤ deep →
        Printed result rest out.old.items out.new.items (grouped (item && is_join r) (row_tokens r)) }
{
    if deep == 0 {
        return Err(TextError::Unreadable);
    }
    match outermost(row).ok_or(TextError::Unreadable)? {
        Source::One(n, rest) => {
            out.push(Token::Number(n))?;
            Ok(rest)
        }
        Source::Run(a, b, rest) => {
            out.push(Token::Run(a, b))?;
            Ok(rest)
        }
        Source::Times(n, row) => {
            out.push(Token::Times(n))?;
            push_row(row, true, deep - 1, out)
        }
        Source::Turned(row) => {
            out.push(Token::Turned)?;
            push_row(row, true, deep - 1, out)
        }
        Source::Then(first) => {
            let (halves, _) = shape(row, deep).ok_or(TextError::Unreadable)?;
            let uneven = halves.is_none();
            if item {
                out.push(Token::Open)?;
            }
            let second = push_row(first, uneven, deep - 1, out)?;
            let rest = push_row(second, uneven, deep - 1, out)?;
            if item {
                out.push(Token::Close)?;
            }
            Ok(rest)
        }
    }
}

// The text of a row; bytes that are no row, or one that is too deep, are refused.
pub fn print_row(heap: Global, row: &[u8]) -> Result<String, TextError>
    ensures { elim result [ Ok s ↦ IsPrinted row.now (string_bytes s) | Err e ↦ UnlessMemory e (NoRow row.now) ] }
{
    let mut tokens = Vec::new(heap);
    let rest = push_row(row, false, DEEPEST, &mut tokens)?;
    if !rest.is_empty() {
        return Err(TextError::Unreadable);
    }
    Ok(InARow(&tokens).to_string(heap)?)
}
