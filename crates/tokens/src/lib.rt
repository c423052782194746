// Text as tokens: a text is cut into tokens, and tokens are printed.
#![tactic(auto)]

ghost use Rattle.std.specs.Prelude.{◌≡◌, ℕ, ◌≤◌, Bool, length, Some, None, Ok, Err};
ghost use Rattle.std.specs.Char.{is_ascii_digit};
ghost use Rattle.std.specs.List.{prefix_len};
ghost use Rattle.tokens.specs.declared.Token.TheVariants.{Open};
ghost use Rattle.tokens.specs.declared.TextError.TheVariants.{Unreadable, Memory};
ghost use Rattle.tokens.specs.Results.{UnlessMemory, IsNumber, as_numbered, as_taken};
ghost use Rattle.tokens.specs.Tokens.{token_text, gap, tokens_text, is_blank, past_blanks, numbered, digits_in, numeral_in, after_number, token_in, cut, uncut, tokens_of};

use std::alloc::{AllocError, AllocFailed, Global};
use std::fmt;

// Why a text was not made of something, or something not of a text: it can't be read, or there was no memory.
#[derive(Clone, Copy, Debug, PartialEq)]
pub enum TextError {
    Unreadable,
    Memory,
}

impl From<AllocError> for TextError {
    ghost from_gives = { λ _ e. e ≡ Memory };

    fn from(_e: AllocError) -> TextError {
        TextError::Memory
    }
}

impl<T: Drop> From<AllocFailed<T>> for TextError {
    ghost from_gives = { λ _ e. e ≡ Memory };

    fn from(_e: AllocFailed<T>) -> TextError {
        TextError::Memory
    }
}

// A number; a run from one number to another; so many times what follows; what follows turned; parentheses; a colon.
#[derive(Clone, Copy, Debug, PartialEq)]
pub enum Token {
    Number(u32),
    Run(u32, u32),
    Times(u32),
    Turned,
    Open,
    Close,
    Colon,
}

// The number that a token is; what is no number can't be read as one.
impl TryFrom<Token> for u32 {
    type Error = TextError;

    ghost try_from_gives = { IsNumber };

    fn try_from(token: Token) -> Result<u32, TextError> {
        match token {
            Token::Number(n) => Ok(n),
            _ => Err(TextError::Unreadable),
        }
    }
}

impl fmt::Display for Token {
    ghost output = { λ t. Some (token_text t) };

    fn fmt<W: fmt::Write>(&self, f: &mut fmt::Formatter<W>) -> fmt::Result {
        match self {
            Token::Number(n) => write!(f, "{n}"),
            Token::Run(a, b) => write!(f, "{a}-{b}"),
            Token::Times(n) => write!(f, "{n} x"),
            Token::Turned => write!(f, "~"),
            Token::Open => write!(f, "("),
            Token::Close => write!(f, ")"),
            Token::Colon => write!(f, ":"),
        }
    }
}

// What stands between two tokens: a blank, or nothing.
fn between(before: Token, after: Token) -> &'static str
    ensures { result.now ≡ gap before after }
{
    match (before, after) {
        (Token::Turned | Token::Open, _) => "",
        (_, Token::Close | Token::Colon) => "",
        _ => " ",
    }
}

// Tokens one after the other, to be printed.
#[derive(Clone, Copy)]
pub struct InARow<'a>(pub &'a [Token]);

impl fmt::Display for InARow<'_> {
    ghost output = { λ r. Some (tokens_text r.0.now) };

    fn fmt<W: fmt::Write>(&self, f: &mut fmt::Formatter<W>) -> fmt::Result {
        let mut before = Token::Open;
        for token in self.0 {
            let gap = between(before, *token);
            write!(f, "{gap}{token}")?;
            before = *token;
        }
        Ok(())
    }
}

fn blank(c: u8) -> bool
    ensures { result ≡ is_blank c }
{
    c == b' ' || c == b'\t' || c == b'\r'
}

// How many bytes that pass a test a text begins with.
fn count_front<F: Fn(u8) -> bool>(text: &[u8], passes: F) -> usize
    requires { F.IsAlwaysCallable passes }
    ensures all { (p : ℕ → Bool) → ((c : ℕ) (b : Bool) → F.post passes c b → b ≡ p c) → result ≡ prefix_len p text.now }
    ensures few { result ≤ length text.now }
{
    text.iter().take_while(|c| passes(**c)).count()
}

// The text after the blanks at its front.
pub fn skip_blanks(text: &[u8]) -> &[u8]
    ensures { result.now ≡ past_blanks text.now }
{
    &text[count_front(text, blank)..]
}

// The number that the digits at the front are, and the text after it; none if it is above 4,294,967,295. The digits behind are not looked at then, however many there are.
fn digits(text: &[u8]) -> Option<(u32, &[u8])>
    ensures { as_numbered result ≡ digits_in 0 text.now }
{
    let mut n: u64 = 0;
    let mut left = text;
    while let [c, rest @ ..] = left {
        if !c.is_ascii_digit() {
            break;
        }
        n = n * 10 + u64::from(*c - b'0');
        if n > u64::from(u32::MAX) {
            return None;
        }
        left = rest;
    }
    Some((n as u32, left))
}

// The number at the front, and the text after it; none if there is no digit, or the number is above 4,294,967,295.
fn numeral(text: &[u8]) -> Option<(u32, &[u8])>
    ensures { as_numbered result ≡ numeral_in text.now }
{
    match text {
        [c, ..] if c.is_ascii_digit() => digits(text),
        _ => None,
    }
}

// The token that begins with a number n, and the text after it.
fn after_number(n: u32, text: &[u8]) -> Option<(Token, &[u8])>
    ensures { as_taken result ≡ after_number (numbered n text.now) }
{
    if let [b'-', rest @ ..] = text {
        let (m, rest) = numeral(rest)?;
        return Some((Token::Run(n, m), rest));
    }
    match skip_blanks(text) {
        [b'x', rest @ ..] => Some((Token::Times(n), rest)),
        _ => Some((Token::Number(n), text)),
    }
}

// The token at the front, and the text after it.
fn first_token(text: &[u8]) -> Option<(Token, &[u8])>
    ensures { as_taken result ≡ token_in text.now }
{
    match text {
        [b'~', rest @ ..] => Some((Token::Turned, rest)),
        [b'(', rest @ ..] => Some((Token::Open, rest)),
        [b')', rest @ ..] => Some((Token::Close, rest)),
        [b':', rest @ ..] => Some((Token::Colon, rest)),
        _ => {
            let (n, rest) = numeral(text)?;
            after_number(n, rest)
        }
    }
}

// The tokens of a text.
pub fn read_tokens(heap: Global, text: &[u8]) -> Result<Vec<Token>, TextError>
    ensures { elim result [ Ok v ↦ tokens_of text.now ≡ cut v.items | Err e ↦ UnlessMemory e (tokens_of text.now ≡ uncut) ] }
{
    let mut found = Vec::new(heap);
    let mut left = skip_blanks(text);
    while !left.is_empty() {
        let (token, rest) = first_token(left).ok_or(TextError::Unreadable)?;
        found.push(token)?;
        left = skip_blanks(rest);
    }
    Ok(found)
}
