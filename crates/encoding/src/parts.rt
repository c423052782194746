// A row's bytes by its outermost part.
ghost use Rattle.encoding.specs.Parts.{Opened};

use crate::kinds::PartKind;
use crate::take_u32;

// The outermost part of a row's bytes: its numbers, and the bytes from the first row in it on, or those after it where it has none.
#[derive(Clone, Copy)]
pub enum Source<'a> {
    One(u32, &'a [u8]),
    Then(&'a [u8]),
    Times(u32, &'a [u8]),
    Turned(&'a [u8]),
    Run(u32, u32, &'a [u8]),
}

// The outermost part of the row that bytes begin with; none if there is no such kind, or bytes of its numbers are missing.
pub fn outermost(bytes: &[u8]) -> Option<Source<'_>>
    ensures { Opened result bytes.now }
{
    let (kind, rest) = bytes.split_first()?;
    match PartKind::try_from(*kind).ok()? {
        PartKind::One => {
            let (n, rest) = take_u32(rest)?;
            Some(Source::One(n, rest))
        }
        PartKind::Then => Some(Source::Then(rest)),
        PartKind::Times => {
            let (n, row) = take_u32(rest)?;
            Some(Source::Times(n, row))
        }
        PartKind::Turned => Some(Source::Turned(rest)),
        PartKind::Run => {
            let (from, rest) = take_u32(rest)?;
            let (to, rest) = take_u32(rest)?;
            Some(Source::Run(from, to, rest))
        }
    }
}
