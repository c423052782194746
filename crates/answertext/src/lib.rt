// Answers as text, a line for each.
#![tactic(auto)]

ghost use Rattle.std.specs.Prelude.{◌≡◌, ◌<◌, [], ◌∷◌, ◌++◌, min, map, Some, Ok, Err};
ghost use Rattle.encoding.specs.Answers.{bit_of, bits, bits_in};
ghost use Rattle.wire.specs.Answers.{answer_of};
ghost use Rattle.tokens.specs.declared.TextError.TheVariants.{Memory};
ghost use Rattle.answertext.specs.Answers.{members, listed, named, cell_text, answer_text, TellsTheAnswer, FilledAlike};

use encoding::{CELL_BYTES, MOST_CELLS};
use std::fmt;
use tokens::TextError;
use wire::Answer;

// Two different answers of a desk never have the same text.
pub fn texts_tell_answers() -> u8
    ensures { TellsTheAnswer }
{
    0
}

// Sets that are filled up to 64 have the same text.
pub fn filled_sets_are_alike() -> u8
    ensures { FilledAlike }
{
    0
}

// Bit i, the first the lowest.
fn bit_at(bits: &[u8; CELL_BYTES], i: u32) -> bool
    requires { i < 1024 }
    ensures { result ≡ bit_of bits.now i }
{
    (bits[i as usize / 8] >> (i % 8)) % 2 == 1
}

// The text of a cell.
fn one_cell(cell: bool) -> &'static str
    ensures { result.now ≡ cell_text cell ∷ [] }
{
    if cell { "|" } else { "-" }
}

// The text of two cells.
fn two_cells(first: bool, second: bool) -> &'static str
    ensures { result.now ≡ cell_text first ∷ (cell_text second ∷ []) }
{
    match (first, second) {
        (true, true) => "||",
        (true, false) => "|-",
        (false, true) => "-|",
        (false, false) => "--",
    }
}

// Cells, 1,024 at the most.
#[derive(Clone, Copy)]
struct Cells<'a> {
    count: u32,
    bits: &'a [u8; CELL_BYTES],
}

impl fmt::Display for Cells<'_> {
    ghost output = { λ c. Some (map cell_text (bits_in c.bits.now (min c.count 1024))) };

    fn fmt<W: fmt::Write>(&self, f: &mut fmt::Formatter<W>) -> fmt::Result {
        // By their numbers: eight cells share a byte, and an iterator over bytes and their bits is no plainer. Two at a time, since a write costs more than a cell does.
        let shown = self.count.min(MOST_CELLS);
        for k in 0..shown / 2 {
            let first = bit_at(self.bits, 2 * k);
            let second = bit_at(self.bits, 2 * k + 1);
            f.write_str(two_cells(first, second))?;
        }
        if shown % 2 == 1 {
            f.write_str(one_cell(bit_at(self.bits, shown - 1)))?;
        }
        Ok(())
    }
}

// The numbers that are in a set, each after a blank.
#[derive(Clone, Copy)]
pub struct Members(pub u64);

impl fmt::Display for Members {
    ghost output = { λ m. Some (listed (members 0 (bits 64 m.0))) };

    fn fmt<W: fmt::Write>(&self, f: &mut fmt::Formatter<W>) -> fmt::Result {
        for i in 0..u64::BITS {
            if (self.0 >> i) % 2 == 1 {
                write!(f, " {i}")?;
            }
        }
        Ok(())
    }
}

// A word and the numbers that are in a set; nothing for an empty set.
#[derive(Clone, Copy)]
pub struct Named<'a> {
    pub word: &'a str,
    pub set: u64,
}

impl fmt::Display for Named<'_> {
    ghost output = { λ n. Some (named n.word.now (members 0 (bits 64 n.set))) };

    fn fmt<W: fmt::Write>(&self, f: &mut fmt::Formatter<W>) -> fmt::Result {
        let set = self.set;
        if set == 0 {
            return Ok(());
        }
        let word = self.word;
        let numbers = Members(set);
        write!(f, " {word}{numbers}")
    }
}

// An answer, to be printed.
#[derive(Clone, Copy)]
pub struct Told<'a>(pub &'a Answer);

impl fmt::Display for Told<'_> {
    ghost output = { λ t. Some (answer_text (answer_of t.0.now)) };

    #[tactic(auto, unfolding(crate::specs::Answers::answer_text))]
    fn fmt<W: fmt::Write>(&self, f: &mut fmt::Formatter<W>) -> fmt::Result {
        match self.0 {
            Answer::Refused(refusal) => {
                let (number, place) = refusal.code();
                write!(f, "refused {number} at {place}")
            }
            Answer::Number(n) => write!(f, "{n}"),
            Answer::Two(m, n) => write!(f, "{m} {n}"),
            Answer::Cells { count, bits } => {
                let cells = Cells {
                    count: *count,
                    bits,
                };
                write!(f, "{cells}")
            }
            Answer::Together => write!(f, "yes"),
            Answer::Over { shafts, treadles } => {
                let shafts = Named {
                    word: "shafts",
                    set: *shafts,
                };
                let treadles = Named {
                    word: "treadles",
                    set: *treadles,
                };
                write!(f, "over:{shafts}{treadles}")
            }
        }
    }
}

// Puts an answer behind a text of bytes; or there is no memory for it, and the text stays as it was. (It is made as a text first, with room for as many cells as there can be: by `write!` to bytes a part of 1,024 cells took three times as long.)
pub fn put_answer(text: &mut Vec<u8>, answer: &Answer) -> Result<(), TextError>
    ensures { elim result [ Ok _ ↦ text.new.items ≡ text.old.items ++ answer_text (answer_of answer.now) | Err e ↦ (e ≡ TextError.Memory) × (text.new.items ≡ text.old.items) ] }
{
    let mut told = String::with_capacity(*text.allocator(), MOST_CELLS as usize)?;
    write!(told, "{}", Told(answer))?;
    text.extend_from_slice(told.as_bytes())?;
    Ok(())
}
