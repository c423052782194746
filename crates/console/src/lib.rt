// A desk at a console: a line of text is read as calls, and each is answered by a line.
#![tactic(auto)]

ghost use Rattle.std.specs.Prelude.{◌≡◌, ◌++◌, map, vec_items, OnOk};
ghost use Rattle.lent.specs.Shows.{Shows};
ghost use Rattle.desks.specs.Memory.{desk_of};
ghost use Rattle.desks.specs.Keepers.{front, LentDesk};
ghost use Rattle.wire.specs.Answers.{answer_of};
ghost use Rattle.session.specs.Session.{leaves};
ghost use Rattle.calltext.specs.Lines.{line_says};
ghost use Rattle.console.specs.Console.{told_at, told_of, line_text, after_calls, calls_text, after_line, answers_text};

use answertext::put_answer;
use calltext::read_line;
use drafts::{Drafts, desk_words};
use lent::Lent;
use session::call;
use std::alloc::AllocError;
use tokens::TextError;
use wire::{Answer, Refusal, read_answer};

// A desk that is open in the front of lent memory.
#[derive(Drop)]
pub struct Desk<'a> {
    pub memory: &'a mut [u64],
    ghost lent: { LentDesk memory.now },
}

// An answer as it is told of a line: what can't be read is refused at the line.
fn at_line(answer: Answer, line: u32) -> Answer
    ensures { answer_of result ≡ told_at line (answer_of answer) }
{
    match answer {
        Answer::Refused(Refusal::Unreadable(_)) => Answer::Refused(Refusal::Unreadable(line)),
        _ => answer,
    }
}

// Puts the line of an answer behind a text. (A text is bytes, since what is in front of the line may be no UTF-8.)
fn put_line(text: &mut Vec<u8>, answer: &Answer) -> Result<(), AllocError>
    ensures { OnOk result (text.new.items ≡ text.old.items ++ line_text (answer_of answer.now)) }
{
    put_answer(text, answer).or(Err(AllocError))?;
    text.push(b'\n')?;
    Ok(())
}

impl Desk<'_> {
    // The draft there is, lent to readers.
    pub fn draft(&self) -> Lent<'_>
        ensures { Shows (desk_of (front self.now.memory.now)).now result }
    {
        let end = desk_words(self.memory);
        Drafts {
            words: &self.memory[0..end],
        }
        .lent()
    }

    // The answer to a call's bytes. A call that can't be read is told by the line that has it.
    pub fn ask(&mut self, bytes: &[u8], line: u32) -> Answer
        ensures answer { answer_of result ≡ told_of self.old.memory.now bytes.now line }
        ensures memory { self.new.memory.now ≡ leaves self.old.memory.now bytes.now }
        ensures same_reference { self.new.memory.ghost_name ≡ self.old.memory.ghost_name }
    {
        let mut answer = [0; 160];
        call(self.memory, bytes, &mut answer);
        match read_answer(&answer) {
            Some((told, _)) => at_line(told, line),
            None => Answer::Refused(Refusal::Unreadable(line)),
        }
    }

    // Puts the answers to calls in a line behind a text, a line for each.
    fn answer_calls(
        &mut self,
        calls: &[Vec<u8>],
        line: u32,
        text: &mut Vec<u8>,
    ) -> Result<(), AllocError>
        ensures done { OnOk result ((self.new.memory.now ≡ after_calls self.old.memory.now (map vec_items calls.now)) × (text.new.items ≡ text.old.items ++ calls_text self.old.memory.now line (map vec_items calls.now))) }
        ensures same_reference { self.new.memory.ghost_name ≡ self.old.memory.ghost_name }
    {
        for bytes in calls {
            let told = self.ask(bytes, line);
            put_line(text, &told)?;
        }
        Ok(())
    }

    // Puts the answers to a line behind a text, a line for each call.
    pub fn answer_line(
        &mut self,
        line: &[u8],
        number: u32,
        text: &mut Vec<u8>,
    ) -> Result<(), AllocError>
        ensures done { OnOk result ((self.new.memory.now ≡ after_line self.old.memory.now (line_says line.now)) × (text.new.items ≡ text.old.items ++ answers_text self.old.memory.now number (line_says line.now))) }
        ensures same_reference { self.new.memory.ghost_name ≡ self.old.memory.ghost_name }
    {
        match read_line(*text.allocator(), line) {
            Ok(None) => Ok(()),
            Ok(Some(calls)) => self.answer_calls(&calls, number, text),
            Err(TextError::Unreadable) => {
                put_line(text, &Answer::Refused(Refusal::Unreadable(number)))
            }
            Err(TextError::Memory) => Err(AllocError),
        }
    }
}
