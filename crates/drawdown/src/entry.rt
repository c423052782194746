// A draft is entered into a desk, line by line.
use calltext::read_line;
use console::Desk;
use programs::next_line;
use std::alloc::Global;
use std::io;
use std::io::{BufReader, Read};
use thiserror::Error;
use tokens::TextError;
use wire::{Answer, Call, Refusal, read_call};

// Why a line of a draft was not taken.
#[derive(Clone, Copy, Debug, Error)]
pub enum Fault {
    #[error("this line can't be read")]
    Unreadable,
    #[error("this is no line of a draft, which has lines of thread, treadle and tie alone")]
    NotOfDraft,
    #[error("this line is refused: it names a shaft or a treadle past 15, or its row is empty, too long or too deep")]
    Refused,
    #[error("no memory left")]
    Memory,
}

impl From<TextError> for Fault {
    fn from(error: TextError) -> Fault {
        match error {
            TextError::Unreadable => Fault::Unreadable,
            TextError::Memory => Fault::Memory,
        }
    }
}

// Why a draft was not entered: a line was not taken, or no more could be read.
#[derive(Debug, Drop, Error)]
pub enum Stop {
    #[error("{0}: {1}")]
    Line(u32, Fault),
    #[error(transparent)]
    Reading(#[from] io::Error),
    #[error("there are more lines than can be counted")]
    TooManyLines,
}

// Whether a call is of a draft: it enters a threading, a treadling or a tie.
fn enters(bytes: &[u8]) -> bool {
    matches!(
        read_call(bytes),
        Ok(Call::Thread(_) | Call::Treadle(_) | Call::Tie { .. })
    )
}

// Enters what a call says.
fn enter_call(desk: &mut Desk<'_>, bytes: &[u8], line: u32) -> Result<(), Fault> {
    if !enters(bytes) {
        return Err(Fault::NotOfDraft);
    }
    match desk.ask(bytes, line) {
        Answer::Number(_) => Ok(()),
        Answer::Refused(Refusal::Unreadable(_)) => Err(Fault::Unreadable),
        _ => Err(Fault::Refused),
    }
}

// Enters what a line says.
fn enter_line(heap: Global, desk: &mut Desk<'_>, line: &[u8], number: u32) -> Result<(), Fault> {
    if let Some(calls) = read_line(heap, line)? {
        for bytes in &calls {
            enter_call(desk, bytes, number)?;
        }
    }
    Ok(())
}

// Enters line after line, up to the first that is not taken, if there is one.
pub fn enter_all<R: Read + Drop>(heap: Global, desk: &mut Desk<'_>, input: R) -> Result<(), Stop> {
    let mut input = BufReader::new(heap, input)?;
    let mut text: Vec<u8> = Vec::new(heap);
    for line in 1..u32::MAX {
        if !next_line(&mut input, &mut text)? {
            return Ok(());
        }
        enter_line(heap, desk, text.as_slice(), line).map_err(|fault| Stop::Line(line, fault))?;
    }
    Err(Stop::TooManyLines)
}
