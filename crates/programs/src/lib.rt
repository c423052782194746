// What the programs share: the desk that they open, the lines that they read, and how they end.
#![tactic(auto)]

ghost use Rattle.std.specs.Prelude.{◌≡◌, false, Ok, Err, IfSome, IfOk, OnOk};
ghost use Rattle.std.specs.Io.BufRead.{first_piece, DropsThrough};
ghost use Rattle.std.specs.Io.KnownBytes.{IsAtEnd};
ghost use Rattle.std.specs.Process.{exit_status};

use console::Desk;
use session::{Limits, open};
use std::fmt::Display;
use std::io;
use std::io::BufRead;
use std::process::ExitCode;

// What the desk is opened with, and the words that it asks for.
pub const LIMITS: Limits = Limits {
    shafts: 16,
    treadles: 16,
    undos: 8,
};

pub const WORDS: usize = 10_678;

// Opens the desk.
pub fn open_desk(memory: &mut [u64; WORDS]) -> Desk<'_> {
    open(memory, LIMITS).unwrap();
    Desk { memory }
}

// Reads the next line, without the byte that ends it; or whether there is none.
pub fn next_line<B: BufRead>(input: &mut B, line: &mut Vec<u8>) -> io::Result<bool>
    ensures line { OnOk result (IfSome (B.remaining input.old) (λ xs. line.new.items ≡ first_piece 10 xs)) }
    ensures rest { OnOk result (DropsThrough (B.remaining input.old) (B.remaining input.new) 10) }
    ensures end { IfOk result (λ more. more ≡ false → IsAtEnd (B.remaining input.old)) }
{
    line.clear();
    if input.read_until(b'\n', line)? == 0 {
        return Ok(false);
    }
    let last = line.len() - 1;
    if line[last] == b'\n' {
        line.truncate(last);
    }
    Ok(true)
}

// How a program ends that did its work, or that tells on standard error why it didn't.
pub fn finish<E: Display + Drop>(rt: &impl Eprint, name: &str, done: Result<(), E>) -> ExitCode
    ensures { elim done [ Ok _ ↦ exit_status result ≡ 0 | Err _ ↦ exit_status result ≡ 1 ] }
{
    match done {
        Ok(()) => ExitCode::SUCCESS,
        Err(e) => {
            let _ = eprintln!(rt; "{name}: {e}");
            ExitCode::FAILURE
        }
    }
}
