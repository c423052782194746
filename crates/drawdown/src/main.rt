// drawdown: prints the cloth of a draft, and what is told of it.
#![tactic(auto)]

ghost use Rattle.std.specs.Prelude.{◌≡◌, min, Some, None};

mod cloth;
mod entry;
mod options;
mod report;

use anyhow::Context;
use cloth::{Span, span_from, write_cloth};
use console::Desk;
use entry::{Stop, enter_all};
use lent::Lent;
use options::{Task, Window, read_args};
use programs::{WORDS, finish, open_desk};
use report::Report;
use std::alloc::{AllocError, Global};
use std::io::{BufWriter, Read, Write};
use std::process::ExitCode;
use std::{fs, io};
use thiserror::Error;

const HELP: &str = "usage: drawdown [OPTIONS] [FILE]

Prints the cloth of the draft in FILE, or on standard input where no file is named, and what is told of it.
A line of the cloth is a pick: | where the warp is over, - where the weft is.

  --pick N    the first pick that is shown (0)
  --end N     the first end that is shown (0)
  --picks N   how many picks are shown (a repeat, but 64 at most)
  --ends N    how many ends are shown (a repeat, but 128 at most)
  --help      this text

A draft is lines of these kinds:

  thread ROW                  the shafts of the ends
  treadle ROW                 the treadles of the picks
  tie TREADLE: SHAFT SHAFT .. each of these ties is turned

A ROW is numbers and runs one after the other, as 0-7 6-1; 12 x (0-7) is so many times, ~(0-7) is turned.
Shafts, treadles, picks and ends count from 0. A blank line and one that begins with # say nothing.
There are 16 shafts and 16 treadles. What no line says is as it is at first: one end on shaft 0, one pick of treadle 0, nothing tied.
";

// A repeat is shown up to so many picks and ends, where no others are asked for.
const MOST_PICKS: u32 = 64;

const MOST_ENDS: u32 = 128;

// How many picks or ends are shown: as many as are asked for, or else a repeat, but so many at most.
fn shown_of(asked: Option<u32>, repeat: u32, most: u32) -> u32
    ensures { elim asked [ Some n ↦ result ≡ n | None ↦ result ≡ min repeat most ] }
{
    asked.unwrap_or(repeat.min(most))
}

// Writes which part of the cloth is shown, if it is not just a repeat.
fn write_window<W: Write>(
    out: &mut W,
    draft: Lent<'_>,
    picks: Span,
    ends: Span,
) -> anyhow::Result<()> {
    let all_picks = draft.treadling.length();
    let all_ends = draft.threading.length();
    if picks.from != 0 || picks.to != all_picks || ends.from != 0 || ends.to != all_ends {
        let (pick, to_pick, end, to_end) = (picks.from, picks.to, ends.from, ends.to);
        writeln!(
            out,
            "shown: picks from {pick} to before {to_pick}, ends from {end} to before {to_end}; a repeat has {all_picks} picks and {all_ends} ends"
        )?;
        writeln!(out)?;
    }
    Ok(())
}

// Writes the part of the cloth that is asked for, and what is told of the cloth.
fn write_shown<W: Write>(
    heap: Global,
    out: &mut W,
    draft: Lent<'_>,
    window: Window,
) -> anyhow::Result<()> {
    let picks = shown_of(window.picks, draft.treadling.length(), MOST_PICKS);
    let ends = shown_of(window.ends, draft.threading.length(), MOST_ENDS);
    let picks = span_from(window.pick, picks).context("there are no picks past 4294967294")?;
    let ends = span_from(window.end, ends).context("there are no ends past 4294967294")?;
    write_window(out, draft, picks, ends)?;
    write_cloth(heap, out, draft, picks, ends)?;
    writeln!(out)?;
    write!(out, "{}", Report(draft))?;
    Ok(())
}

// Prints the cloth of the draft that a desk has.
fn print_cloth(rt: &HostRuntime, desk: &Desk<'_>, window: Window) -> anyhow::Result<()> {
    let mut out = BufWriter::new(rt.alloc(), rt.stdout())?;
    write_shown(rt.alloc(), &mut out, desk.draft(), window)?;
    out.flush()?;
    Ok(())
}

// Why nothing is shown: the draft can't be read or taken, or something else. (The text of an `anyhow::Error` is short.)
#[derive(Debug, Drop, Error)]
enum Failure {
    #[error("{0}")]
    Draft(String),
    #[error(transparent)]
    Other(#[from] anyhow::Error),
    #[error(transparent)]
    Memory(#[from(alloc)] AllocError),
    #[error(transparent)]
    Writing(#[from] io::Error),
}

// Shows the draft of an input.
fn show<R: Read + Drop>(
    rt: &HostRuntime,
    name: &str,
    input: R,
    window: Window,
) -> Result<(), Failure> {
    let mut memory = [0; WORDS];
    let mut desk = open_desk(&mut memory);
    match enter_all(rt.alloc(), &mut desk, input) {
        Ok(()) => Ok(print_cloth(rt, &desk, window)?),
        Err(Stop::Line(line, fault)) => Err(Failure::Draft(format!(in rt.alloc();
            "{name}:{line}: {fault}"
        )?)),
        Err(stop) => Err(Failure::Draft(format!(in rt.alloc(); "{name}: {stop}")?)),
    }
}

// Does what the command line asks for.
fn run(rt: &HostRuntime) -> Result<(), Failure> {
    match read_args(rt)? {
        Task::Help => Ok(rt.print(HELP)?),
        Task::Input(window) => show(rt, "standard input", rt.stdin(), window),
        Task::File(path, window) => match fs::open(rt, path.as_str()) {
            Ok(file) => show(rt, path.as_str(), file, window),
            Err(e) => Err(Failure::Draft(format!(in rt.alloc(); "{path}: {e}")?)),
        },
    }
}

fn main(rt: HostRuntime) -> ExitCode {
    finish(&rt, "drawdown", run(&rt))
}
