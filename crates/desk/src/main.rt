// desk: answers a file of calls, a line for each call.
#![tactic(auto)]

use anyhow::{anyhow, bail};
use console::Desk;
use programs::{WORDS, finish, next_line, open_desk};
use std::io::{BufReader, BufWriter, Read, Write};
use std::process::ExitCode;
use std::{env, fs};

const HELP: &str = "usage: desk [FILE]

Answers the calls in FILE, or on standard input where no file is named: a line for each call.

  thread ROW                  another threading: how many ends it has
  treadle ROW                 another treadling: how many picks it has
  tie TREADLE: SHAFT SHAFT .. each of these ties is turned: 1 if it lifts now, else 0
  back                        the last change is undone: how many more can be
  cell PICK END               1 if the warp is over, else 0
  part PICK END COUNT         so many cells from an end on: | where the warp is over, - where the weft is
  floats KIND                 the longest float: 0 of ends on the face, 1 on the back, 2 of picks on the face, 3 on the back
  fewest                      how few shafts and treadles would do
  hangs                       yes, or what lies over all else

A ROW is numbers and runs one after the other, as 0-7 6-1; 12 x (0-7) is so many times, ~(0-7) is turned.
Shafts, treadles, picks and ends count from 0. A blank line and one that begins with # say nothing.
What can't be taken is refused: 1 at its line if it can't be read, 2 if it asks for what is not there, 6 if nothing can be undone.
There are 16 shafts and 16 treadles, and 8 changes can be undone.
";

// What the words of the command line ask for.
#[derive(Drop)]
enum Task {
    Help,
    Input,
    File(String),
}

// The task that the command line tells.
fn read_args(rt: &HostRuntime) -> anyhow::Result<Task> {
    let mut task = Task::Input;
    for word in env::args(rt)?.skip(1) {
        if word.as_str() == "--help" || word.as_str() == "-h" {
            return Ok(Task::Help);
        }
        match task {
            Task::Input if !word.as_str().starts_with("-") => task = Task::File(word),
            _ => bail!("one file at most, and no option but --help"),
        }
    }
    Ok(task)
}

// Answers line after line. What is written goes out when no more input is at hand.
fn answer_all<R: Read + Drop>(
    rt: &HostRuntime,
    desk: &mut Desk<'_>,
    input: R,
) -> anyhow::Result<()> {
    let heap = rt.alloc();
    let mut input = BufReader::new(heap, input)?;
    let mut out = BufWriter::new(heap, rt.stdout())?;
    let mut line: Vec<u8> = Vec::new(heap);
    let mut text: Vec<u8> = Vec::new(heap);
    for number in 1..=u32::MAX {
        if !next_line(&mut input, &mut line)? {
            break;
        }
        text.clear();
        // By `context` room for an error is made, and filled, at each line: one that says little took half as long again.
        let Ok(()) = desk.answer_line(&line, number, &mut text) else {
            bail!("no memory left");
        };
        out.write_all(&text)?;
        if input.buffer().is_empty() {
            out.flush()?;
        }
    }
    out.flush()?;
    Ok(())
}

// Opens a desk, and answers all of an input.
fn serve<R: Read + Drop>(rt: &HostRuntime, input: R) -> anyhow::Result<()> {
    let mut memory = [0; WORDS];
    answer_all(rt, &mut open_desk(&mut memory), input)
}

// Does what the command line asks for.
fn run(rt: &HostRuntime) -> anyhow::Result<()> {
    match read_args(rt)? {
        Task::Help => Ok(rt.print(HELP)?),
        Task::Input => serve(rt, rt.stdin()),
        Task::File(path) => match fs::open(rt, path.as_str()) {
            Ok(file) => serve(rt, file),
            Err(e) => Err(anyhow!("{path}: {e}")),
        },
    }
}

fn main(rt: HostRuntime) -> ExitCode {
    finish(&rt, "desk", run(&rt))
}
