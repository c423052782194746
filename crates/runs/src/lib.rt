// Runs of a row: how long it goes on with numbers of a set, from its beginning, to its end, at the longest, and round its end.
#![tactic(auto)]

ghost use Rattle.std.specs.Prelude.{◌≡◌, ◌*◌, ◌<◌, ◌≤◌, true};
ghost use Rattle.weave.specs.Rows.{run, written, below};
ghost use Rattle.weave.proofs.Runs.{longest_round};
ghost use Rattle.rows.specs.Rows.{row_in};
ghost use Rattle.lent.specs.Bits.{bit};
ghost use Rattle.runs.specs.Found.{runs_of, Short, front_in, of_one, of_both, of_times, of_turned, RoundTold};

use rows::{LentRow, Part};
use sets::{has, run_set};

// Of a row that has other numbers too: how long it goes on with numbers of a set from its beginning, to its end, and at the longest.
#[derive(Clone, Copy)]
pub struct Pieces {
    pub front: u32,
    pub back: u32,
    pub longest: u32,
}

// Of a row and a set of numbers: the row's length if all its numbers are in the set, and else its runs.
#[derive(Clone, Copy)]
pub enum Runs {
    Whole(u32),
    Broken(Pieces),
}

impl Runs {
    // Of one number, which is in the set or not.
    fn one(member: bool) -> Runs
        ensures { result ≡ of_one member }
    {
        if member {
            Runs::Whole(1)
        } else {
            Runs::Broken(Pieces {
                front: 0,
                back: 0,
                longest: 0,
            })
        }
    }

    // Of this row, and then another: a run may go over the seam.
    fn join(self, next: Runs) -> Runs
        requires this { Short self }
        requires next { Short next }
        ensures { result ≡ of_both self next }
    {
        match (self, next) {
            (Runs::Whole(m), Runs::Whole(n)) => Runs::Whole(m + n),
            (Runs::Whole(m), Runs::Broken(b)) => Runs::Broken(Pieces {
                front: m + b.front,
                longest: b.longest.max(m + b.front),
                ..b
            }),
            (Runs::Broken(a), Runs::Whole(n)) => Runs::Broken(Pieces {
                back: a.back + n,
                longest: a.longest.max(a.back + n),
                ..a
            }),
            (Runs::Broken(a), Runs::Broken(b)) => Runs::Broken(Pieces {
                front: a.front,
                back: b.back,
                longest: a.longest.max(b.longest).max(a.back + b.front),
            }),
        }
    }

    // Of this row so many times, at least once.
    fn repeat(self, n: u32) -> Runs
        requires this { Short self }
        requires long { n * front_in self ≤ 16777216 }
        ensures { result ≡ of_times n self }
    {
        match self {
            Runs::Whole(m) => Runs::Whole(n * m),
            Runs::Broken(a) => {
                let longest = if n == 1 {
                    a.longest
                } else {
                    a.longest.max(a.back + a.front)
                };
                Runs::Broken(Pieces { longest, ..a })
            }
        }
    }

    // Of this row from its end.
    fn turn(self) -> Runs
        ensures { result ≡ of_turned self }
    {
        match self {
            Runs::Whole(_) => self,
            Runs::Broken(a) => Runs::Broken(Pieces {
                front: a.back,
                back: a.front,
                longest: a.longest,
            }),
        }
    }
}

// Of numbers that go up by one, as bits: each turn takes the last number of every run away, until none is left.
fn upward(from: u32, to: u32, set: u64) -> Runs
    requires up { from ≤ to }
    requires below { to < 64 }
    ensures { result ≡ runs_of (bit set) (written (run from to)) }
{
    let numbers = to - from + 1;
    let mut width = numbers;
    let mut left = set & run_set(from, to);
    let mut front = 0;
    let mut back = 0;
    let mut longest = 0;
    while left != 0 {
        width -= 1;
        front += (left >> from & 1) as u32;
        back += (left >> (from + width) & 1) as u32;
        longest += 1;
        left &= left >> 1;
    }
    if front == numbers {
        Runs::Whole(numbers)
    } else {
        Runs::Broken(Pieces {
            front,
            back,
            longest,
        })
    }
}

// Of numbers that go up by one, or down.
fn along(from: u32, to: u32, set: u64) -> Runs
    requires from { from < 64 }
    requires to { to < 64 }
    ensures { result ≡ runs_of (bit set) (written (run from to)) }
{
    if from <= to {
        upward(from, to, set)
    } else {
        upward(to, from, set).turn()
    }
}

// Of a row, found by going down it.
pub fn runs_in(row: LentRow<'_>, set: u64) -> Runs
    requires { below 64 (row_in row) ≡ true }
    ensures { result ≡ runs_of (bit set) (written (row_in row.entry)) }
{
    match row.outermost() {
        Part::One(n) => Runs::one(has(set, n)),
        Part::Then(first, second) => runs_in(first, set).join(runs_in(second, set)),
        Part::Times(n, inner) => runs_in(inner, set).repeat(n),
        Part::Turned(inner) => runs_in(inner, set).turn(),
        Part::Run(from, to) => along(from, to, set),
    }
}

// How long the row goes on with numbers of the set at the longest, from any place on, round its end, up to its length.
pub fn longest_round(row: LentRow<'_>, set: u64) -> u32
    requires { below 64 (row_in row) ≡ true }
    ensures { result ≡ longest_round (bit set) (written (row_in row.entry)) }
{
    match runs_in(row, set) {
        Runs::Whole(n) => n,
        Runs::Broken(found) => found.longest.max(found.back + found.front),
    }
}

// What is longest round the end of a row is a run that there is, and none is longer.
pub fn runs_stand() -> u8
    ensures { RoundTold }
{
    0
}
