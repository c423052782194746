// A row in lent words: how long it is, its outermost part, the number at a place, and the numbers from a place on.
ghost use Rattle.rows.specs.Words.{IsRow};

use crate::numbers::{along_run, copy_rounds, in_run};
use crate::{HALF, KIND_ONE, KIND_THEN, KIND_TIMES, KIND_TURNED, KINDS, PART_WORDS};

// A row: words that begin with it.
#[derive(Clone, Copy)]
pub struct LentRow<'a> {
    pub words: &'a [u64],
    ghost begins: { IsRow words.now },
}

// A row by its outermost part.
#[derive(Clone, Copy)]
pub enum Part<'a> {
    One(u32),
    Then(LentRow<'a>, LentRow<'a>),
    Times(u32, LentRow<'a>),
    Turned(LentRow<'a>),
    Run(u32, u32),
}

impl<'a> LentRow<'a> {
    ghost use Rattle.std.specs.Prelude.{◌≡◌, ℕ, ◌%◌, ◌+◌, ◌<◌, ◌≤◌, length, slice_index};
    ghost use Rattle.weave.specs.Rows.{then, written, long};
    ghost use Rattle.weave.specs.Promise.{number_at};
    ghost use Rattle.rows.specs.Rows.{row_in};
    ghost use Rattle.rows.specs.Tops.{Top};
    ghost use Rattle.rows.specs.Along.{facing, Along, Around};

    // How long the row is.
    pub fn length(self) -> u32
        ensures { result ≡ long (row_in self.entry) }
    {
        (self.words[0] / HALF) as u32
    }

    // Its outermost part.
    pub fn outermost(self) -> Part<'a>
        ensures { Top (row_in self.entry) result }
    {
        let head = self.words[0];
        let numbers = self.words[1];
        let inner = &self.words[PART_WORDS..];
        let first = (numbers % HALF) as u32;
        match head % KINDS {
            KIND_ONE => Part::One(first),
            KIND_THEN => Part::Then(
                LentRow { words: inner },
                LentRow {
                    words: &inner[PART_WORDS * (head % HALF / KINDS) as usize..],
                },
            ),
            KIND_TIMES => Part::Times(first, LentRow { words: inner }),
            KIND_TURNED => Part::Turned(LentRow { words: inner }),
            _ => Part::Run(first, (numbers / HALF) as u32),
        }
    }

    // The number at a place, found by going down the row.
    fn number_down(self, i: u32) -> u32
        requires { i < long (row_in self) }
        ensures { result ≡ number_at (row_in self.entry) i }
    {
        match self.outermost() {
            Part::One(n) => n,
            Part::Then(first, second) => {
                let n = first.length();
                if i < n {
                    first.number_down(i)
                } else {
                    second.number_down(i - n)
                }
            }
            Part::Times(_, inner) => inner.number_down(i % inner.length()),
            Part::Turned(inner) => inner.number_down(inner.length() - 1 - i),
            Part::Run(from, to) => in_run(from, to, i),
        }
    }

    // The number at a place, round the row's end.
    pub fn number_at(self, i: u32) -> u32
        ensures down { i < long (row_in self.entry) → result ≡ number_at (row_in self.entry) i }
        ensures written { result ≡ slice_index (written (row_in self.entry)) (i % long (row_in self.entry)) }
    {
        self.number_down(i % self.length())
    }

    // The numbers from a place on, as many as there is room for. Going back, places are counted from the row's end. (Which way is handed down, so that each number is written once, however often what it is in is turned.)
    #[cycle(across_along_around)]
    fn along(self, back: bool, from: u32, out: &mut [u32])
        requires { from + length out.old ≤ long (row_in self) }
        ensures { Along (facing back (row_in self.entry)) from out.new }
    {
        if out.is_empty() {
            return;
        }
        match self.outermost() {
            Part::One(n) => out.fill(n),
            Part::Then(first, second) if back => second.across(first, back, from, out),
            Part::Then(first, second) => first.across(second, back, from, out),
            Part::Times(_, inner) => inner.around(back, from, out),
            Part::Turned(inner) => inner.along(!back, from, out),
            Part::Run(a, b) if back => along_run(b, a, from, out),
            Part::Run(a, b) => along_run(a, b, from, out),
        }
    }

    // The same of two rows, one after the other: this one, which is the near one, has the first share.
    #[cycle(across_along_around)]
    fn across(self, far: LentRow<'_>, back: bool, from: u32, out: &mut [u32])
        requires { from + length out.old ≤ long (row_in self) + long (row_in far) }
        ensures { Along (then (facing back (row_in self.entry)) (facing back (row_in far.entry))) from out.new }
    {
        let n = self.length();
        let share = (n.saturating_sub(from) as usize).min(out.len());
        self.along(back, from.min(n), &mut out[..share]);
        far.along(back, from.saturating_sub(n), &mut out[share..]);
    }

    // The same round the row's end, again and again: one round is found, and the others are copied.
    #[cycle(across_along_around)]
    fn around(self, back: bool, from: u32, out: &mut [u32])
        ensures { Around (facing back (row_in self.entry)) from out.new }
    {
        if out.is_empty() {
            return;
        }
        let n = self.length();
        let at = from % n;
        let round = (n as usize).min(out.len());
        let to_end = ((n - at) as usize).min(round);
        self.along(back, at, &mut out[..to_end]);
        self.along(back, 0, &mut out[to_end..round]);
        copy_rounds(out, round);
    }

    // The numbers from a place on, as many as there is room for, round the row's end as often as it takes.
    pub fn numbers_from(self, from: u32, out: &mut [u32])
        ensures { (k : ℕ) → k < length out.new → slice_index out.new k ≡ slice_index (written (row_in self.entry)) ((from + k) % long (row_in self.entry)) }
    {
        self.around(false, from, out)
    }
}
