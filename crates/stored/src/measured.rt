// What is found about a row before it is taken.
ghost use Rattle.std.specs.Prelude.{◌≤◌, ℕ, Some};
ghost use Rattle.weave.specs.Rows.{Row, then, times, turned, run};

use rows::{MAX_DEEP, MAX_LONG, MAX_PARTS};

// A row that is no more than a row may be: how many parts it has, how deep it is, and how many numbers long.
#[derive(Clone, Copy)]
pub struct Measured {
    pub parts: usize,
    pub depth: u32,
    pub numbers: u64,
    ghost few: { parts ≤ 256 },
    ghost shallow: { depth ≤ 32 },
    ghost short: { numbers ≤ 16777216 },
}

impl Measured {
    ghost use Rattle.stored.specs.Measures.{Within, Measures};

    // So many parts, so deep and so many numbers long; none if that is more than a row may be.
    fn within_limits(parts: usize, depth: u32, numbers: u64) -> Option<Measured>
        ensures { Within parts depth numbers result }
    {
        if parts > MAX_PARTS || depth > MAX_DEEP || numbers > MAX_LONG {
            return None;
        }
        Some(Measured {
            parts,
            depth,
            numbers,
        })
    }

    // A run, or a number alone as a run to itself; none if it has a number that is not below the limit.
    #[tactic(auto, using(crate::proofs::Measures::run_outside, crate::proofs::Measures::run_measured))]
    pub fn of_run(from: u32, to: u32, limit: u32) -> Option<Measured>
        ensures { Measures limit (run from to) result }
    {
        if from >= limit || to >= limit {
            return None;
        }
        Measured::within_limits(1, 1, u64::from(from.abs_diff(to)) + 1)
    }

    // The row, and then another.
    #[tactic(auto, using(crate::proofs::Measures::then_measured))]
    pub fn joined(self, next: Measured) -> Option<Measured>
        ensures { (m : ℕ) (p q : Row) → Measures m p (Some self) → Measures m q (Some next) → Measures m (then p q) result }
    {
        Measured::within_limits(
            1 + self.parts + next.parts,
            1 + self.depth.max(next.depth),
            self.numbers + next.numbers,
        )
    }

    // The row so many times; none if that is no times.
    #[tactic(auto, using(crate::proofs::Measures::times_measured, crate::proofs::Measures::times_none))]
    pub fn repeated(self, n: u32) -> Option<Measured>
        ensures { (m : ℕ) (p : Row) → Measures m p (Some self) → Measures m (times n p) result }
    {
        if n == 0 {
            return None;
        }
        Measured::within_limits(1 + self.parts, 1 + self.depth, u64::from(n) * self.numbers)
    }

    // The row from its end.
    #[tactic(auto, using(crate::proofs::Measures::turned_measured))]
    pub fn turned(self) -> Option<Measured>
        ensures { (m : ℕ) (p : Row) → Measures m p (Some self) → Measures m (turned p) result }
    {
        Measured::within_limits(1 + self.parts, 1 + self.depth, self.numbers)
    }
}
