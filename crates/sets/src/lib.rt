// Sets of shafts or of treadles, as bits of a word: which numbers a row has, and which shafts and treadles a draft uses.
#![tactic(auto)]

ghost use Rattle.std.specs.Prelude.{◌≡◌, ℕ, ◌<◌, ◌≤◌, true, ◌&&◌, length, nat_lt, slice_index};
ghost use Rattle.weave.specs.Rows.{run, written, below};
ghost use Rattle.weave.specs.Cloth.{among};
ghost use Rattle.rows.specs.Rows.{row_in};
ghost use Rattle.lent.specs.Bits.{bit};

mod in_use;

pub use in_use::InUse;
use lent::Lent;
use rows::{LentRow, Part};

// Whether a number is in a set. No number beyond 63 is.
pub fn has(set: u64, n: u32) -> bool
    ensures { result ≡ bit set n }
{
    n < u64::BITS && set >> n & 1 == 1
}

// The numbers of a run, as a set.
pub fn run_set(from: u32, to: u32) -> u64
    requires from { from < 64 }
    requires to { to < 64 }
    ensures { (n : ℕ) → bit result n ≡ among n (written (run from to)) }
{
    u64::MAX << from.min(to) & u64::MAX >> (u64::BITS - 1 - from.max(to))
}

// Which numbers a row has, found by going down the row.
pub fn used(row: LentRow<'_>) -> u64
    requires { below 64 (row_in row) ≡ true }
    ensures { (n : ℕ) → bit result n ≡ among n (written (row_in row.entry)) }
{
    match row.outermost() {
        Part::One(n) => 1 << n,
        Part::Then(first, second) => used(first) | used(second),
        Part::Times(_, inner) | Part::Turned(inner) => used(inner),
        Part::Run(from, to) => run_set(from, to),
    }
}

// The treadles that lift a shaft.
pub fn lifting(draft: Lent<'_>, shaft: u32) -> u64
    ensures { (t : ℕ) → bit result t ≡ (nat_lt t (length draft.entry.ties.now) && bit (slice_index draft.entry.ties.now t) shaft) }
{
    let mut treadles = 0;
    for (t, lifted) in draft.ties.iter().enumerate() {
        if has(*lifted, shaft) {
            treadles |= 1 << t;
        }
    }
    treadles
}
