// The longest floats of a draft: of ends or of picks, on the face or on the back.
#![tactic(auto)]

ghost use Rattle.std.specs.Prelude.{◌≡◌, ℕ, true, ◌&&◌, Some, nat_lt};
ghost use Rattle.weave.specs.Rows.{pick, written};
ghost use Rattle.weave.specs.Cloth.{Draft, among};
ghost use Rattle.rows.specs.Rows.{row_in};
ghost use Rattle.lent.specs.Bits.{bit};
ghost use Rattle.lent.specs.Shows.{Shows, draft_in};
ghost use Rattle.floats.specs.Kinds.{lines_of, crossed_of, goes_on};
ghost use Rattle.floats.specs.Longest.{Longest, length_of};
ghost use Rattle.floats.specs.Names.{Names};

use lent::Lent;
use rows::LentRow;
use runs::longest_round;
use sets::{has, lifting, used};

// There are at most so many shafts, and so many treadles, and each has a set.
const MOST_SETS: usize = 64;

// Floats of ends or of picks, on the face or on the back.
#[derive(Clone, Copy)]
pub enum Kind {
    EndsOnFace,
    EndsOnBack,
    PicksOnFace,
    PicksOnBack,
}

// A float: how long it is, and the shaft that its end is on, or the treadle of its pick.
#[derive(Clone, Copy)]
pub struct Float {
    pub length: u32,
    pub of: u32,
}

// Of some treadles, those at whose picks the ends on a shaft float; or of some shafts, those at whose ends the picks of a treadle do.
fn going_on(draft: Lent<'_>, kind: Kind, line: u32, numbers: u64) -> u64
    requires { among line (written (lines_of (draft_in draft) kind)) ≡ true }
    ensures { (d : Draft) → Shows d draft.entry → (n : ℕ) → among n (written (crossed_of d kind)) ≡ true → bit result n ≡ (bit numbers n && goes_on d kind line n) }
{
    match kind {
        Kind::EndsOnFace => numbers & lifting(draft, line),
        Kind::EndsOnBack => numbers & !lifting(draft, line),
        Kind::PicksOnFace => numbers & !draft.ties[line as usize],
        Kind::PicksOnBack => numbers & draft.ties[line as usize],
    }
}

// The row of the threads that may float, and the row of those that they cross.
fn rows_of<'a>(draft: Lent<'a>, kind: Kind) -> (LentRow<'a>, LentRow<'a>)
    ensures { (d : Draft) → Shows d draft.entry → (row_in result.0 ≡ lines_of d kind) × (row_in result.1 ≡ crossed_of d kind) }
{
    match kind {
        Kind::EndsOnFace | Kind::EndsOnBack => (draft.threading, draft.treadling),
        Kind::PicksOnFace | Kind::PicksOnBack => (draft.treadling, draft.threading),
    }
}

// How long a float is, if there is one.
fn length_of(float: Option<Float>) -> u32
    ensures { result ≡ length_of float }
{
    match float {
        Some(float) => float.length,
        None => 0,
    }
}

// The longer of the longest float so far and another, the first if they are as long.
fn longer(most: Option<Float>, float: Float) -> Option<Float>
    ensures { result ≡ pick (nat_lt (length_of most) float.length) (Some float) most }
{
    if length_of(most) < float.length {
        Some(float)
    } else {
        most
    }
}

// The longest float of a kind, up to the length of the draft, with a shaft or a treadle that has it; none if no thread floats. A set that several of them share is looked at once.
pub fn longest_float(draft: Lent<'_>, kind: Kind) -> Option<Float>
    ensures { (d : Draft) → Shows d draft.entry → Longest d kind result }
{
    let (lines, crossed) = rows_of(draft, kind);
    let used_lines = used(lines);
    let numbers = used(crossed);
    // There is no heap here, so the sets that were looked at stand in an array, each at its line.
    let mut seen = [0; MOST_SETS];
    let mut most = None;
    for line in 0..u64::BITS {
        if has(used_lines, line) {
            let set = going_on(draft, kind, line, numbers);
            if !seen.contains(&set) {
                seen[line as usize] = set;
                let length = longest_round(crossed, set);
                most = longer(most, Float { length, of: line });
            }
        }
    }
    most
}

// A number that no kind of floats has.
#[derive(Clone, Copy, Debug, PartialEq)]
pub struct NoKind;

// The kind of floats that has a number.
impl TryFrom<u32> for Kind {
    type Error = NoKind;

    ghost try_from_gives = { Names };

    fn try_from(number: u32) -> Result<Kind, NoKind> {
        match number {
            0 => Ok(Kind::EndsOnFace),
            1 => Ok(Kind::EndsOnBack),
            2 => Ok(Kind::PicksOnFace),
            3 => Ok(Kind::PicksOnBack),
            _ => Err(NoKind),
        }
    }
}
