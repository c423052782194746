// Cells of a pick: at which ends the warp is over.
#![tactic(auto)]

ghost use Rattle.std.specs.Prelude.{◌≡◌, ℕ, ◌<◌, ◌≤◌, false, map, length, slice_index, slice_index_or};
ghost use Rattle.weave.specs.Cloth.{Draft, treadle_of, warp_over};
ghost use Rattle.lent.specs.Shows.{Shows};
ghost use Rattle.encoding.specs.Answers.{bit, bit_of, value};
ghost use Rattle.picks.specs.Lifted.{Lifted};
ghost use Rattle.picks.specs.Told.{Told};

use encoding::{CELL_BYTES, MOST_CELLS};
use lent::Lent;

// Up to eight shafts, of each a bit: whether it is lifted. The first is the lowest.
fn byte(lifted: u64, shafts: &[u32]) -> u8
    requires few { length shafts.now ≤ 8 }
    requires shafts { (k : ℕ) → k < length shafts.now → slice_index shafts.now k < 64 }
    ensures { result ≡ value (map (bit lifted) shafts.now) }
{
    shafts
        .iter()
        .rev()
        .map(|shaft| (lifted >> *shaft & 1) as u8)
        .fold(0, |cells, cell| cells << 1 | cell)
}

// The same of up to 1,024 shafts, eight to a byte; bits beyond them are 0. (Bytes are written by their index, since nothing is known of what is written by way of a zip.)
fn pack(lifted: u64, shafts: &[u32]) -> [u8; CELL_BYTES]
    requires few { length shafts.now ≤ 1024 }
    requires shafts { (k : ℕ) → k < length shafts.now → slice_index shafts.now k < 64 }
    ensures { (i : ℕ) → bit_of result i ≡ slice_index_or (map (bit lifted) shafts.now) i false }
{
    let mut cells = [0; CELL_BYTES];
    for (b, eight) in shafts.chunks(8).enumerate() {
        cells[b] = byte(lifted, eight);
    }
    cells
}

// The shafts that are lifted at a pick.
fn lifted_at(draft: Lent<'_>, pick: u32) -> u64
    ensures { (d : Draft) → Shows d draft.entry → Lifted result d.tied (treadle_of d pick) }
{
    draft.ties[draft.treadling.number_at(pick) as usize]
}

// Whether the warp is over at a pick and an end.
pub fn cell(draft: Lent<'_>, pick: u32, end: u32) -> bool
    ensures { (d : Draft) → Shows d draft.entry → result ≡ warp_over d pick end }
{
    lifted_at(draft, pick) >> draft.threading.number_at(end) & 1 == 1
}

// Cells of a pick from an end on, as bits, the first the lowest bit of the first byte, and bits beyond them 0; none if more are asked for than there is room for.
pub fn cells(draft: Lent<'_>, pick: u32, end: u32, count: u32) -> Option<[u8; CELL_BYTES]>
    ensures { Told result draft.entry pick end count }
{
    if count > MOST_CELLS {
        return None;
    }
    // There is no heap here, so the shafts stand in the first part of an array.
    let mut shafts = [0; MOST_CELLS as usize];
    let part = &mut shafts[0..count as usize];
    draft.threading.numbers_from(end, part);
    Some(pack(lifted_at(draft, pick), part))
}
