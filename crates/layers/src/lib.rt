// Which shafts and treadles lie over all others, if any do.
#![tactic(auto)]

ghost use Rattle.std.specs.Prelude.{◌≡◌, ℕ, ◌+◌, ◌-◌, ◌/◌, ◌%◌, ◌^◌, ◌<◌, ◌≤◌, true, false, not, ◌&&◌, ◌||◌, nat_lt};
ghost use Rattle.weave.specs.Rows.{pick, written};
ghost use Rattle.weave.specs.Cloth.{Draft, among, lifts};
ghost use Rattle.weave.proofs.Reach.{reached};
ghost use Rattle.lent.specs.Bits.{bit};
ghost use Rattle.lent.specs.Shows.{Shows};
ghost use Rattle.layering.specs.Needs.{at_once};
ghost use Rattle.layering.specs.Layers.{LeftDown};
ghost use Rattle.layers.specs.Told.{Told, AlwaysOver, in_row, Smallest};

use lent::Lent;
use sets::{InUse, has, lifting};

// Shafts and treadles, as bits.
#[derive(Clone, Copy)]
pub struct Layer {
    pub shafts: u64,
    pub treadles: u64,
}

// Shafts and treadles stand in one line, the shafts first. A set of both has a bit for each place of the line.
const SHAFTS: usize = 64;

const LINE: usize = 128;

// Shafts and treadles as a set in the line. (A number may be any set, so that a From would hide which.)
fn in_line(shafts: u64, treadles: u64) -> u128
    ensures { (j : ℕ) → bit result j ≡ pick (nat_lt j 64) (bit shafts j) (bit treadles (j - 64)) }
{
    u128::from(treadles) << SHAFTS | u128::from(shafts)
}

// A set in the line as a layer.
fn from_line(set: u128) -> Layer
    ensures shafts { result.shafts ≡ set % 2 ^ 64 }
    ensures treadles { result.treadles ≡ set / 2 ^ 64 }
{
    Layer {
        shafts: (set & u128::from(u64::MAX)) as u64,
        treadles: (set >> SHAFTS) as u64,
    }
}

// Whether a set has a place of the line. (One `has` for both widths would take a trait with laws for this line.)
fn has_place(set: u128, place: usize) -> bool
    requires { place < 128 }
    ensures { result ≡ bit set place }
{
    set >> place & 1 == 1
}

// The used treadles that leave a shaft down.
fn leaving_down(used: InUse<'_>, shaft: u32) -> u64
    requires { shaft < 64 }
    ensures { (d : Draft) → Shows d used.entry.draft → (t : ℕ) → bit result t ≡ (among t (written d.treadling) && not (lifts d.tied t shaft)) }
{
    used.treadles & !lifting(used.draft, shaft)
}

// Whether every used treadle lifts a shaft. (It ends at the first that doesn't: with `leaving_down` hangs takes a seventh longer.)
fn is_always_lifted(used: InUse<'_>, shaft: u32) -> bool
    requires { shaft < 64 }
    ensures up { (d : Draft) → Shows d used.entry.draft → result ≡ true → (t : ℕ) → among t (written d.treadling) ≡ true → lifts d.tied t shaft ≡ true }
    ensures down { (d : Draft) → Shows d used.entry.draft → result ≡ false → LeftDown d shaft }
{
    (0..u64::BITS).zip(used.draft.ties).all(|(t, lifted)| has(*lifted, shaft)
        || !has(used.treadles, t))
}

// The first used shaft that every used treadle lifts, if there is one: its ends are over all picks.
fn always_over(used: InUse<'_>) -> Option<u32>
    ensures { (d : Draft) → Shows d used.entry.draft → AlwaysOver result d }
{
    for s in 0..u64::BITS {
        if has(used.shafts, s) && is_always_lifted(used, s) {
            return Some(s);
        }
    }
    None
}

// What a shaft needs at once, and itself; nothing if it isn't used.
fn shaft_needs(used: InUse<'_>, shaft: u32) -> u128
    requires { shaft < 64 }
    ensures { (d : Draft) → Shows d used.entry.draft → (j : ℕ) → bit result j ≡ at_once d shaft j }
{
    if !has(used.shafts, shaft) {
        return 0;
    }
    in_line(1 << shaft, leaving_down(used, shaft))
}

// What a treadle needs at once, and itself; nothing if it isn't used.
fn treadle_needs(used: InUse<'_>, treadle: u32) -> u128
    ensures { (d : Draft) → Shows d used.entry.draft → (j : ℕ) → bit result j ≡ at_once d (64 + treadle) j }
{
    if !has(used.treadles, treadle) {
        return 0;
    }
    in_line(
        used.shafts & used.draft.ties[treadle as usize],
        1 << treadle,
    )
}

// What a place of the line needs at once, and itself; nothing if it isn't used.
fn place_needs(used: InUse<'_>, place: usize) -> u128
    requires { place < 128 }
    ensures { (d : Draft) → Shows d used.entry.draft → (j : ℕ) → bit result j ≡ at_once d place j }
{
    if place < SHAFTS {
        shaft_needs(used, place as u32)
    } else {
        treadle_needs(used, (place - SHAFTS) as u32)
    }
}

// What each place of the line needs at once, and itself.
fn needs(used: InUse<'_>) -> [u128; LINE]
    ensures { (d : Draft) → Shows d used.entry.draft → (i j : ℕ) → in_row result i j ≡ at_once d i j }
{
    let mut sets = [0; LINE];
    for (place, set) in sets.iter_mut().enumerate() {
        *set = place_needs(used, place);
    }
    sets
}

// A round: each set that has a place takes what the set of that place has.
fn join_by(sets: &mut [u128; LINE], way: usize)
    requires { way < 128 }
    ensures { (i j : ℕ) → in_row sets.new i j ≡ (in_row sets.old i j || (in_row sets.old i way && in_row sets.old way j)) }
{
    let by_way = sets[way];
    let place = 1 << way;
    for set in sets.iter_mut() {
        if *set & place != 0 {
            *set |= by_way;
        }
    }
}

// What each used place needs by way of others too, in as many rounds as there are shafts and treadles, counted down.
fn by_way_of_all(rows: [u128; LINE], used: u128) -> [u128; LINE]
    requires used { (i j : ℕ) → in_row rows i j ≡ true → bit used j ≡ true }
    requires itself { (i : ℕ) → bit used i ≡ true → in_row rows i i ≡ true }
    ensures { (i j : ℕ) → bit used i ≡ true → in_row result i j ≡ reached (in_row rows) 128 i j }
{
    let mut sets = rows;
    for way in (0..LINE).rev() {
        if has_place(used, way) {
            join_by(&mut sets, way);
        }
    }
    sets
}

// The first of the smallest sets of used places, or all that are used if none is smaller. (How many it has is kept beside it: counted again for each set, hangs takes a twelfth longer.)
fn smallest(sets: [u128; LINE], used: u128) -> u128
    ensures { Smallest sets used result }
{
    let mut smallest = used;
    let mut fewest = used.count_ones();
    for (i, set) in sets.iter().enumerate() {
        if has_place(used, i) {
            let size = set.count_ones();
            if size < fewest {
                smallest = *set;
                fewest = size;
            }
        }
    }
    smallest
}

// Shafts and treadles whose threads lie over all others, or none if the cloth hangs together. Where there is a choice, the topmost: of the sets that something needs, and that lack something,
// the one with the fewest shafts and treadles; of several the one that the first shaft needs, else the first treadle.
pub fn topmost(draft: Lent<'_>) -> Option<Layer>
    ensures { (d : Draft) → Shows d draft.entry → Told result d }
{
    let used = InUse::of(draft);
    if let Some(shaft) = always_over(used) {
        return Some(Layer {
            shafts: 1 << shaft,
            treadles: 0,
        });
    }
    let all = in_line(used.shafts, used.treadles);
    let set = smallest(by_way_of_all(needs(used), all), all);
    if set == all {
        None
    } else {
        Some(from_line(set))
    }
}
