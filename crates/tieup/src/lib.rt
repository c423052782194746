// Shafts and treadles that are alike, and how few would do for the same cloth.
#![tactic(auto)]

ghost use Rattle.std.specs.Prelude.{◌≡◌, ℕ, ◌<◌, Bool, true, not};
ghost use Rattle.weave.specs.Rows.{pick, written};
ghost use Rattle.weave.specs.Cloth.{Draft, among, shafts_needed, treadles_needed};
ghost use Rattle.lent.specs.Bits.{bit};
ghost use Rattle.lent.specs.Shows.{Shows, draft_in};
ghost use Rattle.lent.specs.declared.Lent.{Lent};
ghost use Rattle.tieup.specs.Alike.{alike_shafts, alike_treadles, Sorted};
ghost use Rattle.tieup.specs.Kinds.{shafts_sorted, treadles_sorted};

use lent::Lent;
use sets::{InUse, has};

// How many shafts and treadles would do.
#[derive(Clone, Copy)]
pub struct Needed {
    pub shafts: u32,
    pub treadles: u32,
}

// The shafts that a treadle lifts if it lifts this one, or else those that it doesn't lift.
fn lifted_with(lifted: u64, shaft: u32) -> u64
    ensures { (n : ℕ) → n < 64 → bit result n ≡ pick (bit lifted shaft) (bit lifted n) (not (bit lifted n)) }
{
    if has(lifted, shaft) { lifted } else { !lifted }
}

// Shafts, or treadles.
pub trait Lines {
    // Which of them a draft uses, which are alike, and how many would do.
    ghost uses: { Draft → ℕ → Bool };

    ghost alike: { Draft → ℕ → ℕ → Bool };

    ghost needed: { Draft → ℕ };

    // The used ones.
    fn in_use(used: InUse<'_>) -> u64
        ensures { (d : Draft) → Shows d used.entry.draft → (n : ℕ) → bit result n ≡ uses d n };

    // Those that are alike with a used one.
    fn like(used: InUse<'_>, line: u32) -> u64
        requires { uses (draft_in used.draft) line ≡ true }
        ensures { (d : Draft) → Shows d used.entry.draft → (n : ℕ) → n < 64 → bit result n ≡ alike d line n };

    // Being alike sorts the used ones into as many kinds as are needed.
    ghost sorted: { (d : Draft) (l : Lent) → Shows d l → Sorted (uses d) (alike d) (needed d) };
}

pub struct Shafts;

impl Lines for Shafts {
    ghost uses = { λ d n. among n (written d.threading) };

    ghost alike = { alike_shafts };

    ghost needed = { shafts_needed };

    ghost sorted = { shafts_sorted };

    fn in_use(used: InUse<'_>) -> u64 {
        used.shafts
    }

    fn like(used: InUse<'_>, shaft: u32) -> u64 {
        let mut alike = used.shafts;
        for (t, lifted) in used.draft.ties.iter().enumerate() {
            if has(used.treadles, t as u32) {
                alike &= lifted_with(*lifted, shaft);
            }
        }
        alike
    }
}

pub struct Treadles;

impl Lines for Treadles {
    ghost uses = { λ d n. among n (written d.treadling) };

    ghost alike = { alike_treadles };

    ghost needed = { treadles_needed };

    ghost sorted = { treadles_sorted };

    fn in_use(used: InUse<'_>) -> u64 {
        used.treadles
    }

    fn like(used: InUse<'_>, treadle: u32) -> u64 {
        let lifted = used.draft.ties[treadle as usize] & used.shafts;
        let mut alike = used.treadles;
        for (t, others) in used.draft.ties.iter().enumerate() {
            if others & used.shafts != lifted {
                alike &= !(1 << t);
            }
        }
        alike
    }
}

// How many used shafts differ, or treadles: each that is left takes those that are alike with it away.
fn different<L: Lines>(used: InUse<'_>) -> u32
    ensures { (d : Draft) → Shows d used.entry.draft → result ≡ L.needed d }
{
    let mut left = L::in_use(used);
    let mut different = 0;
    for line in 0..u64::BITS {
        if has(left, line) {
            left &= !L::like(used, line);
            different += 1;
        }
    }
    different
}

// How many shafts and treadles would do for the cloth of a draft.
pub fn fewest(draft: Lent<'_>) -> Needed
    ensures shafts { (d : Draft) → Shows d draft.entry → result.shafts ≡ shafts_needed d }
    ensures treadles { (d : Draft) → Shows d draft.entry → result.treadles ≡ treadles_needed d }
{
    let used = InUse::of(draft);
    Needed {
        shafts: different::<Shafts>(used),
        treadles: different::<Treadles>(used),
    }
}

// The used shafts, or treadles, that are alike with this one, itself among them; none if it isn't used.
pub fn alike<L: Lines>(draft: Lent<'_>, line: u32) -> u64
    ensures { (d : Draft) → Shows d draft.entry → (n : ℕ) → bit result n ≡ L.alike d line n }
{
    let used = InUse::of(draft);
    if has(L::in_use(used), line) {
        L::like(used, line)
    } else {
        0
    }
}
