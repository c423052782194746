// The shafts and treadles that a draft uses.
ghost use Rattle.sets.specs.Used.{Used};

use crate::used;
use lent::Lent;

// A draft, with the shafts that its ends are on and the treadles that its picks have, as sets.
#[derive(Clone, Copy)]
pub struct InUse<'a> {
    pub draft: Lent<'a>,
    pub shafts: u64,
    pub treadles: u64,
    ghost used: { Used draft shafts treadles },
}

impl<'a> InUse<'a> {
    ghost use Rattle.std.specs.Prelude.{◌≡◌};
    ghost use Rattle.weave.specs.Cloth.{Draft};
    ghost use Rattle.lent.specs.Shows.{Shows};
    ghost use Rattle.sets.specs.Uses.{Uses};

    // What a draft uses.
    pub fn of(draft: Lent<'a>) -> InUse<'a>
        ensures draft { result.draft ≡ draft.entry }
        ensures uses { (d : Draft) → Shows d draft.entry → Uses d result }
    {
        InUse {
            draft,
            shafts: used(draft.threading),
            treadles: used(draft.treadling),
        }
    }
}
