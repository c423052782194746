// Which shafts and treadles must lie over all others with which: the laws of it.
#![tactic(auto)]

ghost use Rattle.layering.specs.Needs.{EnoughRounds};
ghost use Rattle.layering.specs.Layers.{OneTopmost};

// What is needed is found in as many rounds as there are shafts and treadles.
pub fn enough_rounds() -> u8
    ensures { EnoughRounds }
{
    0
}

// The topmost is one.
pub fn one_topmost() -> u8
    ensures { OneTopmost }
{
    0
}
