// What is true of cloth: each theorem is the contract of a small function.
#![tactic(auto)]

ghost use Rattle.weave.specs.Promise.{AsLong, AtPlace, TurnedAway, Undone, ByShafts, FloatsOff, FewestShafts, Mirrored, FromBehind};
ghost use Rattle.laws.specs.Laws.{ByUsedShafts, QuarterTurned, OnlyCloth, WrittenOver, UnusedTie};
ghost use Rattle.laws.specs.Examples.{PlainWeave, EvenTwill, DoubleCloth, JoinedCloth};

// A row is as long as its numbers are many.
pub fn as_long() -> u8
    ensures { AsLong }
{
    0
}

// What stands at a place of a row is found by going down it.
pub fn at_place() -> u8
    ensures { AtPlace }
{
    0
}

// A call that is turned away changes nothing.
pub fn turned_away() -> u8
    ensures { TurnedAway }
{
    0
}

// What was done and undone leaves the draft as it was.
pub fn undone() -> u8
    ensures { Undone }
{
    0
}

// If any threads lie over all others, all those of some shafts and treadles do.
pub fn by_shafts() -> u8
    ensures { ByShafts }
{
    0
}

// And these can be had of used shafts and treadles only.
pub fn by_used_shafts() -> u8
    ensures { ByUsedShafts }
{
    0
}

// An end that is always over, or always under, does not hang together with the rest.
pub fn floats_off() -> u8
    ensures { FloatsOff }
{
    0
}

// Whoever weaves the same cloth uses no fewer shafts and treadles than are told, and somebody uses just so many.
pub fn fewest_shafts() -> u8
    ensures { FewestShafts }
{
    0
}

// Threaded from the other side, floats are as long, and what hung together does.
pub fn mirrored() -> u8
    ensures { Mirrored }
{
    0
}

// Seen from behind, floats of the face are those of the back, and what hung together does.
pub fn from_behind() -> u8
    ensures { FromBehind }
{
    0
}

// Turned by a quarter, ends are picks: their floats, how few are needed, and what hung together does.
pub fn quarter_turned() -> u8
    ensures { QuarterTurned }
{
    0
}

// Of two drafts that weave the same cloth the same is told.
pub fn only_cloth() -> u8
    ensures { OnlyCloth }
{
    0
}

// Written several times over, a draft is told the same, but for floats that never end.
pub fn written_over() -> u8
    ensures { WrittenOver }
{
    0
}

// A tie on a treadle that is never used, or of a shaft that no end is on, changes nothing that is told.
pub fn unused_tie() -> u8
    ensures { UnusedTie }
{
    0
}

// Plain weave.
pub fn plain_weave() -> u8
    ensures { PlainWeave }
{
    0
}

// The twill that goes two over and two under.
pub fn even_twill() -> u8
    ensures { EvenTwill }
{
    0
}

// Two plain cloths, one over the other.
pub fn double_cloth() -> u8
    ensures { DoubleCloth }
{
    0
}

// The double cloth that one tie less joins.
pub fn joined_cloth() -> u8
    ensures { JoinedCloth }
{
    0
}
