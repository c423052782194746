// A draft in lent words.
#![tactic(auto)]

ghost use Rattle.lent.specs.Good.{Good};

use rows::LentRow;

// A draft: its two rows, and for each treadle a word, the shafts that it lifts as bits.
#[derive(Clone, Copy)]
pub struct Lent<'a> {
    pub threading: LentRow<'a>,
    pub treadling: LentRow<'a>,
    pub ties: &'a [u64],
    ghost good: { Good threading treadling ties.now },
}
