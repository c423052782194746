// Drafts in words, and all that is told of each.
ghost use Rattle.std.specs.Prelude.{◌≤◌, length};
ghost use Rattle.weave.specs.Rows.{Row};
ghost use Rattle.cases_cloth.specs.Written.{Written};

use floats::{Kind, longest_float};
use layers::topmost;
use lent::Lent;
use rows::LentRow;
use std::test::Fail;
use tieup::{Shafts, Treadles, fewest};

// The words of a row: its kind, how many parts its first row has, and how long it is; its numbers; and then its rows.
const HALF: u64 = 4_294_967_296;

const ZERO: [u64; 2] = [HALF, 0];

const TO_1: [u64; 2] = [4 + 2 * HALF, HALF];

const TO_2: [u64; 2] = [4 + 3 * HALF, 2 * HALF];

const TO_3: [u64; 2] = [4 + 4 * HALF, 3 * HALF];

const TO_5: [u64; 2] = [4 + 6 * HALF, 5 * HALF];

const TO_15: [u64; 2] = [4 + 16 * HALF, 15 * HALF];

const TO_23: [u64; 2] = [4 + 24 * HALF, 23 * HALF];

const TO_63: [u64; 2] = [4 + 64 * HALF, 63 * HALF];

// 0 to 3, and then 2 to 1
const POINT: [u64; 6] = [
    9 + 6 * HALF,
    0,
    4 + 4 * HALF,
    3 * HALF,
    4 + 2 * HALF,
    2 + HALF,
];

// 0 twice, and then 1 twice
const BY_TWOS: [u64; 10] = [
    17 + 4 * HALF,
    0,
    2 + 2 * HALF,
    2,
    HALF,
    0,
    2 + 2 * HALF,
    2,
    HALF,
    1,
];

// 0 to 1, and then 1 to 0
const THERE_AND_BACK: [u64; 6] = [9 + 4 * HALF, 0, 4 + 2 * HALF, HALF, 4 + 2 * HALF, 1];

// from its end: 2, and then three times 0 1 1
const TURNED: [u64; 16] = [
    3 + 10 * HALF,
    0,
    9 + 10 * HALF,
    0,
    HALF,
    2,
    2 + 9 * HALF,
    3,
    9 + 3 * HALF,
    0,
    HALF,
    0,
    2 + 2 * HALF,
    2,
    HALF,
    1,
];

// 0 as often as a row can have it
const EVER: [u64; 4] = [2 + 16_777_216 * HALF, 16_777_216, HALF, 0];

// 5, and then 3 to 0 from its end, 3,355,443 times: 16,777,215 threads
const LONG: [u64; 10] = [
    2 + 16_777_215 * HALF,
    3_355_443,
    1 + 8 + 5 * HALF,
    0,
    HALF,
    5,
    3 + 4 * HALF,
    0,
    4 + 4 * HALF,
    3,
];

// A draft in words.
fn draft_of<'a>(threading: &'a [u64], treadling: &'a [u64], ties: &'a [u64]) -> Lent<'a>
    requires { (r : Row) × (s : Row) × Written 64 r threading.now × Written (length ties.now) s treadling.now × (length ties.now ≤ 64) }
{
    Lent {
        threading: LentRow { words: threading },
        treadling: LentRow { words: treadling },
        ties,
    }
}

// The longest floats of ends on the face and on the back and of picks on the face and on the back; the fewest shafts and treadles; and the shafts and treadles that lie over all others, none where it hangs together.
fn told(draft: Lent<'_>) -> ([u32; 4], [u32; 2], [u64; 2]) {
    let floats = [
        longest_float(draft, Kind::EndsOnFace).map_or(0, |float| float.length),
        longest_float(draft, Kind::EndsOnBack).map_or(0, |float| float.length),
        longest_float(draft, Kind::PicksOnFace).map_or(0, |float| float.length),
        longest_float(draft, Kind::PicksOnBack).map_or(0, |float| float.length),
    ];
    let needed = fewest(draft);
    let over = match topmost(draft) {
        None => [0, 0],
        Some(layer) => [layer.shafts, layer.treadles],
    };
    (floats, [needed.shafts, needed.treadles], over)
}

// The shafts that are alike with a shaft, and the treadles that are with a treadle.
fn alike(draft: Lent<'_>, shaft: u32, treadle: u32) -> [u64; 2] {
    [
        tieup::alike::<Shafts>(draft, shaft),
        tieup::alike::<Treadles>(draft, treadle),
    ]
}

// Plain weave, a twill, a point threading, plain weave on four shafts, by twos, and a desk as it begins.
#[test]
fn plain_weave_and_others(rt: HostRuntime) -> Result<(), Fail> {
    let draft = draft_of(&TO_1, &TO_1, &[0b01, 0b10]);
    assert_eq!(rt; told(draft), ([1, 1, 1, 1], [2, 2], [0, 0]));
    let draft = draft_of(&TO_3, &TO_3, &[0b0011, 0b0110, 0b1100, 0b1001]);
    assert_eq!(rt; told(draft), ([2, 2, 2, 2], [4, 4], [0, 0]));
    let draft = draft_of(&POINT, &TO_3, &[0b0001, 0b0010, 0b0100, 0b1000]);
    assert_eq!(rt; told(draft), ([1, 3, 5, 1], [4, 4], [0, 0]));
    let draft = draft_of(&TO_3, &TO_1, &[0b0101, 0b1010]);
    assert_eq!(rt; told(draft), ([1, 1, 1, 1], [2, 2], [0, 0]));
    assert_eq!(rt; alike(draft, 1, 1), [0b1010, 0b10]);
    assert_eq!(rt; alike(draft, 4, 4_294_967_295), [0, 0]);
    let draft = draft_of(&BY_TWOS, &BY_TWOS, &[0b01, 0b10]);
    assert_eq!(rt; told(draft), ([2, 2, 2, 2], [2, 2], [0, 0]));
    let draft = draft_of(&ZERO, &ZERO, &[0]);
    assert_eq!(rt; told(draft), ([0, 1, 1, 0], [1, 1], [0, 1]));
    Ok(())
}

// A float across the end of the draft, a turned row, one that never ends, and the longest rows.
#[test]
fn rows_of_each_kind(rt: HostRuntime) -> Result<(), Fail> {
    let draft = draft_of(&TO_1, &THERE_AND_BACK, &[0b01, 0b10]);
    assert_eq!(rt; told(draft), ([2, 2, 1, 1], [2, 2], [0, 0]));
    let draft = draft_of(&TO_2, &TURNED, &[0b001, 0b010, 0b100]);
    assert_eq!(rt; told(draft), ([2, 9, 2, 1], [3, 3], [0, 0]));
    let draft = draft_of(&ZERO, &EVER, &[1]);
    assert_eq!(rt; told(draft), ([16_777_216, 0, 0, 1], [1, 1], [1, 0]));
    let draft = draft_of(
        &LONG,
        &LONG,
        &[
            0b10_0001, 0b10_0001, 0b00_0110, 0b00_0110, 0b01_0000, 0b00_1000,
        ],
    );
    assert_eq!(rt; told(draft), ([2, 4, 4, 2], [3, 3], [0, 0]));
    Ok(())
}

// Treadles that differ on a shaft that no end is on; shafts that differ on a treadle that no pick has; and two cloths that only a shaft without ends would join.
#[test]
fn what_is_not_used(rt: HostRuntime) -> Result<(), Fail> {
    let draft = draft_of(&TO_1, &TO_1, &[0b00_0001, 0b10_0001]);
    assert_eq!(rt; told(draft), ([2, 2, 1, 1], [2, 1], [1, 0]));
    let draft = draft_of(&TO_1, &ZERO, &[0b11, 0b01]);
    assert_eq!(rt; told(draft), ([1, 0, 0, 2], [1, 1], [1, 0]));
    let draft = draft_of(&TO_3, &TO_3, &[0b1_0001, 0b0_0111, 0b0_0100, 0b0_1101]);
    assert_eq!(rt; told(draft), ([3, 3, 3, 3], [4, 4], [0b0101, 0b0101]));
    Ok(())
}

// A double cloth, and one that a tie less joins; three layers; two ends that are always lifted; an end that never is; and two picks over all ends.
#[test]
fn layers_over_others(rt: HostRuntime) -> Result<(), Fail> {
    let draft = draft_of(&TO_3, &TO_3, &[0b0001, 0b0111, 0b0100, 0b1101]);
    assert_eq!(rt; told(draft), ([3, 3, 3, 3], [4, 4], [0b0101, 0b0101]));
    let draft = draft_of(&TO_3, &TO_3, &[0b0001, 0b0111, 0b0100, 0b1001]);
    assert_eq!(rt; told(draft), ([3, 3, 3, 3], [4, 4], [0, 0]));
    let draft = draft_of(
        &TO_5,
        &TO_5,
        &[
            0b11_1101, 0b11_1110, 0b00_0100, 0b00_1000, 0b01_1100, 0b10_1100,
        ],
    );
    assert_eq!(rt; told(draft), ([5, 5, 5, 5], [6, 6], [0b00_1100, 0b00_1100]));
    let draft = draft_of(&TO_3, &TO_1, &[0b0111, 0b1110]);
    assert_eq!(rt; told(draft), ([2, 1, 1, 3], [3, 2], [0b0010, 0]));
    let draft = draft_of(&TO_2, &TO_1, &[0b001, 0b010]);
    assert_eq!(rt; told(draft), ([1, 2, 2, 1], [3, 2], [0b011, 0b11]));
    let draft = draft_of(&TO_1, &TO_2, &[0b11, 0b00, 0b00]);
    assert_eq!(rt; told(draft), ([1, 2, 2, 2], [1, 2], [0, 0b010]));
    Ok(())
}

// Each shaft needs the treadle of its own number, and each treadle the next shaft: from shaft 0 to treadle 63 there are 127 steps, and no shorter way. All other needs lead back.
#[test]
fn the_longest_chain(rt: HostRuntime) -> Result<(), Fail> {
    let mut ties: [u64; 64] = [0; 64];
    for (t, lifted) in ties.iter_mut().enumerate() {
        *lifted = !(u64::MAX << t) | 2 << t;
    }
    let draft = draft_of(&TO_63, &TO_63, &ties);
    assert_eq!(rt; told(draft), ([63, 63, 63, 63], [64, 64], [0, 0]));
    Ok(())
}

// A loom of 24 shafts whose cloth needs 16, since the last eight are lifted with the first; and 64 shafts and treadles that are all alike.
#[test]
fn looms_of_many_shafts(rt: HostRuntime) -> Result<(), Fail> {
    let draft = draft_of(
        &TO_23,
        &TO_15,
        &[
            0x010001, 0x020002, 0x040004, 0x080008, 0x100010, 0x200020, 0x400040, 0x800080,
            0x000100, 0x000200, 0x000400, 0x000800, 0x001000, 0x002000, 0x004000, 0x008000,
        ],
    );
    assert_eq!(rt; told(draft), ([1, 15, 23, 1], [16, 16], [0, 0]));
    let draft = draft_of(&TO_63, &TO_63, &[0; 64]);
    assert_eq!(rt; told(draft), ([0, 64, 64, 0], [1, 1], [0, 1]));
    Ok(())
}
