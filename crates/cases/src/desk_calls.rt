// A desk from call to answer: drafts are entered and their cells told, changes undone, and calls turned away.
ghost use Rattle.desks.specs.Keepers.{LentDesk};

use session::{Limits, call, open};
use std::process::Abort;
use std::test::Fail;
use wire::Refusal;

// A desk of 64 shafts and 4 treadles that can undo 3 times, and the words that it asks for.
const LIMITS: Limits = Limits {
    shafts: 64,
    treadles: 4,
    undos: 3,
};

const WORDS: usize = 4_928;

// The first eight cells of a pick are asked for.
const PICK_0: [u8; 13] = [5, 0, 0, 0, 0, 0, 0, 0, 0, 8, 0, 0, 0];

const PICK_1: [u8; 13] = [5, 1, 0, 0, 0, 0, 0, 0, 0, 8, 0, 0, 0];

const PICK_6: [u8; 13] = [5, 6, 0, 0, 0, 0, 0, 0, 0, 8, 0, 0, 0];

const PICK_3: [u8; 13] = [5, 3, 0, 0, 0, 0, 0, 0, 0, 8, 0, 0, 0];

const BACK: [u8; 1] = [3];

const TIE_0_1: [u8; 9] = [2, 0, 0, 0, 0, 1, 0, 0, 0];

const NOT_THERE: [u8; 9] = [0, 2, 0, 0, 0, 0, 0, 0, 0];

const NOTHING_TO_UNDO: [u8; 9] = [0, 6, 0, 0, 0, 0, 0, 0, 0];

// Calls one after the other, and the answer to each.
fn answers(rt: &impl Abort, memory: &mut [u64], calls: &[(&[u8], &[u8])]) -> Result<(), Fail>
    requires { LentDesk memory.old }
{
    for pair in calls {
        let (bytes, told) = *pair;
        let mut answer = [0; 160];
        let n = call(memory, bytes, &mut answer);
        if n > 160 {
            assert!(rt; false);
            return Ok(());
        }
        assert_eq!(rt; &answer[..n], told);
    }
    Ok(())
}

// Nothing is lifted; then a twill; and a point threading: 0 to 3, and 2 to 1.
#[test]
fn drafts_are_entered(rt: HostRuntime) -> Result<(), Fail> {
    let mut memory = [7; WORDS];
    open(&mut memory, LIMITS)?;
    answers(
        &rt,
        &mut memory,
        &[
            (&PICK_0, &[3, 8, 0, 0, 0, 0]),
            (&[0, 4, 0, 0, 0, 0, 3, 0, 0, 0], &[1, 4, 0, 0, 0]),
            (&[1, 4, 0, 0, 0, 0, 3, 0, 0, 0], &[1, 4, 0, 0, 0]),
            (&[2, 0, 0, 0, 0, 0, 0, 0, 0], &[1, 1, 0, 0, 0]),
            (&TIE_0_1, &[1, 1, 0, 0, 0]),
            (&[2, 1, 0, 0, 0, 1, 0, 0, 0], &[1, 1, 0, 0, 0]),
            (&[2, 1, 0, 0, 0, 2, 0, 0, 0], &[1, 1, 0, 0, 0]),
            (&[2, 2, 0, 0, 0, 2, 0, 0, 0], &[1, 1, 0, 0, 0]),
            (&[2, 2, 0, 0, 0, 3, 0, 0, 0], &[1, 1, 0, 0, 0]),
            (&[2, 3, 0, 0, 0, 3, 0, 0, 0], &[1, 1, 0, 0, 0]),
            (&[2, 3, 0, 0, 0, 0, 0, 0, 0], &[1, 1, 0, 0, 0]),
            (&PICK_0, &[3, 8, 0, 0, 0, 0b0011_0011]),
            (&PICK_1, &[3, 8, 0, 0, 0, 0b0110_0110]),
            (&PICK_6, &[3, 8, 0, 0, 0, 0b1100_1100]),
            (&PICK_3, &[3, 8, 0, 0, 0, 0b1001_1001]),
            (&[4, 3, 0, 0, 0, 255, 255, 255, 255], &[1, 1, 0, 0, 0]),
            (
                &[0, 1, 4, 0, 0, 0, 0, 3, 0, 0, 0, 4, 2, 0, 0, 0, 1, 0, 0, 0],
                &[1, 6, 0, 0, 0],
            ),
            (&PICK_0, &[3, 8, 0, 0, 0, 0b1110_0011]),
        ],
    )
}

// Changes are undone, from the last on, up to the oldest that is remembered.
#[test]
fn changes_are_undone(rt: HostRuntime) -> Result<(), Fail> {
    let mut memory = [7; WORDS];
    open(&mut memory, LIMITS)?;
    answers(
        &rt,
        &mut memory,
        &[
            (&BACK, &NOTHING_TO_UNDO),
            (&TIE_0_1, &[1, 1, 0, 0, 0]),
            (&[0, 4, 0, 0, 0, 0, 1, 0, 0, 0], &[1, 2, 0, 0, 0]),
            (&[0, 0, 1, 0, 0, 0], &[1, 1, 0, 0, 0]),
            (&TIE_0_1, &[1, 0, 0, 0, 0]),
            (&PICK_0, &[3, 8, 0, 0, 0, 0]),
            (&BACK, &[1, 2, 0, 0, 0]),
            (&PICK_0, &[3, 8, 0, 0, 0, 0b1111_1111]),
            (&BACK, &[1, 1, 0, 0, 0]),
            (&PICK_0, &[3, 8, 0, 0, 0, 0b1010_1010]),
            (&BACK, &[1, 0, 0, 0, 0]),
            (&PICK_0, &[3, 8, 0, 0, 0, 0]),
            (&BACK, &NOTHING_TO_UNDO),
            (&TIE_0_1, &[1, 0, 0, 0, 0]),
        ],
    )
}

// What can't be read, and what is not there: a shaft, a treadle, no times, a row too long, too many cells. Nothing is left to undo.
#[test]
fn calls_are_turned_away(rt: HostRuntime) -> Result<(), Fail> {
    let mut memory = [7; WORDS];
    open(&mut memory, LIMITS)?;
    answers(
        &rt,
        &mut memory,
        &[
            (&[], &[0, 1, 0, 0, 0, 0, 0, 0, 0]),
            (&[0, 0, 64, 0, 0], &[0, 1, 0, 0, 0, 5, 0, 0, 0]),
            (&[3, 3], &[0, 1, 0, 0, 0, 1, 0, 0, 0]),
            (&[0, 0, 64, 0, 0, 0], &NOT_THERE),
            (&[1, 0, 4, 0, 0, 0], &NOT_THERE),
            (&[2, 4, 0, 0, 0, 0, 0, 0, 0], &NOT_THERE),
            (&[2, 0, 0, 0, 0, 64, 0, 0, 0], &NOT_THERE),
            (&[0, 2, 0, 0, 0, 0, 0, 0, 0, 0, 0], &NOT_THERE),
            (&[0, 2, 1, 0, 0, 1, 0, 0, 0, 0, 0], &NOT_THERE),
            (&[5, 0, 0, 0, 0, 0, 0, 0, 0, 1, 4, 0, 0], &NOT_THERE),
            (&BACK, &NOTHING_TO_UNDO),
        ],
    )
}

// Limits out of range are refused.
fn limits_are_refused(rt: &impl Abort, memory: &mut [u64]) {
    for (shafts, treadles, undos) in [(0, 4, 0), (65, 4, 0), (4, 0, 0), (4, 65, 0), (4, 4, 257)] {
        let limits = Limits {
            shafts,
            treadles,
            undos,
        };
        assert_eq!(rt; open(memory, limits), Err(Refusal::LimitsOutOfRange));
    }
}

// A desk that is not opened leaves the memory as it was: one word is missing, or limits are out of range.
#[test]
fn desks_are_not_opened(rt: HostRuntime) {
    let mut memory = [7; WORDS - 1];
    assert_eq!(rt; open(&mut memory, LIMITS), Err(Refusal::TooLittleMemory));
    limits_are_refused(&rt, &mut memory);
    for word in memory {
        assert_eq!(rt; word, 7);
    }
}
