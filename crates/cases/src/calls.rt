// Calls and answers as bytes: each is read and written, cut at each byte, and too deep.
use std::process::Abort;
use std::test::Fail;
use wire::{Answer, Call, Refusal, read_answer, read_call, write_answer, write_call};

// A threading with a part of each kind: one after another, three times, from its end, a run, and a number.
const THREADING: [u8; 22] = [
    0, 1, 2, 3, 0, 0, 0, 3, 4, 0, 0, 0, 0, 7, 0, 0, 0, 0, 5, 0, 0, 0,
];

// Its row: all but the first byte.
const ROW: [u8; 21] = [
    1, 2, 3, 0, 0, 0, 3, 4, 0, 0, 0, 0, 7, 0, 0, 0, 0, 5, 0, 0, 0,
];

// Each call and its bytes.
const CALLS: [(Call<'_>, &[u8]); 9] = [
    (Call::Thread(&ROW), &THREADING),
    (Call::Treadle(&[0, 5, 0, 0, 0]), &[1, 0, 5, 0, 0, 0]),
    (
        Call::Tie {
            treadle: 1,
            shaft: 258,
        },
        &[2, 1, 0, 0, 0, 2, 1, 0, 0],
    ),
    (Call::Back, &[3]),
    (Call::Cell { pick: 1, end: 2 }, &[4, 1, 0, 0, 0, 2, 0, 0, 0]),
    (
        Call::Part {
            pick: 1,
            end: 2,
            count: 1024,
        },
        &[5, 1, 0, 0, 0, 2, 0, 0, 0, 0, 4, 0, 0],
    ),
    (Call::Floats(4294967295), &[6, 255, 255, 255, 255]),
    (Call::Fewest, &[7]),
    (Call::Hangs, &[8]),
];

#[test]
fn each_call_there_and_back(rt: HostRuntime) -> Result<(), Fail> {
    for (call, bytes) in CALLS {
        assert_eq!(rt; read_call(bytes), Ok(call));
        let mut out = [77; 30];
        let Some(n) = write_call(&call, &mut out) else {
            assert!(rt; false);
            return Ok(());
        };
        assert_eq!(rt; &out[..n], bytes);
        assert_eq!(rt; out[n], 77);
        assert_eq!(rt; write_call(&call, &mut out[..n - 1]), None);
    }
    Ok(())
}

// Bytes that are no call, and the first that doesn't fit: an unknown kind, or a byte too many.
const NO_CALLS: [(&[u8], u32); 9] = [
    (&[9], 0),
    (&[255, 0], 0),
    (&[0, 5], 1),
    (&[1, 3, 255], 2),
    (&[0, 1, 0, 0, 0, 0, 0, 6, 0], 7),
    (&[0, 2, 1, 0, 0, 0, 5], 6),
    (&[3, 0], 1),
    (&[6, 0, 0, 0, 0, 9, 9], 5),
    (&[0, 0, 5, 0, 0, 0, 3], 6),
];

#[test]
fn no_calls(rt: HostRuntime) {
    for (bytes, place) in NO_CALLS {
        assert_eq!(rt; read_call(bytes), Err(place));
    }
}

// Bytes that are missing: the place is where the next would stand.
#[test]
fn cut_at_each_byte(rt: HostRuntime) {
    for n in 0..22 {
        assert_eq!(rt; read_call(&THREADING[..n]), Err(n as u32));
    }
}

// The bytes are a threading, whose row is all but the first of them.
fn is_threading(rt: &impl Abort, bytes: &[u8]) -> Result<(), Fail> {
    let [_, row @ ..] = bytes else {
        assert!(rt; false);
        return Ok(());
    };
    assert_eq!(rt; read_call(bytes), Ok(Call::Thread(row)));
    Ok(())
}

// The bytes are no call, and the place is told.
fn misfits_at(rt: &impl Abort, bytes: &[u8], place: u32) -> Result<(), Fail> {
    match read_call(bytes) {
        Ok(_) => {
            assert!(rt; false);
            Ok(())
        },
        Err(told) => {
            assert_eq!(rt; told, place);
            Ok(())
        },
    }
}

// 255 rows one in another are read, and of 256 the innermost is told.
#[test]
fn how_deep(rt: HostRuntime) -> Result<(), Fail> {
    let mut deep = [3; 260];
    deep[0] = 0;
    deep[255..260].copy_from_slice(&[0, 1, 0, 0, 0]);
    is_threading(&rt, &deep)?;
    let mut deeper = [3; 261];
    deeper[0] = 0;
    deeper[256..261].copy_from_slice(&[0, 1, 0, 0, 0]);
    misfits_at(&rt, &deeper, 256)
}

#[test]
fn answers_there_and_back(rt: HostRuntime) -> Result<(), Fail> {
    let mut bits = [0; 128];
    bits[0] = 255;
    bits[1] = 1;
    let answers = [
        Answer::Refused(Refusal::Unreadable(300)),
        Answer::Refused(Refusal::NotThere),
        Answer::Refused(Refusal::LimitsOutOfRange),
        Answer::Refused(Refusal::TooLittleMemory),
        Answer::Refused(Refusal::NothingToUndo),
        Answer::Number(16777216),
        Answer::Two(1, 4294967295),
        Answer::Cells {
            count: 0,
            bits: [0; 128],
        },
        Answer::Cells { count: 9, bits },
        Answer::Cells {
            count: 1024,
            bits: [170; 128],
        },
        Answer::Together,
        Answer::Over {
            shafts: 18446744073709551615,
            treadles: 1,
        },
    ];
    for answer in answers {
        let mut out = [77; 160];
        let n = write_answer(&answer, &mut out);
        if n > 160 {
            assert!(rt; false);
            return Ok(());
        }
        assert_eq!(rt; read_answer(&out), Some((answer, &out[n..])));
    }
    Ok(())
}

// Bits behind the last cell are not written, and a count above 1,024 counts as that.
#[test]
fn stray_bits(rt: HostRuntime) {
    let mut out = [77; 160];
    assert_eq!(rt;
        write_answer(
            &Answer::Cells {
                count: 9,
                bits: [255; 128],
            },
            &mut out,
        ),
        7
    );
    assert_eq!(rt; &out[..8], &[3, 9, 0, 0, 0, 255, 1, 77][..]);
    assert_eq!(rt;
        write_answer(
            &Answer::Cells {
                count: 4000,
                bits: [255; 128],
            },
            &mut out,
        ),
        133
    );
    assert_eq!(rt; &out[..6], &[3, 0, 4, 0, 0, 255][..]);
    assert_eq!(rt; &out[132..134], &[255, 77][..]);
}

const NO_ANSWERS: [&[u8]; 10] = [
    &[],
    &[6],
    &[0, 4, 0, 0, 0, 0, 0, 0, 0],
    &[0, 2, 0, 0, 0, 1, 0, 0, 0],
    &[0, 2, 0, 0, 0, 0, 0, 0],
    &[1, 2, 0, 0],
    &[3, 9, 0, 0, 0, 255, 2],
    &[3, 9, 0, 0, 0, 255],
    &[3, 1, 4, 0, 0, 255],
    &[5, 1, 0, 0, 0, 0, 0, 0, 0, 1, 0, 0, 0, 0, 0, 0],
];

#[test]
fn no_answers(rt: HostRuntime) {
    for bytes in NO_ANSWERS {
        assert_eq!(rt; read_answer(bytes), None);
    }
}
