// Rows, lines of calls and answers as text.
use answertext::Told;
use calltext::read_line;
use rowprint::print_row;
use rowtext::read_row;
use std::alloc::Global;
use tokens::TextError;
use wire::{Answer, Refusal};

// Whether a text is the row that has these bytes.
fn is_row(heap: Global, text: &[u8], bytes: &[u8]) -> Result<bool, TextError> {
    let row = read_row(heap, text)?;
    Ok(row.as_slice() == bytes)
}

// Whether a text is read and printed as it stands.
fn stays(heap: Global, text: &[u8]) -> Result<bool, TextError> {
    let row = read_row(heap, text)?;
    let printed = print_row(heap, &row)?;
    Ok(printed.as_bytes() == text)
}

// How many calls a line says.
fn calls_in(heap: Global, line: &[u8]) -> Result<usize, TextError> {
    match read_line(heap, line)? {
        Some(calls) => Ok(calls.len()),
        None => Ok(0),
    }
}

// Whether a line says one call that has these bytes.
fn is_call(heap: Global, line: &[u8], bytes: &[u8]) -> Result<bool, TextError> {
    match read_line(heap, line)? {
        Some(calls) => match calls.as_slice() {
            [call] => Ok(call.as_slice() == bytes),
            _ => Ok(false),
        },
        None => Ok(false),
    }
}

// Whether an answer has a text.
fn prints(heap: Global, answer: Answer, text: &[u8]) -> Result<bool, TextError> {
    let printed = Told(&answer).to_string(heap)?;
    Ok(printed.as_bytes() == text)
}

const ROWS: [(&[u8], &[u8]); 6] = [
    (b"5", &[0, 5, 0, 0, 0]),
    (b" 0-7\t", &[4, 0, 0, 0, 0, 7, 0, 0, 0]),
    (b"~3", &[3, 0, 3, 0, 0, 0]),
    (b"2x1", &[2, 2, 0, 0, 0, 0, 1, 0, 0, 0]),
    (
        b"0 1 2",
        &[1, 1, 0, 0, 0, 0, 0, 0, 1, 0, 0, 0, 0, 2, 0, 0, 0],
    ),
    (b"((4294967295))", &[0, 255, 255, 255, 255]),
];

#[test]
fn rows_are_read(rt: HostRuntime) {
    for (text, bytes) in ROWS {
        assert_eq!(rt; is_row(rt.alloc(), text, bytes), Ok(true));
    }
}

const PRINTED: [&[u8]; 5] = [
    b"12 x (0-7 6-1)",
    b"~(0 3)",
    b"0 (1 2)",
    b"2 x ~3 x (0-7 ~5)",
    b"0 1 2 3 4 5 6 7 8 9 10",
];

#[test]
fn rows_are_printed(rt: HostRuntime) {
    for text in PRINTED {
        assert_eq!(rt; stays(rt.alloc(), text), Ok(true));
    }
}

const NO_ROWS: [&[u8]; 11] = [
    b"",
    b" \t\r",
    b"(",
    b"0)",
    b"()",
    b"1-",
    b"1 - 2",
    b"3 x",
    b"0: 1",
    b"4294967296",
    &[0xff, 0xfe],
];

#[test]
fn what_is_no_row_is_refused(rt: HostRuntime) {
    for text in NO_ROWS {
        assert_eq!(rt; is_row(rt.alloc(), text, text), Err(TextError::Unreadable));
    }
}

const LINES: [(&[u8], &[u8]); 9] = [
    (b"thread 5", &[0, 0, 5, 0, 0, 0]),
    (b"  treadle  0-3 \r", &[1, 4, 0, 0, 0, 0, 3, 0, 0, 0]),
    (b"tie 3: 1", &[2, 3, 0, 0, 0, 1, 0, 0, 0]),
    (b"back\r", &[3]),
    (b"cell 1 2", &[4, 1, 0, 0, 0, 2, 0, 0, 0]),
    (b"part 1 2 3", &[5, 1, 0, 0, 0, 2, 0, 0, 0, 3, 0, 0, 0]),
    (b"floats 2", &[6, 2, 0, 0, 0]),
    (b"fewest", &[7]),
    (b"hangs", &[8]),
];

#[test]
fn lines_are_read(rt: HostRuntime) {
    for (line, bytes) in LINES {
        assert_eq!(rt; is_call(rt.alloc(), line, bytes), Ok(true));
    }
}

const COUNTS: [(&[u8], Option<usize>); 12] = [
    (b"tie 3: 0 2 5", Some(3)),
    (b" \t\r", Some(0)),
    (b"  # thread", Some(0)),
    (b"thread", None),
    (b"threads 5", None),
    (b"tie 3:", None),
    (b"tie 3 0", None),
    (b"tie 3: 0-2", None),
    (b"back 1", None),
    (b"cell 1 2 3", None),
    (b"back # no", None),
    (&[0xff, 0x20], None),
];

#[test]
fn calls_in_a_line(rt: HostRuntime) {
    for (line, count) in COUNTS {
        assert_eq!(rt; calls_in(rt.alloc(), line).ok(), count);
    }
}

const ANSWERS: [(Answer, &[u8]); 10] = [
    (Answer::Number(3), b"3"),
    (Answer::Two(4, 4), b"4 4"),
    (
        Answer::Cells {
            count: 4,
            bits: [3; 128],
        },
        b"||--",
    ),
    (
        Answer::Cells {
            count: 0,
            bits: [3; 128],
        },
        b"",
    ),
    (Answer::Together, b"yes"),
    (
        Answer::Over {
            shafts: 5,
            treadles: 5,
        },
        b"over: shafts 0 2 treadles 0 2",
    ),
    (
        Answer::Over {
            shafts: 0,
            treadles: 1,
        },
        b"over: treadles 0",
    ),
    (
        Answer::Over {
            shafts: 1 << 63,
            treadles: 0,
        },
        b"over: shafts 63",
    ),
    (Answer::Refused(Refusal::NotThere), b"refused 2 at 0"),
    (Answer::Refused(Refusal::Unreadable(17)), b"refused 1 at 17"),
];

#[test]
fn answers_are_printed(rt: HostRuntime) {
    for (answer, text) in ANSWERS {
        assert_eq!(rt; prints(rt.alloc(), answer, text), Ok(true));
    }
}
