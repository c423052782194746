// The kinds of calls, of parts of a row and of answers. Each is written as one byte, its number.
ghost use Rattle.encoding.specs.Kinds.{IsCallKind, IsPartKind, IsAnswerKind};

// The kind of a call.
#[derive(Clone, Copy, Debug, PartialEq, Eq)]
pub enum CallKind {
    Thread = 0,
    Treadle = 1,
    Tie = 2,
    Back = 3,
    Cell = 4,
    Part = 5,
    Floats = 6,
    Fewest = 7,
    Hangs = 8,
}

// The kind of a part of a row.
#[derive(Clone, Copy, Debug, PartialEq, Eq)]
pub enum PartKind {
    One = 0,
    Then = 1,
    Times = 2,
    Turned = 3,
    Run = 4,
}

// The kind of an answer.
#[derive(Clone, Copy, Debug, PartialEq, Eq)]
pub enum AnswerKind {
    Refused = 0,
    Number = 1,
    Two = 2,
    Cells = 3,
    Together = 4,
    Over = 5,
}

// A byte that is the number of no kind.
#[derive(Clone, Copy, Debug, PartialEq, Eq)]
pub struct UnknownKind(pub u8);

impl TryFrom<u8> for CallKind {
    type Error = UnknownKind;

    ghost try_from_gives = { IsCallKind };

    fn try_from(byte: u8) -> Result<Self, UnknownKind> {
        match byte {
            0 => Ok(CallKind::Thread),
            1 => Ok(CallKind::Treadle),
            2 => Ok(CallKind::Tie),
            3 => Ok(CallKind::Back),
            4 => Ok(CallKind::Cell),
            5 => Ok(CallKind::Part),
            6 => Ok(CallKind::Floats),
            7 => Ok(CallKind::Fewest),
            8 => Ok(CallKind::Hangs),
            _ => Err(UnknownKind(byte)),
        }
    }
}

impl TryFrom<u8> for PartKind {
    type Error = UnknownKind;

    ghost try_from_gives = { IsPartKind };

    fn try_from(byte: u8) -> Result<Self, UnknownKind> {
        match byte {
            0 => Ok(PartKind::One),
            1 => Ok(PartKind::Then),
            2 => Ok(PartKind::Times),
            3 => Ok(PartKind::Turned),
            4 => Ok(PartKind::Run),
            _ => Err(UnknownKind(byte)),
        }
    }
}

impl TryFrom<u8> for AnswerKind {
    type Error = UnknownKind;

    ghost try_from_gives = { IsAnswerKind };

    fn try_from(byte: u8) -> Result<Self, UnknownKind> {
        match byte {
            0 => Ok(AnswerKind::Refused),
            1 => Ok(AnswerKind::Number),
            2 => Ok(AnswerKind::Two),
            3 => Ok(AnswerKind::Cells),
            4 => Ok(AnswerKind::Together),
            5 => Ok(AnswerKind::Over),
            _ => Err(UnknownKind(byte)),
        }
    }
}
