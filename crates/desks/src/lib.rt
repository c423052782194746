// How a desk lies in lent memory, and the promises of what opening and calls leave there.
#![tactic(auto)]

ghost use Rattle.std.specs.Prelude.{◌≡◌, ◌≤◌};
ghost use Rattle.desks.specs.Memory.{slot_at, limit_at, row_at};
ghost use Rattle.desks.specs.Keepers.{Follows};

// The head of a desk's words: the limits,
pub const SHAFTS: usize = 0;

pub const TREADLES: usize = 1;

pub const UNDOS: usize = 2;

// how many changes can be undone now,
pub const UNDOABLE: usize = 3;

// and the slots of the rows there are.
pub const THREADING_SLOT: usize = 4;

pub const TREADLING_SLOT: usize = 5;

// The tie-up, a word for each treadle, its shafts as bits.
pub const TIES: usize = 8;

// The log of what changed, the newest first.
pub const LOG: usize = 72;

// The slots: in each a threading and a treadling, and room for what will be kept of them.
pub const SLOTS: usize = 328;

pub const ROW_ROOM: usize = 512;

pub const KEPT_ROOM: usize = 63;

pub const ROW_PART: usize = ROW_ROOM + KEPT_ROOM;

pub const SLOT_WORDS: usize = 2 * ROW_PART;

// One of the two rows of a draft.
#[derive(Clone, Copy)]
pub enum Which {
    Threading,
    Treadling,
}

impl Which {
    // Where the limit of the row's numbers stands.
    pub fn limit_at(self) -> usize
        ensures { result ≡ limit_at self }
    {
        match self {
            Which::Threading => SHAFTS,
            Which::Treadling => TREADLES,
        }
    }

    // Where the number of the row's slot stands. (Beside `limit_at`: two tables of places, each a match.)
    pub fn slot_at(self) -> usize
        ensures { result ≡ slot_at self }
    {
        match self {
            Which::Threading => THREADING_SLOT,
            Which::Treadling => TREADLING_SLOT,
        }
    }

    // Where the row in a slot begins.
    pub fn row_at(self, slot: u64) -> usize
        requires { slot ≤ 256 }
        ensures { result ≡ row_at self slot }
    {
        SLOTS + SLOT_WORDS * slot as usize + ROW_PART * self as usize
    }
}

// What the words tell after a call is the desk that the call leaves.
pub fn desk_follows() -> u8
    ensures { Follows }
{
    0
}
