// A row's note: what was found about the row, kept in words so that it need not be found again.
#![tactic(auto)]

ghost use Rattle.std.specs.Prelude.{◌≡◌, ◌<◌, true};
ghost use Rattle.weave.specs.Rows.{Row, below};
ghost use Rattle.rows.specs.Words.{Small};
ghost use Rattle.rows.specs.Rows.{row_in};
ghost use Rattle.lent.specs.Bits.{bit};
ghost use Rattle.notes.specs.Notes.{used_set, Known, Tells, tells, begun, filled_at, set_at, length_at, place_of, recalled, filled, all_filled, set_of_line, length_of_line};

use rows::LentRow;
use sets::has;

// A note stands in lent memory, so its parts are words at fixed places: the slot of the row that it tells of,
const OF: usize = 0;

// the numbers that the row uses, as a set, or 0 where nothing is noted,
pub const USED: usize = 1;

// which places are filled, on the face and on the back,
const FILLED: usize = 2;

// and for each place a set of numbers, and how long the row goes on with them.
const SETS: usize = 4;

const LENGTHS: usize = 132;

const PLACES: usize = 64;

pub const NOTE_WORDS: usize = 260;

// A row is asked of floats on the face and on the back, and each side has places of its own.
#[derive(Clone, Copy)]
pub enum Side {
    Face,
    Back,
}

impl Side {
    // Where the side's words stand in a note: which places are filled, and the set and the length of a place.
    fn filled_at(self) -> usize
        ensures { result ≡ filled_at self }
    {
        FILLED + self as usize
    }

    fn set_at(self, place: usize) -> usize
        requires { place < 64 }
        ensures { result ≡ set_at self place }
    {
        SETS + PLACES * self as usize + place
    }

    fn length_at(self, place: usize) -> usize
        requires { place < 64 }
        ensures { result ≡ length_at self place }
    {
        LENGTHS + PLACES * self as usize + place
    }
}

// What was found of a line: its set, and how long the row goes on with it.
#[derive(Clone, Copy)]
pub struct Found {
    pub set: u64,
    pub length: u32,
}

// Whether a note tells of the row in a slot.
fn tells(note: &[u64; NOTE_WORDS], slot: u64) -> bool
    ensures { result ≡ tells slot note.now }
{
    note[OF] == slot && note[USED] > 0
}

// The numbers that the row in a slot uses: as they are noted, or found by going down the row.
pub fn used(note: &[u64; NOTE_WORDS], slot: u64, row: LentRow<'_>) -> u64
    requires row { below 64 (row_in row) ≡ true }
    requires note { Tells slot (row_in row) note.now }
    ensures { result ≡ used_set (row_in row.entry) }
{
    if tells(note, slot) {
        note[USED]
    } else {
        sets::used(row)
    }
}

// A note is begun for the row in a slot, unless it tells of that row already.
pub fn begin(note: &mut [u64; NOTE_WORDS], slot: u64, used: u64)
    ensures { note.new ≡ begun slot used note.old }
{
    if !tells(note, slot) {
        note[OF] = slot;
        note[USED] = used;
        note[Side::Face.filled_at()] = 0;
        note[Side::Back.filled_at()] = 0;
    }
}

// The place of the set of a used line: the fewer lines there are, the more places each has.
fn place(lines: u64, line: u32, set: u64) -> usize
    requires { bit lines line ≡ true }
    ensures is { result ≡ place_of lines line set }
    ensures few { result < 64 }
{
    let line = line as usize;
    if lines < 16 {
        line + 4 * (set % 15) as usize
    } else if lines < 256 {
        line + 8 * (set % 7) as usize
    } else if lines < 65536 {
        line + 16 * (set % 3) as usize
    } else {
        line
    }
}

// How long the row goes on with the set of a used line, if that is noted.
pub fn recall(note: &[u64; NOTE_WORDS], side: Side, lines: u64, line: u32, set: u64) -> Option<u32>
    requires note { (r : Row) × Small r × Known r note.now }
    requires line { bit lines line ≡ true }
    ensures { result ≡ recalled side (place_of lines line set) set note.now }
{
    let place = place(lines, line, set);
    if has(note[side.filled_at()], place as u32) && note[side.set_at(place)] == set {
        Some(note[side.length_at(place)] as u32)
    } else {
        None
    }
}

// A place is filled.
fn fill(note: &mut [u64; NOTE_WORDS], side: Side, place: usize, found: Found)
    requires { place < 64 }
    ensures { note.new ≡ filled side place found.set found.length note.old }
{
    note[side.filled_at()] |= 1 << place;
    note[side.set_at(place)] = found.set;
    note[side.length_at(place)] = u64::from(found.length);
}

// What was found of the used lines is noted, with each line at its number.
pub fn keep(note: &mut [u64; NOTE_WORDS], side: Side, lines: u64, found: &[Found; PLACES])
    ensures { note.new ≡ all_filled side lines (set_of_line found.now) (length_of_line found.now) 64 note.old }
{
    for (line, line_found) in found.iter().enumerate() {
        let line = line as u32;
        if has(lines, line) {
            fill(note, side, place(lines, line, line_found.set), *line_found);
        }
    }
}
