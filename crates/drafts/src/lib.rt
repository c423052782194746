// Drafts in lent memory, and those before.
#![tactic(auto)]

ghost use Rattle.std.specs.Prelude.{◌≡◌, ◌-◌, ◌*◌, ◌<◌, ◌≤◌, true, ◌∷◌, length, take, slice_index};
ghost use Rattle.weave.specs.Rows.{Row};
ghost use Rattle.weave.specs.Calls as calls;
ghost use Rattle.weave.specs.Promise.{carried};
ghost use Rattle.encoding.specs.Rows.{row_bytes};
ghost use Rattle.lent.specs.Shows.{Shows};
ghost use Rattle.desks.specs.Desks.{slot_after, slot_before};
ghost use Rattle.desks.specs.Memory.{undos_at, log_at, slots_at, asked, row_room, row_part, words_at, limit_at, slot_at, row_at, one_more, change_recorded, turned_back, Sound, row_call, desk_of};
ghost use Rattle.desks.specs.Keepers.{in_range, new_row, new_rows, new_head, LentDesk};
ghost use Rattle.drafts.specs.Changes.{word_of, IsOf, Tells};
ghost use Rattle.drafts.specs.Replies.{Replies, Opening};

use desks::{
    LOG, ROW_PART, ROW_ROOM, SHAFTS, SLOT_WORDS, SLOTS, TIES, TREADLES, UNDOABLE, UNDOS, Which,
};
use lent::Lent;
use rows::LentRow;
use stored::{check_row, store_row};
use wire::Refusal;

// What can be opened.
const MAX_SHAFTS: u32 = 64;

const MAX_TREADLES: u32 = 64;

const MAX_UNDOS: u32 = 256;

// What the log has of a change: the number of the row, or from here on a tie. (A number, since lent memory has words: a `Change` is made of it.)
const FIRST_TIE: u64 = 2;

const TIES_OF_A_TREADLE: u64 = 64;

// The bytes of the row of one number, 0.
const ONE_ZERO: [u8; 5] = [0; 5];

// What a desk is opened with: how many shafts and treadles there are, and how many changes can be undone.
#[derive(Clone, Copy)]
pub struct Limits {
    pub shafts: u32,
    pub treadles: u32,
    pub undos: u32,
}

impl Limits {
    // Whether a desk can be opened with them.
    fn in_range(self) -> bool
        ensures { result ≡ in_range self.shafts self.treadles self.undos }
    {
        (self.shafts > 0 && self.shafts <= MAX_SHAFTS)
            && ((self.treadles > 0 && self.treadles <= MAX_TREADLES) && self.undos <= MAX_UNDOS)
    }
}

// The drafts that a desk has, as its words tell them.
#[derive(Clone, Copy)]
pub struct Drafts<'a> {
    pub words: &'a [u64],
    ghost sound: { Sound words.now },
}

impl<'a> Drafts<'a> {
    // The limit of a row's numbers.
    fn limit(self, which: Which) -> u32
        ensures { result ≡ slice_index self.entry.words.now (limit_at which) }
    {
        self.words[which.limit_at()] as u32
    }

    // A row of the draft there is, lent to readers.
    fn row(self, which: Which) -> LentRow<'a>
        ensures { result.words.now ≡ words_at (row_at which (slice_index self.entry.words.now (slot_at which))) row_room self.entry.words.now }
    {
        let at = which.row_at(self.words[which.slot_at()]);
        LentRow {
            words: &self.words[at..at + ROW_ROOM],
        }
    }

    // The draft there is, lent to readers.
    pub fn lent(self) -> Lent<'a>
        ensures { Shows (desk_of self.entry.words.now).now result }
    {
        let treadles = self.words[TREADLES] as usize;
        Lent {
            threading: self.row(Which::Threading),
            treadling: self.row(Which::Treadling),
            ties: &self.words[TIES..TIES + treadles],
        }
    }
}

// What was changed: a row, or a tie.
#[derive(Clone, Copy)]
enum Change {
    Row(Which),
    Tie { treadle: u32, shaft: u32 },
}

// The word that the log has of a change.
impl From<Change> for u64 {
    ghost from_gives = { λ change word. word ≡ word_of change };

    fn from(change: Change) -> u64 {
        match change {
            Change::Row(which) => which as u64,
            Change::Tie { treadle, shaft } => {
                FIRST_TIE + (u64::from(treadle) * TIES_OF_A_TREADLE + u64::from(shaft))
            }
        }
    }
}

// A word that tells no change.
#[derive(Clone, Copy, Debug, PartialEq)]
struct NoChange;

// The change that a word of the log tells. A word tells none if its treadle's number has more than four bytes.
impl TryFrom<u64> for Change {
    type Error = NoChange;

    ghost try_from_gives = { Tells };

    fn try_from(word: u64) -> Result<Change, NoChange> {
        match word {
            0 => Ok(Change::Row(Which::Threading)),
            1 => Ok(Change::Row(Which::Treadling)),
            _ => {
                let tie = word - FIRST_TIE;
                let treadle = u32::try_from(tie / TIES_OF_A_TREADLE).or(Err(NoChange))?;
                let shaft = (tie % TIES_OF_A_TREADLE) as u32;
                Ok(Change::Tie { treadle, shaft })
            }
        }
    }
}

// The slot after one, where the first comes after the last.
fn slot_after(last: u64, slot: u64) -> u64
    requires { slot ≤ last }
    ensures { result ≡ slot_after last slot }
{
    if slot == last { 0 } else { slot + 1 }
}

// The slot before one. (A match on which way to go would be longer than the two.)
fn slot_before(last: u64, slot: u64) -> u64
    ensures { result ≡ slot_before last slot }
{
    if slot == 0 { last } else { slot - 1 }
}

// One more, but not more than the most.
fn one_more(most: u64, n: u64) -> u64
    ensures { result ≡ one_more most n }
{
    if n < most { n + 1 } else { n }
}

// One entry more in front of the log; the last is given up.
fn push(log: &mut [u64], entry: u64)
    requires { 0 < length log.old }
    ensures { log.new ≡ entry ∷ take (length log.old - 1) log.old }
{
    log.rotate_right(1);
    log[0] = entry;
}

// A change is recorded in the words in front of the slots, so that it can be undone.
fn record_change(head: &mut [u64], change: Change)
    requires { length head.old ≡ slots_at }
    ensures { head.new ≡ change_recorded (word_of change) head.old }
{
    head[UNDOABLE] = one_more(head[UNDOS], head[UNDOABLE]);
    push(&mut head[LOG..SLOTS], u64::from(change));
}

// A change is turned back in the words in front of the log.
fn turn_back(head: &mut [u64], change: Change)
    requires long { length head.old ≡ log_at }
    requires some { IsOf 64 64 change }
    ensures { head.new ≡ turned_back (word_of change) head.old }
{
    match change {
        Change::Row(which) => {
            let at = which.slot_at();
            head[at] = slot_before(head[UNDOS], head[at]);
        }
        Change::Tie { treadle, shaft } => head[TIES + treadle as usize] ^= 1 << shaft,
    }
}

// What writes takes a slice: a struct with a `&mut` and `Sound` would be made for one call, and each function would have to say that the reference stays.

// The call tie: a tie is turned, lifted if it wasn't, or not if it was. 1 if it is lifted now, else 0; refused where there is no such treadle or shaft.
pub fn tie(memory: &mut [u64], treadle: u32, shaft: u32) -> Result<u32, Refusal>
    requires { Sound memory.old }
    ensures replies { Replies (calls.ties treadle shaft) result memory.old memory.new }
    ensures sound { Sound memory.new }
{
    if u64::from(treadle) >= memory[TREADLES] || u64::from(shaft) >= memory[SHAFTS] {
        return Err(Refusal::NotThere);
    }
    let at = TIES + treadle as usize;
    memory[at] ^= 1 << shaft;
    record_change(&mut memory[0..SLOTS], Change::Tie { treadle, shaft });
    Ok((memory[at] >> shaft & 1) as u32)
}

// The call back: what was changed last is undone. How many more can be; refused where nothing can.
pub fn back(memory: &mut [u64]) -> Result<u32, Refusal>
    requires { Sound memory.old }
    ensures replies { Replies calls.back result memory.old memory.new }
    ensures sound { Sound memory.new }
{
    if memory[UNDOABLE] == 0 {
        return Err(Refusal::NothingToUndo);
    }
    let left = memory[UNDOABLE] - 1;
    let newest = Change::try_from(memory[LOG]).unwrap();
    memory[UNDOABLE] = left;
    memory[LOG..SLOTS].rotate_left(1);
    turn_back(&mut memory[0..LOG], newest);
    Ok(left as u32)
}

// The calls thread and treadle: another row, of which these are the bytes, in the slot after that of the row before. How long it is; refused where it is not good.
pub fn enter(memory: &mut [u64], which: Which, bytes: &[u8]) -> Result<u32, Refusal>
    requires desk { Sound memory.old }
    requires row { (r : Row) × (bytes.now ≡ row_bytes r) × (carried r ≡ true) }
    ensures replies { (r : Row) → bytes.now ≡ row_bytes r → carried r ≡ true → Replies (row_call which r) result memory.old memory.new }
    ensures sound { Sound memory.new }
{
    let _ = check_row(bytes, Drafts { words: memory }.limit(which)).ok_or(Refusal::NotThere)?;
    let word = which.slot_at();
    let slot = slot_after(memory[UNDOS], memory[word]);
    let at = which.row_at(slot);
    let long = store_row(bytes, &mut memory[at..at + ROW_ROOM]);
    memory[word] = slot;
    record_change(&mut memory[0..SLOTS], Change::Row(which));
    Ok(long)
}

// The row of one number, 0, into the part of a slot that is for it and for what will be kept of it.
fn write_new_row(part: &mut [u64])
    requires { length part.old ≡ row_part }
    ensures { part.new ≡ new_row }
{
    part.fill(0);
    store_row(&ONE_ZERO, part);
}

// The same into so many parts.
fn write_new_rows(parts: &mut [u64], n: usize)
    requires { length parts.old ≡ row_part * n }
    ensures { parts.new ≡ new_rows n }
{
    // By places: of what `chunks_exact_mut` has lent only the length is known afterwards.
    for k in 0..n {
        write_new_row(&mut parts[ROW_PART * k..ROW_PART * k + ROW_PART]);
    }
}

// The limits, and nothing lifted or changed.
fn write_new_head(head: &mut [u64], limits: Limits)
    requires { length head.old ≡ slots_at }
    ensures { head.new ≡ new_head limits.shafts limits.treadles limits.undos }
{
    head.fill(0);
    head[SHAFTS] = u64::from(limits.shafts);
    head[TREADLES] = u64::from(limits.treadles);
    head[UNDOS] = u64::from(limits.undos);
}

// How many words a desk asks for that can undo so much.
fn words_for(undos: u64) -> usize
    requires { undos ≤ 256 }
    ensures { result ≡ asked undos }
{
    SLOTS + SLOT_WORDS * (undos as usize + 1)
}

// How many words of lent memory are the desk's.
pub fn desk_words(memory: &[u64]) -> usize
    requires { LentDesk memory.now }
    ensures { result ≡ asked (slice_index memory.now undos_at) }
{
    words_for(memory[UNDOS])
}

// A desk is opened in the front of the memory, if the limits are in range and there is memory enough.
pub fn open(memory: &mut [u64], limits: Limits) -> Result<(), Refusal>
    ensures { Opening limits result memory.old memory.new }
{
    if !limits.in_range() {
        return Err(Refusal::LimitsOutOfRange);
    }
    let end = words_for(u64::from(limits.undos));
    if memory.len() < end {
        return Err(Refusal::TooLittleMemory);
    }
    write_new_head(&mut memory[0..SLOTS], limits);
    write_new_rows(&mut memory[SLOTS..end], 2 * (limits.undos as usize + 1));
    Ok(())
}
