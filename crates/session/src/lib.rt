// A desk over lent memory: calls come as bytes, and answers go as bytes.
#![tactic(auto)]

ghost use Rattle.std.specs.Prelude.{◌≡◌, ◌<◌, ◌≤◌, length, Some, None};
ghost use Rattle.weave.specs.Calls as calls;
ghost use Rattle.weave.specs.Promise.{Right, RefusalKeeps, EnoughMemory};
ghost use Rattle.encoding.specs.Numbers.{placed};
ghost use Rattle.desks.specs.Memory.{Sound};
ghost use Rattle.desks.specs.Keepers.{Replied, LentDesk};
ghost use Rattle.wire.specs.Calls.{call_of, Holds};
ghost use Rattle.wire.specs.Answers.{answer_of};
ghost use Rattle.drafts.specs.Replies.{reply};
ghost use Rattle.session.specs.Session.{stage, desk_keeper, Opening, Answered, says, leaves};

use desks::Which;
pub use drafts::Limits;
use drafts::{Drafts, back, desk_words, enter, tie};
use floats::{Kind, longest_float};
use layers::topmost;
use wire::{Answer, Call, Refusal, read_call, write_answer};

// Opens a desk in the front of the memory; or refuses, and leaves the memory as it was.
pub fn open(memory: &mut [u64], limits: Limits) -> Result<(), Refusal>
    ensures { Opening limits result memory.old memory.new }
{
    drafts::open(memory, limits)
}

// The call cell: 1 if the warp is over, else 0.
fn cell(desk: Drafts<'_>, pick: u32, end: u32) -> Answer
    ensures { Replied stage desk.entry.words.now (calls.cell pick end) (answer_of result) desk.entry.words.now }
{
    Answer::Number(u32::from(picks::cell(desk.lent(), pick, end)))
}

// The call part: some cells of a pick.
fn part(desk: Drafts<'_>, pick: u32, end: u32, count: u32) -> Answer
    ensures { Replied stage desk.entry.words.now (calls.part pick end count) (answer_of result) desk.entry.words.now }
{
    match picks::cells(desk.lent(), pick, end, count) {
        Some(bits) => Answer::Cells { count, bits },
        None => Answer::Refused(Refusal::NotThere),
    }
}

// The call floats: the longest of a kind.
fn floats(desk: Drafts<'_>, number: u32) -> Result<u32, Refusal>
    ensures { Replied stage desk.entry.words.now (calls.floats number) (reply result) desk.entry.words.now }
{
    let kind = Kind::try_from(number).or(Err(Refusal::NotThere))?;
    match longest_float(desk.lent(), kind) {
        Some(float) => Ok(float.length),
        None => Ok(0),
    }
}

// The call fewest: how few shafts and treadles would do.
fn fewest(desk: Drafts<'_>) -> Answer
    ensures { Replied stage desk.entry.words.now calls.fewest (answer_of result) desk.entry.words.now }
{
    let needed = tieup::fewest(desk.lent());
    Answer::Two(needed.shafts, needed.treadles)
}

// The call hangs: yes, or the topmost layer.
fn hangs(desk: Drafts<'_>) -> Answer
    ensures { Answered desk.entry.words.now calls.hangs (answer_of result) desk.entry.words.now }
{
    let Some(layer) = topmost(desk.lent()) else {
        return Answer::Together;
    };
    Answer::Over {
        shafts: layer.shafts,
        treadles: layer.treadles,
    }
}

// A number, or the refusal. An answer is made once and in its place: as what a match comes to, or by the functions of `map_or_else`, it is copied once more, and a tie took a quarter longer; handed on by `?` in a Result it is copied at each step, and a cell took half as long again.
fn told(came: Result<u32, Refusal>) -> Answer
    ensures { answer_of result ≡ reply came }
{
    let n = match came {
        Ok(n) => n,
        Err(refusal) => return Answer::Refused(refusal),
    };
    Answer::Number(n)
}

// What a call does to a desk, and what it is answered.
fn take(desk: &mut [u64], call: Call<'_>) -> Answer
    requires desk { Sound desk.old }
    requires call { Holds call }
    ensures { Answered desk.old (call_of call.entry) (answer_of result) desk.new }
{
    match call {
        Call::Thread(row) => told(enter(desk, Which::Threading, row)),
        Call::Treadle(row) => told(enter(desk, Which::Treadling, row)),
        Call::Tie { treadle, shaft } => told(tie(desk, treadle, shaft)),
        Call::Back => told(back(desk)),
        Call::Cell { pick, end } => cell(Drafts { words: desk }, pick, end),
        Call::Part { pick, end, count } => part(Drafts { words: desk }, pick, end, count),
        Call::Floats(kind) => told(floats(Drafts { words: desk }, kind)),
        Call::Fewest => fewest(Drafts { words: desk }),
        Call::Hangs => hangs(Drafts { words: desk }),
    }
}

// Takes the call that the bytes are, or turns it away by the first refusal that applies, and writes the answer; how many bytes it has. The memory is a desk's, as `open` or `call` left it, and a call that is turned away leaves it as it is.
pub fn call(memory: &mut [u64], bytes: &[u8], answer: &mut [u8; 160]) -> usize
    requires { LentDesk memory.old }
    ensures count { result ≡ length (says memory.old bytes.now) }
    ensures answer { answer.new ≡ placed answer.old 0 (says memory.old bytes.now) }
    ensures memory { memory.new ≡ leaves memory.old bytes.now }
    ensures ready { LentDesk memory.new }
{
    let told = match read_call(bytes) {
        Ok(call) => {
            let end = desk_words(memory);
            take(&mut memory[0..end], call)
        }
        Err(place) => Answer::Refused(Refusal::Unreadable(place)),
    };
    write_answer(&told, answer)
}

// For every list of calls each answer is right for the draft that the calls left, a refusal changes nothing, and there is memory for drafts as they are written: so the keeper keeps, by which `open` and `call` are stated.
pub fn promises() -> u8
    ensures right { Right stage desk_keeper }
    ensures refusal { RefusalKeeps stage desk_keeper }
    ensures memory { EnoughMemory desk_keeper }
{
    0
}
