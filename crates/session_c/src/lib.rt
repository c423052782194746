// The desk for C: `open` and `call`, on memory that the caller lends.
#![tactic(auto)]

ghost use Rattle.std.specs.Prelude.{◌≡◌, length, Result};
ghost use Rattle.encoding.specs.Numbers.{placed};
ghost use Rattle.desks.specs.Keepers.{LentDesk};
ghost use Rattle.wire.specs.declared.Refusal.{Refusal};
ghost use Rattle.session.specs.Session.{Opening, says, leaves};
ghost use Rattle.session_c.specs.Export.{code_of};

use session::{Limits, call, open};
use wire::Refusal;

// Room for an answer.
#[repr(C)]
pub struct Room {
    pub bytes: [u8; 160],
}

// What opening came to, as a number: 0, or the refusal's number in the high half and its place in the low one.
fn code(opened: Result<(), Refusal>) -> u64
    ensures { result ≡ code_of opened }
{
    let Err(refusal) = opened else {
        return 0;
    };
    let (number, place) = refusal.code();
    4_294_967_296 * u64::from(number) + u64::from(place)
}

// Opens a desk in the front of the memory, and returns 0; or returns the refusal as a number, and leaves the memory as it was.
#[unsafe(no_mangle)]
pub extern "C" fn desk_open(memory: &mut [u64], shafts: u32, treadles: u32, undos: u32) -> u64
    ensures { (opened : Result (Unit {0}) Refusal) × (result ≡ code_of opened) × Opening (record { shafts = shafts; treadles = treadles; undos = undos }) opened memory.old memory.new }
{
    code(open(
        memory,
        Limits {
            shafts,
            treadles,
            undos,
        },
    ))
}

// Takes the call that the bytes are, and writes the answer; how many bytes it has. The memory is a desk's, as `desk_open` or `desk_call` left it, which no caller from C is held to.
#[unsafe(no_mangle)]
pub extern "C" fn desk_call(memory: &mut [u64], bytes: &[u8], answer: &mut Room) -> usize
    requires { LentDesk memory.old }
    ensures count { result ≡ length (says memory.old bytes.now) }
    ensures answer { answer.new.bytes ≡ placed answer.old.bytes 0 (says memory.old bytes.now) }
    ensures memory { memory.new ≡ leaves memory.old bytes.now }
    ensures ready { LentDesk memory.new }
{
    call(memory, bytes, &mut answer.bytes)
}
