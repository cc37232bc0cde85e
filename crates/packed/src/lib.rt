// The library's values as plain numbers, for the C boundary, where no enum can pass: an answer in one number, a state by its number, and
// the updater's memory as a number that the caller keeps. The rules are in specs/Packed; proofs/Apart and proofs/Memory say that nothing
// is lost.
#![tactic(auto)]

ghost use Rattle.std.specs.Prelude.{Err, ◌≡◌, ◌≤◌};
ghost use Rattle.state.specs.Magic.{state_number};
ghost use Rattle.rules.specs.Calls.{reported};
ghost use Rattle.packed.specs.Packed.{state_byte, joined, packed, sector_of, last_number};

use rules::{Answer, Stop};
use state::State;

// In place of a state where the answer carries none.
const NO_STATE: u32 = 255;

// In place of a sector where the updater remembers none.
pub const NO_SECTOR: u32 = u32::MAX;

// The states stand in the order of their numbers.
#[tactic(auto, unfolding(state::specs::Magic::state_number))]
pub fn state_number(s: State) -> u32
    ensures { (result ≡ state_number s) × (result ≤ 3) }
{
    s as u32
}

// Three numbers in one. The two bounds are what makes it fit 64 bits.
fn join(number: u32, state: u32, count: u32) -> u64
    requires { (number ≤ 15) × (state ≤ 255) }
    ensures { result ≡ joined number state count }
{
    number as u64 * 0x100_0000_0000 + state as u64 * 0x1_0000_0000 + count as u64
}

// A state, or what stands in its place.
#[tactic(auto, unfolding(crate::specs::Packed::state_byte))]
fn state_byte(state: Option<State>) -> u32
    ensures value { result ≡ state_byte state }
    ensures low { result ≤ 255 }
{
    match state {
        Some(s) => state_number(s),
        None => NO_STATE,
    }
}

// Why a call was not done.
fn pack_stop(stop: Stop) -> u64
    ensures { result ≡ packed (reported (Err stop)) }
{
    match stop {
        Stop::Refused(why) => join(why.number(), NO_STATE, 0),
        Stop::Cut(n) => join(7, NO_STATE, n),
    }
}

pub fn pack(answer: Answer) -> u64
    ensures { result ≡ packed (reported answer) }
{
    match answer {
        Ok(done) => join(0, state_byte(done.state), done.count),
        Err(stop) => pack_stop(stop),
    }
}

// C has one number for it, so no `From`. A number that is no sector of the area is taken as it is: it equals no sector in use, so it counts as another one.
pub fn sector(last: u32) -> Option<usize>
    ensures { result ≡ sector_of last }
{
    if last == NO_SECTOR {
        return None;
    }
    Some(last as usize)
}

pub fn last_number(memory: Option<usize>) -> u32
    ensures { result ≡ last_number memory }
{
    match memory {
        None => NO_SECTOR,
        Some(s) => geometry::least(s, NO_SECTOR as usize) as u32,
    }
}
