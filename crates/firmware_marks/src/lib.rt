// What the six calls that mark share, those of the firmware state and those of the updater: the refusal as it was judged, else the magic.
// An inner layer: each of the six judges for itself, and hands its verdict in.
#![tactic(auto)]

ghost use Rattle.std.specs.Prelude.{◌≡◌, List, ℕ};
ghost use Rattle.std.specs.Prelude.{None};
ghost use Rattle.state.specs.Magic.{magic};
ghost use Rattle.geometry.specs.Refusals.{verdict};
ghost use Rattle.mem_flash.specs.Run.{flash};
ghost use Rattle.rules.specs.Calls.{Call, Did};
ghost use Rattle.rules.specs.FirmwareState.{set_magic_ops};
ghost use Rattle.state_area.specs.Area.{InState};

use geometry::{Refusal, StateSizes};
use mem_flash::{Budget, PowerCut};
use rules::{Answer, Done, Stop};
use state::State;

pub fn mark(
    z: StateSizes,
    state: &mut [u8],
    s: State,
    judged: Result<(), Refusal>,
    budget: u32,
) -> Answer
    ensures { (c : Call) (a d : List ℕ) → verdict judged ≡ c.refusal → c.state ≡ None → c.ops ≡ set_magic_ops z (magic s) state.old
        → Did c budget (flash a d state.old) (flash a d state.new) result }
{
    judged?;
    // An arm for each end and no `rules::answer`, so that each can be asked about: the edits cut_is_done and done_is_cut do.
    match set_magic(z, state, s.magic(), Budget(budget)) {
        Ok(left) => Ok(Done {
            state: None,
            count: budget - left.0,
        }),
        Err(PowerCut) => Err(Stop::Cut(budget)),
    }
}

// The magic and an erased area, by way of an invalid progress: a cut on the way leaves no progress that counts.
fn set_magic(z: StateSizes, state: &mut [u8], magic: u8, left: Budget) -> Result<Budget, PowerCut>
    ensures { InState left.0 (set_magic_ops z magic state.old) state.old state.new result }
{
    if state_area::magic_is(state, z, magic) {
        return Ok(left);
    }
    if state_area::is_valid(state, z) {
        let rest = state_area::invalidate(state, z, left)?;
        return state_area::renew(state, z, magic, rest);
    }
    state_area::renew(state, z, magic, left)
}
