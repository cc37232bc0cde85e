// What the updater is made of: the verdicts of its calls, the copy of read_dfu and the pieces of write_firmware.
// An inner layer: nothing outside calls it but the updater, whose proof meets what these functions ask (`requires`).
#![tactic(auto)]

ghost use Rattle.std.specs.Prelude.{◌≡◌, false, not, length};
ghost use Rattle.geometry.specs.Refusals.{verdict, updater_refusal};
ghost use Rattle.rules.specs.FirmwareUpdater.{pending, bad_range};

pub mod pieces;
pub mod range;

use geometry::{Offset, Refusal, Sizes, StateSizes};
use state::State;

// No swap is pending, so the running firmware is one to go back to.
fn verify_booted(z: StateSizes, state: &[u8]) -> bool
    ensures { result ≡ not (pending z state.now) }
{
    // An arm for each state and no `!=`, so that each can be asked about: the edits swap_is_booted and detached_not_booted do.
    match state_area::read(state, z) {
        State::Swap => false,
        State::Boot => true,
        State::Revert => true,
        State::DfuDetach => true,
    }
}

// Rows 1 to 5 of the table.
pub fn booted_verdict(sizes: Sizes, ld: usize, state: &[u8]) -> Result<(), Refusal>
    ensures { verdict result ≡ updater_refusal sizes ld (length state.now) (pending sizes.state state.now) false }
{
    verdicts::updater_verdict(sizes, ld, state.len())?;
    if !verify_booted(sizes.state, state) {
        return Err(Refusal::BadState);
    }
    Ok(())
}

// Rows 1 to 6 for n bytes of data at an offset.
pub fn write_verdict(
    sizes: Sizes,
    ld: usize,
    state: &[u8],
    offset: Offset,
    n: usize,
) -> Result<(), Refusal>
    ensures { verdict result ≡ updater_refusal sizes ld (length state.now) (pending sizes.state state.now) (bad_range sizes.wd ld offset.0 n) }
{
    booted_verdict(sizes, ld, state)?;
    if range::bad_range(sizes.wd as usize, ld, offset, n) {
        return Err(Refusal::Range);
    }
    Ok(())
}
