// The firmware state's calls with the answer packed into one number; and a state by its number. The C boundary hands them out, with the
// sizes as numbers in a row.
#![tactic(auto)]

ghost use Rattle.std.specs.Prelude.{◌≡◌, []};
ghost use Rattle.state.specs.declared.State.{State};
ghost use Rattle.state.specs.Magic.{state_number, state_of};
ghost use Rattle.mem_flash.specs.Run.{flash};
ghost use Rattle.rules.specs.Calls.{report};
ghost use Rattle.rules.specs.Boot.{get_state};
ghost use Rattle.rules.specs.FirmwareState.{mark};
ghost use Rattle.packed.specs.Packed.{packed};
ghost use Rattle.packed.specs.Told.{Told};

use firmware_state::BlockingFirmwareState;
use geometry::StateSizes;
use state::State;

pub fn get_state(state: &[u8], sizes: StateSizes) -> u64
    ensures { result ≡ packed (report (get_state sizes state.now) 0) }
{
    packed::pack(BlockingFirmwareState::new(sizes).get_state(state))
}

// The next boot swaps the images.
pub fn mark_updated(state: &mut [u8], sizes: StateSizes, budget: u32) -> u64
    ensures { Told (mark State.Swap sizes state.old) budget (flash [] [] state.old) (flash [] [] state.new) result }
{
    packed::pack(BlockingFirmwareState::new(sizes).mark_updated(state, budget))
}

// The next boot starts the USB update.
pub fn mark_dfu(state: &mut [u8], sizes: StateSizes, budget: u32) -> u64
    ensures { Told (mark State.DfuDetach sizes state.old) budget (flash [] [] state.old) (flash [] [] state.new) result }
{
    packed::pack(BlockingFirmwareState::new(sizes).mark_dfu(state, budget))
}

// The new firmware is confirmed: the next boot does not undo the swap.
pub fn mark_booted(state: &mut [u8], sizes: StateSizes, budget: u32) -> u64
    ensures { Told (mark State.Boot sizes state.old) budget (flash [] [] state.old) (flash [] [] state.new) result }
{
    packed::pack(BlockingFirmwareState::new(sizes).mark_booted(state, budget))
}

// The state of a word, by its number.
pub fn state_from(bytes: &[u8]) -> u32
    ensures { result ≡ state_number (state_of bytes.now) }
{
    packed::state_number(State::from(bytes))
}
