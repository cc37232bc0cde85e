// The updater's calls that know the state area alone, with the answer packed into one number. The C boundary hands them out, with the
// sizes as numbers in a row.
#![tactic(auto)]

ghost use Rattle.std.specs.Prelude.{◌≡◌, []};
ghost use Rattle.mem_flash.specs.Run.{flash};
ghost use Rattle.rules.specs.Calls.{report};
ghost use Rattle.rules.specs.FirmwareUpdater.{updater_get_state, updater_mark_updated, updater_mark_dfu, updater_mark_booted};
ghost use Rattle.packed.specs.Packed.{packed};
ghost use Rattle.packed.specs.Told.{Told};

use firmware_updater::BlockingFirmwareUpdater;
use geometry::Sizes;

pub fn get_state(dfu: &[u8], state: &[u8], sizes: Sizes) -> u64
    ensures { result ≡ packed (report (updater_get_state sizes (flash [] dfu.now state.now)) 0) }
{
    packed::pack(BlockingFirmwareUpdater::new(sizes).get_state(dfu, state))
}

// The next boot swaps the images.
pub fn mark_updated(dfu: &[u8], state: &mut [u8], sizes: Sizes, budget: u32) -> u64
    ensures { Told (updater_mark_updated sizes (flash [] dfu.now state.old)) budget
        (flash [] dfu.now state.old) (flash [] dfu.now state.new) result }
{
    packed::pack(BlockingFirmwareUpdater::new(sizes).mark_updated(dfu, state, budget))
}

// The next boot starts the USB update. Not while a swap is pending.
pub fn mark_dfu(dfu: &[u8], state: &mut [u8], sizes: Sizes, budget: u32) -> u64
    ensures { Told (updater_mark_dfu sizes (flash [] dfu.now state.old)) budget
        (flash [] dfu.now state.old) (flash [] dfu.now state.new) result }
{
    packed::pack(BlockingFirmwareUpdater::new(sizes).mark_dfu(dfu, state, budget))
}

// The new firmware is confirmed.
pub fn mark_booted(dfu: &[u8], state: &mut [u8], sizes: Sizes, budget: u32) -> u64
    ensures { Told (updater_mark_booted sizes (flash [] dfu.now state.old)) budget
        (flash [] dfu.now state.old) (flash [] dfu.now state.new) result }
{
    packed::pack(BlockingFirmwareUpdater::new(sizes).mark_booted(dfu, state, budget))
}
