// The updater's mark with a checked sum (02, No. 7), with the answer packed into one number. The C boundary hands it out, with the sizes as
// numbers in a row.
#![tactic(auto)]

ghost use Rattle.std.specs.Prelude.{◌≡◌, []};
ghost use Rattle.mem_flash.specs.Run.{flash};
ghost use Rattle.rules.specs.FirmwareUpdater.{check_and_mark_updated};
ghost use Rattle.packed.specs.Told.{Told};

use firmware_updater::BlockingFirmwareUpdater;
use geometry::Sizes;

// The next boot swaps the images, if the first `length` bytes of DFU have this sum.
pub fn check_and_mark_updated(
    dfu: &[u8],
    state: &mut [u8],
    sizes: Sizes,
    length: u64,
    crc: u32,
    budget: u32,
) -> u64
    ensures { Told (check_and_mark_updated sizes length crc (flash [] dfu.now state.old)) budget
        (flash [] dfu.now state.old) (flash [] dfu.now state.new) result }
{
    let updater = BlockingFirmwareUpdater::new(sizes);
    packed::pack(updater.check_and_mark_updated(dfu, state, length as usize, crc, budget))
}
