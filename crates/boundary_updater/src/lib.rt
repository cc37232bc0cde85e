// The updater's calls that read or change DFU, with the memory as a number that the caller keeps and the answer packed into one number.
// The C boundary hands them out, with the sizes as numbers in a row.
#![tactic(auto)]

ghost use Rattle.std.specs.Prelude.{◌≡◌, []};
ghost use Rattle.mem_flash.specs.Run.{flash};
ghost use Rattle.rules.specs.FirmwareUpdater.{prepare_update};
ghost use Rattle.packed.specs.Told.{Told, ToldRead, ToldWrite};

use firmware_updater::BlockingFirmwareUpdater;
use geometry::{Offset, Sizes};

// Fills `out` with the bytes of DFU from an offset on.
pub fn read_dfu(dfu: &[u8], state: &[u8], sizes: Sizes, offset: Offset, out: &mut [u8]) -> u64
    ensures { ToldRead sizes offset.0 out.old out.new (flash [] dfu.now state.now) result }
{
    packed::pack(BlockingFirmwareUpdater::new(sizes).read_dfu(dfu, state, offset, out))
}

// Writes data at an offset of DFU, sector by sector. Not while a swap is pending. The memory is the caller's, in `last`.
pub fn write_firmware(
    dfu: &mut [u8],
    state: &[u8],
    sizes: Sizes,
    offset: Offset,
    data: &[u8],
    last: &mut u32,
    budget: u32,
) -> u64
    ensures { ToldWrite sizes budget offset.0 «data».now last.old last.new
        (flash [] dfu.old state.now) (flash [] dfu.new state.now) result }
{
    let memory = packed::sector(*last);
    let updater = BlockingFirmwareUpdater {
        sizes,
        last_erased_dfu_sector_index: memory,
    };
    let written = updater.write_firmware(dfu, state, offset, data, budget);
    *last = packed::last_number(written.updater.last_erased_dfu_sector_index);
    packed::pack(written.answer)
}

// Erases all of DFU. Not while a swap is pending. The memory isn't touched, so it isn't asked for.
pub fn prepare_update(dfu: &mut [u8], state: &[u8], sizes: Sizes, budget: u32) -> u64
    ensures { Told (prepare_update sizes (flash [] dfu.old state.now)) budget
        (flash [] dfu.old state.now) (flash [] dfu.new state.now) result }
{
    let written = BlockingFirmwareUpdater::new(sizes).prepare_update(dfu, state, budget);
    packed::pack(written.answer)
}
