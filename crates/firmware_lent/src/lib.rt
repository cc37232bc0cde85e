// The updater's record lent by `&mut` and changed in place: the form of the Rust, which the rules ask for beside the other, over the calls
// that take the record by value. Each call copies the record, makes the call of the same name and stores the record that it hands back; a
// call that hands none back leaves the record as it is. The functions are free since methods stand in their type's own crate.
#![tactic(auto)]

ghost use Rattle.std.specs.Prelude.{◌≡◌, [], length};
ghost use Rattle.mem_flash.specs.Run.{flash};
ghost use Rattle.rules.specs.Calls.{reported, report};
ghost use Rattle.rules.specs.FirmwareUpdater.{updater_get_state, updater_mark_updated, updater_mark_dfu, updater_mark_booted, check_and_mark_updated, read_dfu, read_out};
ghost use Rattle.firmware_hash.specs.Hash.{Hashed};
ghost use Rattle.firmware_updater.specs.Updated.{Marked, WroteFirmware, PreparedUpdate};

use firmware_updater::BlockingFirmwareUpdater;
use geometry::Offset;
use rules::Answer;

pub fn get_state_in(updater: &mut BlockingFirmwareUpdater, dfu: &[u8], state: &[u8]) -> Answer
    ensures answer { reported result ≡ report (updater_get_state updater.old.sizes (flash [] dfu.now state.now)) 0 }
    ensures kept { updater.new ≡ updater.old }
{
    updater.get_state(dfu, state)
}

pub fn read_dfu_in(
    updater: &mut BlockingFirmwareUpdater,
    dfu: &[u8],
    state: &[u8],
    offset: Offset,
    buf: &mut [u8],
) -> Answer
    ensures answer { reported result ≡ report (read_dfu updater.old.sizes offset.0 (length buf.old) (flash [] dfu.now state.now)) 0 }
    ensures buffer { buf.new ≡ read_out updater.old.sizes offset.0 buf.old (flash [] dfu.now state.now) }
    ensures kept { updater.new ≡ updater.old }
{
    updater.read_dfu(dfu, state, offset, buf)
}

pub fn mark_updated_in(
    updater: &mut BlockingFirmwareUpdater,
    dfu: &[u8],
    state: &mut [u8],
    budget: u32,
) -> Answer
    ensures marked { Marked (updater_mark_updated updater.old.sizes) budget dfu.now state.old state.new result }
    ensures kept { updater.new ≡ updater.old }
{
    updater.mark_updated(dfu, state, budget)
}

pub fn check_and_mark_updated_in(
    updater: &mut BlockingFirmwareUpdater,
    dfu: &[u8],
    state: &mut [u8],
    n: usize,
    crc: u32,
    budget: u32,
) -> Answer
    ensures marked { Marked (check_and_mark_updated updater.old.sizes n crc) budget dfu.now state.old state.new result }
    ensures kept { updater.new ≡ updater.old }
{
    updater.check_and_mark_updated(dfu, state, n, crc, budget)
}

pub fn mark_dfu_in(
    updater: &mut BlockingFirmwareUpdater,
    dfu: &[u8],
    state: &mut [u8],
    budget: u32,
) -> Answer
    ensures marked { Marked (updater_mark_dfu updater.old.sizes) budget dfu.now state.old state.new result }
    ensures kept { updater.new ≡ updater.old }
{
    updater.mark_dfu(dfu, state, budget)
}

pub fn mark_booted_in(
    updater: &mut BlockingFirmwareUpdater,
    dfu: &[u8],
    state: &mut [u8],
    budget: u32,
) -> Answer
    ensures marked { Marked (updater_mark_booted updater.old.sizes) budget dfu.now state.old state.new result }
    ensures kept { updater.new ≡ updater.old }
{
    updater.mark_booted(dfu, state, budget)
}

pub fn write_firmware_in(
    updater: &mut BlockingFirmwareUpdater,
    dfu: &mut [u8],
    state: &[u8],
    offset: Offset,
    data: &[u8],
    budget: u32,
) -> Answer
    ensures { WroteFirmware updater.old budget offset.0 «data».now dfu.old state.now dfu.new updater.new result }
{
    let wrote = updater.write_firmware(dfu, state, offset, data, budget);
    *updater = wrote.updater;
    wrote.answer
}

pub fn prepare_update_in(
    updater: &mut BlockingFirmwareUpdater,
    dfu: &mut [u8],
    state: &[u8],
    budget: u32,
) -> Answer
    ensures { PreparedUpdate updater.old budget dfu.old state.now dfu.new updater.new result }
{
    let prepared = updater.prepare_update(dfu, state, budget);
    *updater = prepared.updater;
    prepared.answer
}

pub fn hash_in(
    updater: &mut BlockingFirmwareUpdater,
    dfu: &[u8],
    state: &[u8],
    len: usize,
    chunk: usize,
    out: &mut [u8],
) -> Answer
    ensures hashed { Hashed updater.old.sizes len chunk out.old out.new (flash [] dfu.now state.now) result }
    ensures kept { updater.new ≡ updater.old }
{
    updater.hash(dfu, state, len, chunk, out)
}
