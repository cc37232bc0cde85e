// The updater's hash, with the answer packed into one number. The C boundary hands it out, with the sizes as numbers in a row.
#![tactic(auto)]

ghost use Rattle.std.specs.Prelude.{[]};
ghost use Rattle.mem_flash.specs.Run.{flash};
ghost use Rattle.boundary_hash.specs.Told.{ToldHash};

use firmware_updater::BlockingFirmwareUpdater;
use geometry::Sizes;

// The SHA-512 of the first bytes of DFU, taken in pieces of `chunk` bytes, into 64 bytes.
pub fn hash(dfu: &[u8], state: &[u8], sizes: Sizes, len: u64, chunk: u64, out: &mut [u8]) -> u64
    ensures { ToldHash sizes len chunk out.old out.new (flash [] dfu.now state.now) result }
{
    let updater = BlockingFirmwareUpdater::new(sizes);
    let answer = updater.hash(dfu, state, len as usize, chunk as usize, out);
    packed::pack(answer)
}
