// The verdict of check_and_mark_updated (02, No. 7): the updater's rows, and the sum of the bytes after them.
// An inner layer: nothing outside calls it but the updater.
#![tactic(auto)]

ghost use Rattle.std.specs.Prelude.{◌≡◌, length};
ghost use Rattle.geometry.specs.Refusals.{verdict, checked_refusal};
ghost use Rattle.rules.specs.FirmwareUpdater.{pending, past_end, wrong_sum};

use geometry::{Offset, Refusal, Sizes};

// Rows 1 to 6 and 8 for the first n bytes of DFU, which are a slice only once row 6 is judged. No byte is read before the other rows
// have passed, and each is read once.
pub fn check_verdict(
    sizes: Sizes,
    dfu: &[u8],
    state: &[u8],
    n: usize,
    crc: u32,
) -> Result<(), Refusal>
    ensures { verdict result ≡ checked_refusal sizes (length dfu.now) (length state.now) (pending sizes.state state.now)
        (past_end (length dfu.now) 0 n) (wrong_sum n crc dfu.now) }
{
    firmware_pieces::booted_verdict(sizes, dfu.len(), state)?;
    if firmware_pieces::range::past_end(dfu.len(), Offset(0), n) {
        return Err(Refusal::Range);
    }
    if crc32::sum(dfu, n) != crc {
        return Err(Refusal::Checksum);
    }
    Ok(())
}
