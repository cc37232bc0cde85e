// Row 6 of the table, and the copy of read_dfu.
ghost use Rattle.std.specs.Prelude.{◌≡◌, ◌+◌, ◌≤◌, ◌<◌, length, take, drop};
ghost use Rattle.rules.specs.FirmwareUpdater.{past_end, bad_range};

use geometry::Offset;

// Whether n bytes at an offset run past the end of ld bytes. No sum is made, so none wraps.
#[tactic(auto, using(std::proofs::lemmas::Bool::Decides::nat_tests), unfolding(rules::specs::FirmwareUpdater::past_end))]
pub fn past_end(ld: usize, offset: Offset, n: usize) -> bool
    ensures { result ≡ past_end ld offset.0 n }
{
    ld < n || ld - n < offset.0
}

// Whether data of n bytes may not be written at an offset. Empty data may, anywhere.
#[tactic(auto, using(std::proofs::lemmas::Bool::Decides::nat_tests), unfolding(rules::specs::FirmwareUpdater::bad_range, geometry::specs::Refusals::any, geometry::specs::Refusals::uneven, state::specs::Choice::pick))]
pub(crate) fn bad_range(wd: usize, ld: usize, offset: Offset, n: usize) -> bool
    requires { 0 < wd }
    ensures { result ≡ bad_range wd ld offset.0 n }
{
    n != 0 && (offset.0 % wd != 0 || n % wd != 0 || past_end(ld, offset, n))
}

// Fills the buffer with the bytes from an offset on.
pub fn copy_out(buf: &mut [u8], source: &[u8], from: Offset)
    requires { from.0 + length buf.old ≤ length source.now }
    ensures { buf.new ≡ take (length buf.old) (drop from.0 source.now) }
{
    // Not by copy_from_slice, of which the compiler makes a call of memmove: nothing else of the archive for C wants that name.
    for (i, byte) in buf.iter_mut().enumerate() {
        *byte = source[from.0 + i];
    }
}
