// The loop of write_firmware: the data piece by piece, each within one sector.
ghost use Rattle.std.specs.Prelude.{◌≡◌, ◌+◌, ◌*◌, ◌/◌, ◌%◌, ◌≤◌, ◌<◌, min, length, IfOk, Some};
ghost use Rattle.rules.specs.FirmwareUpdater.{room, pieces, pieces_ops};
ghost use Rattle.firmware_pieces.specs.Wrote.{piece_ops, WroteBy};

use geometry::Offset;
use mem_flash::{Budget, PowerCut};
use state::Cell;

// One piece: its sector is erased unless it is the one last erased, and remembered once the erase is done.
fn write_piece(
    dfu: &mut [u8],
    ed: usize,
    cell: Cell,
    last: &mut Option<usize>,
    offset: Offset,
    piece: &[u8],
    left: Budget,
) -> Result<Budget, PowerCut>
    requires unit_some { 0 < ed }
    requires sector_in { offset.0 / ed * ed + ed ≤ length dfu.old }
    ensures wrote { WroteBy left.0 ed (piece_ops cell ed last.old offset.0 piece.now) last.old last.new dfu.old dfu.new result }
    ensures ok { IfOk result (λ _. last.new ≡ Some (offset.0 / ed)) }
{
    let sector = offset.0 / ed;
    let mut rest = left;
    if *last != Some(sector) {
        let start = sector * ed;
        rest = mem_flash::erase(dfu, Offset(start), Offset(start + ed), ed, cell, rest)?;
        *last = Some(sector);
    }
    mem_flash::write(dfu, offset, piece, cell, rest)
}

// The bytes from an offset up to its sector's end, or to the end of the data.
#[tactic(auto, unfolding(rules::specs::FirmwareUpdater::room))]
fn piece_length(ed: usize, offset: Offset, rest: usize) -> usize
    requires unit_some { 0 < ed }
    requires rest_some { 0 < rest }
    ensures least { result ≡ min rest (room ed offset.0) }
    ensures some { 0 < result }
    ensures within { result ≤ rest }
{
    rest.min(ed - offset.0 % ed)
}

// All pieces of the data, until a cut. The first is as short as what its sector has left, so they are no chunks of one length. `ed` and
// `cell` stand alone: a `Sizes` holds its erase size as a u32, which would ask more of a caller, and a `NonZero` would be undone at each use.
pub fn write_pieces(
    dfu: &mut [u8],
    ed: usize,
    cell: Cell,
    last: &mut Option<usize>,
    offset: Offset,
    data: &[u8],
    left: Budget,
) -> Result<Budget, PowerCut>
    requires unit_some { 0 < ed }
    requires whole_units { length dfu.old % ed ≡ 0 }
    requires data_in { 0 < length «data».now → offset.0 + length «data».now ≤ length dfu.old }
    ensures { WroteBy left.0 ed (pieces_ops cell ed last.old (pieces ed offset.0 «data».now)) last.old last.new dfu.old dfu.new result }
{
    let mut at = offset.0;
    let mut rest = data;
    let mut still = left;
    while !rest.is_empty() {
        let n = piece_length(ed, Offset(at), rest.len());
        let (piece, more) = rest.split_at(n);
        still = write_piece(dfu, ed, cell, last, Offset(at), piece, still)?;
        at += n;
        rest = more;
    }
    Ok(still)
}
