// Flash in memory: mem_flash.rs, with a budget that erases count against too, and writes that turn bits one way only, as the cells do.
// A range that runs past the end of an area changes the bytes that are there, so nothing is asked of the caller.
#![tactic(auto)]

ghost use Rattle.std.specs.Prelude.{IfOk, OnErr, ◌≡◌, ℕ, ◌+◌, ◌-◌, ◌≤◌, ◌<◌, min, List, length, replicate};
ghost use Rattle.state.specs.declared.Cell.{Cell as Cells};
ghost use Rattle.state.specs.Cells.{erased, marked, programmed};
ghost use Rattle.mem_flash.specs.Flash.{program, erase_ops};
ghost use Rattle.mem_flash.specs.Run.{InArea, unit_op, write_ops};
ghost use Rattle.mem_flash.specs.Given.{Gives};

use geometry::Offset;
use state::Cell;
use std::ops::Range;

// The operations that may still be done. It is handed in and back: an operation answers with what is left of it, and nobody can keep one
// that was spent.
#[derive(Debug, Drop, PartialEq, Eq)]
pub struct Budget(pub u32);

// An operation was wanted when none was left: the power is cut, and the operation changed nothing.
#[derive(Clone, Copy, Debug, PartialEq, Eq)]
pub struct PowerCut;

impl Budget {
    // One operation is done.
    fn spend(self) -> Result<Budget, PowerCut>
        ensures ok { IfOk result (λ rest. rest.0 + 1 ≡ self.0) }
        ensures err { OnErr result (self.0 ≡ 0) }
    {
        self.0.checked_sub(1).map(Budget).ok_or(PowerCut)
    }
}

// The bytes of an area of `room` bytes that `len` bytes from an offset on are: those past its end are passed over.
fn within(from: Offset, len: usize, room: usize) -> Range<usize>
    ensures start { result.start ≡ min from.0 room }
    ensures end { result.end ≡ result.start + min len (room - result.start) }
{
    let start = geometry::least(from.0, room);
    start..start + geometry::least(len, room - start)
}

// What a write leaves of a byte, by what a mark would be: old AND new where that is 00, old OR new where it is FF. Which of the two
// is decided once, and not at every byte.
fn merged(old: u8, new: u8, mark: u8) -> u8
    ensures { (c : Cells) → mark ≡ marked c → result ≡ programmed c old new }
{
    (old & (new | mark)) | (new & mark)
}

// Sets each byte of a part to `value`. No `fill`: it stores the last byte by itself, behind the others, and where units are small a
// tenth more instructions go there.
fn set_all(part: &mut [u8], value: u8)
    ensures { part.new ≡ replicate (length part.old) value }
{
    for byte in part.iter_mut() {
        *byte = value;
    }
}

// Erases one unit: one operation.
fn erase_unit(
    area: &mut [u8],
    from: Offset,
    unit: usize,
    cell: Cell,
    left: Budget,
) -> Result<Budget, PowerCut>
    ensures { InArea left.0 (unit_op cell from.0 unit) area.old area.new result }
{
    let rest = left.spend()?;
    let range = within(from, unit, area.len());
    set_all(&mut area[range], cell.erased());
    Ok(rest)
}

// Erases the bytes from one offset up to another, unit by unit: each unit is one operation. Units of no bytes are none.
pub fn erase(
    area: &mut [u8],
    from: Offset,
    to: Offset,
    unit: usize,
    cell: Cell,
    left: Budget,
) -> Result<Budget, PowerCut>
    ensures { InArea left.0 (λ a. erase_ops cell unit a from.0 (to.0 - from.0)) area.old area.new result }
{
    // No saturating difference: of this one the compiler sees that one unit is one, and doesn't divide for it.
    let Some(len) = to.0.checked_sub(from.0) else {
        return Ok(left);
    };
    let count = len.checked_div(unit).unwrap_or(0);
    let mut still = left;
    for i in 0..count {
        still = erase_unit(area, Offset(from.0 + i * unit), unit, cell, still)?;
    }
    Ok(still)
}

// Writes one byte over each of a part of an area, the one at i as `byte` says.
fn program<F: Fn(usize) -> u8>(part: &mut [u8], byte: F, mark: u8)
    requires { (i : ℕ) → i < length part.old → F.pre byte i }
    ensures { (c : Cells) (bs : List ℕ) → mark ≡ marked c → length part.old ≤ length bs → Gives (F.post byte) (length part.old) bs → part.new ≡ program c part.old bs }
{
    for (i, old) in part.iter_mut().enumerate() {
        *old = merged(*old, byte(i), mark);
    }
}

// Writes `len` bytes at an offset, the one at i as `byte` says: one operation.
fn write_by<F: Fn(usize) -> u8>(
    area: &mut [u8],
    offset: Offset,
    len: usize,
    byte: F,
    cell: Cell,
    left: Budget,
) -> Result<Budget, PowerCut>
    requires { (i : ℕ) → i < len → F.pre byte i }
    ensures { (bs : List ℕ) → length bs ≡ len → Gives (F.post byte) len bs → InArea left.0 (write_ops cell offset.0 bs) area.old area.new result }
{
    let rest = left.spend()?;
    let range = within(offset, len, area.len());
    program(&mut area[range], byte, cell.marked());
    Ok(rest)
}

// Writes bytes at an offset: one operation.
pub fn write(
    area: &mut [u8],
    offset: Offset,
    bytes: &[u8],
    cell: Cell,
    left: Budget,
) -> Result<Budget, PowerCut>
    ensures { InArea left.0 (write_ops cell offset.0 bytes.now) area.old area.new result }
{
    write_by(area, offset, bytes.len(), |i| bytes[i], cell, left)
}

// Writes one value over the `len` bytes of a word: one operation. The Rust fills a buffer for it.
pub fn write_word(
    area: &mut [u8],
    offset: Offset,
    value: u8,
    len: usize,
    cell: Cell,
    left: Budget,
) -> Result<Budget, PowerCut>
    ensures { InArea left.0 (write_ops cell offset.0 (replicate len value)) area.old area.new result }
{
    write_by(area, offset, len, |_| value, cell, left)
}
