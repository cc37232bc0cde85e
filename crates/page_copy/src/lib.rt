// The copy of a page from one image to another, whichever the two are: what copy_page_once_to_active and copy_page_once_to_dfu of
// boot_loader.rs share. A layer within the boot loader: only `boot_steps` calls it, and its proof meets what these functions ask.
#![tactic(auto)]

ghost use Rattle.std.specs.Prelude.{◌≡◌, ◌+◌, ◌*◌, ◌/◌, ◌≤◌, ◌<◌, ◌^◌, length};
ghost use Rattle.geometry.specs.Geometry.{cell, page};
ghost use Rattle.mem_flash.specs.Run.{InArea};
ghost use Rattle.rules.specs.Steps.{chunk_ops, fill_ops};
ghost use Rattle.page_copy.specs.Room.{Room};

use geometry::{Geometry, Offset, Page};
use mem_flash::{Budget, PowerCut};
use state::Cell;

// Erases a page, by the erase units of its image, and writes it from the other image.
pub fn copy_page(
    g: Geometry,
    target: &mut [u8],
    to: Page,
    unit: usize,
    source: &[u8],
    from: Page,
    left: Budget,
) -> Result<Budget, PowerCut>
    requires { Room g from.0 (length source.now) to.0 (length target.old) }
    ensures { InArea left.0 (fill_ops (cell g.state) unit (page g) g.b (to.0 * page g) (from.0 * page g) source.now) target.old target.new result }
{
    let p = g.page_size();
    let b = g.b as usize;
    let cell = g.state.cell();
    let start = to.offset(p);
    let end = Offset(start.0 + p);
    let rest = mem_flash::erase(target, start, end, unit, cell, left)?;
    let first = from.offset(p).0;
    copy_chunks(target, start, &source[first..first + p], b, cell, rest)
}

// Writes a page in chunks of b bytes each, straight from the other image: no buffer stands between them.
fn copy_chunks(
    target: &mut [u8],
    to: Offset,
    page: &[u8],
    b: usize,
    cell: Cell,
    left: Budget,
) -> Result<Budget, PowerCut>
    requires chunk { 0 < b }
    requires room { to.0 + length page.now ≤ length target.old }
    ensures { InArea left.0 (λ a. chunk_ops cell (length page.now / b) a to.0 0 b page.now) target.old target.new result }
{
    let mut still = left;
    for (i, chunk) in page.chunks_exact(b).enumerate() {
        still = mem_flash::write(target, Offset(to.0 + i * b), chunk, cell, still)?;
    }
    Ok(still)
}
