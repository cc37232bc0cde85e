// What a boot does: the task that its plan gives it. The `Geometry` is by value where the Rust has self. A layer within the boot
// loader: only `boot_loader` calls it, and its proof meets what these functions ask. The areas are lent as in `boot_steps`.
#![tactic(auto)]

ghost use Rattle.std.specs.Prelude.{◌≡◌, ◌++◌, ◌*◌, ◌≤◌, length};
ghost use Rattle.geometry.specs.Geometry.{pages};
ghost use Rattle.geometry.specs.Admitted.{Admitted};
ghost use Rattle.mem_flash.specs.Run.{Ran, flash};
ghost use Rattle.rules.specs.StateArea.{progress};
ghost use Rattle.rules.specs.Steps.{revert_ops};
ghost use Rattle.rules.specs.Boot.{finish_ops, boot_ops_in};

use geometry::Geometry;
use mem_flash::{Budget, PowerCut};
use rules::Task;
use state::State;

// What there is to do in the state that was found. A confirmation that was cut is finished, and no copy is made: the Rust knows no such
// case.
pub fn perform(
    found: State,
    g: Geometry,
    active: &mut [u8],
    dfu: &mut [u8],
    state: &mut [u8],
    left: Budget,
) -> Result<Budget, PowerCut>
    requires { Admitted g (length active.old) (length dfu.old) (length state.old) }
    ensures { Ran left.0
        (boot_ops_in found g (flash active.old dfu.old state.old))
        (flash active.old dfu.old state.old)
        (flash active.new dfu.new state.new) result }
{
    let page_count = active.len() / g.page_size();
    match boot_plan::task(found, state, g.state, page_count) {
        Task::Nothing => Ok(left),
        Task::Confirm => state_area::renew(state, g.state, State::BOOT_MAGIC, left),
        Task::Swap(next) => boot_steps::swap(g, active, dfu, state, next, left),
        Task::Revert(next) => revert_to_end(g, active, dfu, state, next, left),
    }
}

// Undoes the swap from a step on, and leaves the Revert magic.
fn revert_to_end(
    g: Geometry,
    active: &mut [u8],
    dfu: &mut [u8],
    state: &mut [u8],
    next: usize,
    left: Budget,
) -> Result<Budget, PowerCut>
    requires { Admitted g (length active.old) (length dfu.old) (length state.old) × (next ≡ progress g.state state.old) × (2 * pages g (length active.old) ≤ next) }
    ensures { Ran left.0
        (revert_ops g (flash active.old dfu.old state.old) ++ finish_ops g (flash active.old dfu.old state.old))
        (flash active.old dfu.old state.old)
        (flash active.new dfu.new state.new) result }
{
    let second = boot_steps::revert(g, active, dfu, state, next, left)?;
    let third = state_area::invalidate(state, g.state, second)?;
    state_area::renew(state, g.state, State::REVERT_MAGIC, third)
}
