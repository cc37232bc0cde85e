// The steps of a swap and of a revert, by their numbers: boot_loader.rs, its page copies and the loops over them, with the `Geometry`
// by value where the Rust has self. A layer within the boot loader: only `boot_choice` calls it, and its proof meets what these
// functions ask.
// The three areas are lent side by side: a struct that holds them would owe in each function that its fields keep their references. And
// they are lent with any lengths, with `Admitted` as what is asked, since docs/ARCHITECTURE names `swap` and `revert`, which take so.
#![tactic(auto)]

ghost use Rattle.std.specs.Prelude.{◌≡◌, ◌+◌, ◌*◌, ◌≤◌, ◌<◌, ◌^◌, length};
ghost use Rattle.std.proofs.Math.Seq.{slice};
ghost use Rattle.geometry.specs.Geometry.{pages};
ghost use Rattle.geometry.specs.Admitted.{Admitted};
ghost use Rattle.mem_flash.specs.Run.{Ran, flash};
ghost use Rattle.rules.specs.StateArea.{progress};
ghost use Rattle.rules.specs.Steps.{all_steps, step_at, copy_ops, copies_ops, swap_ops, revert_ops};
ghost use Rattle.boot_steps.specs.Step.{StepRoom, Marked, Stepped};

use boot_plan::{Direction, PageCopy};
use geometry::{Geometry, Word};
use mem_flash::{Budget, PowerCut};

// Marks a step as done.
fn update_progress(
    g: Geometry,
    state: &mut [u8],
    mark: Word,
    left: Budget,
) -> Result<Budget, PowerCut>
    requires { mark.0 * g.state.ws < 2 ^ 64 }
    ensures { Marked left.0 g.state mark.0 state.old state.new result }
{
    let ws = g.state.ws as usize;
    let cell = g.state.cell();
    mem_flash::write_word(state, mark.offset(g.state), cell.marked(), ws, cell, left)
}

// A page and its mark, whichever image the page goes to. Of a page copy, and of a step below, the answer is taken apart by let .. else, a
// rule of the project: what is no going on ends the call at once.
fn copy_page_once(
    g: Geometry,
    target: &mut [u8],
    unit: usize,
    source: &[u8],
    state: &mut [u8],
    c: PageCopy,
    left: Budget,
) -> Result<Budget, PowerCut>
    requires { StepRoom g c (length source.now) (length target.old) (length state.old) }
    ensures { Stepped left.0 g unit c source.now target.old target.new state.old state.new result }
{
    let Ok(rest) = page_copy::copy_page(g, target, c.to, unit, source, c.from, left) else {
        return Err(PowerCut);
    };
    update_progress(g, state, c.mark, rest)
}

// The two directions have the Rust's names, which docs/PORT-OTHER.md has; what they share is above, and they hand on what it asks.
fn copy_page_once_to_active(
    g: Geometry,
    active: &mut [u8],
    dfu: &[u8],
    state: &mut [u8],
    c: PageCopy,
    left: Budget,
) -> Result<Budget, PowerCut>
    requires { StepRoom g c (length dfu.now) (length active.old) (length state.old) }
    ensures { Stepped left.0 g g.ea c dfu.now active.old active.new state.old state.new result }
{
    copy_page_once(g, active, g.ea as usize, dfu, state, c, left)
}

fn copy_page_once_to_dfu(
    g: Geometry,
    active: &[u8],
    dfu: &mut [u8],
    state: &mut [u8],
    c: PageCopy,
    left: Budget,
) -> Result<Budget, PowerCut>
    requires { StepRoom g c (length active.now) (length dfu.old) (length state.old) }
    ensures { Stepped left.0 g g.ed c active.now dfu.old dfu.new state.old state.new result }
{
    copy_page_once(g, dfu, g.ed as usize, active, state, c, left)
}

// Step i of n pages, as the plan has it.
fn run_step(
    g: Geometry,
    active: &mut [u8],
    dfu: &mut [u8],
    state: &mut [u8],
    i: usize,
    n: usize,
    left: Budget,
) -> Result<Budget, PowerCut>
    requires { Admitted g (length active.old) (length dfu.old) (length state.old) × (n ≡ pages g (length active.old)) × (i < 4 * n) }
    ensures { Ran left.0
        (copy_ops g (step_at n i) (flash active.old dfu.old state.old))
        (flash active.old dfu.old state.old)
        (flash active.new dfu.new state.new) result }
{
    let c = boot_plan::step(i, n);
    match c.direction {
        Direction::ToDfu => copy_page_once_to_dfu(g, active, dfu, state, c, left),
        Direction::ToActive => copy_page_once_to_active(g, active, dfu, state, c, left),
    }
}

// The steps from the progress on, up to an end. A step runs exactly if it is the progress: what is before it is done. Behind a step
// that was marked the search goes on from the next mark, so each mark is searched once; but it is a search, as a mark further on may
// be done already. It stays a `while`: the next step is found, and not counted. `from` is a
// number beside the area: what is asked of it ends with the first mark.
fn steps(
    g: Geometry,
    active: &mut [u8],
    dfu: &mut [u8],
    state: &mut [u8],
    from: usize,
    end: usize,
    left: Budget,
) -> Result<Budget, PowerCut>
    requires { Admitted g (length active.old) (length dfu.old) (length state.old) × (from ≡ progress g.state state.old) × (end ≤ 4 * pages g (length active.old)) }
    ensures { Ran left.0
        (copies_ops g (slice from end (all_steps (pages g (length active.old)))) (flash active.old dfu.old state.old))
        (flash active.old dfu.old state.old)
        (flash active.new dfu.new state.new) result }
{
    let page_count = active.len() / g.page_size();
    let mut next = from;
    let mut still = left;
    while next < end {
        let Ok(rest) = run_step(g, active, dfu, state, next, page_count, still) else {
            return Err(PowerCut);
        };
        still = rest;
        next = state_area::first_open(state, g.state, next + 1);
    }
    Ok(still)
}

// Swaps the images, from a step on.
pub fn swap(
    g: Geometry,
    active: &mut [u8],
    dfu: &mut [u8],
    state: &mut [u8],
    from: usize,
    left: Budget,
) -> Result<Budget, PowerCut>
    requires { Admitted g (length active.old) (length dfu.old) (length state.old) × (from ≡ progress g.state state.old) }
    ensures { Ran left.0
        (swap_ops g (flash active.old dfu.old state.old))
        (flash active.old dfu.old state.old)
        (flash active.new dfu.new state.new) result }
{
    let page_count = active.len() / g.page_size();
    steps(g, active, dfu, state, from, 2 * page_count, left)
}

// Undoes a swap that is finished, from a step on.
pub fn revert(
    g: Geometry,
    active: &mut [u8],
    dfu: &mut [u8],
    state: &mut [u8],
    from: usize,
    left: Budget,
) -> Result<Budget, PowerCut>
    requires { Admitted g (length active.old) (length dfu.old) (length state.old) × (from ≡ progress g.state state.old) × (2 * pages g (length active.old) ≤ from) }
    ensures { Ran left.0
        (revert_ops g (flash active.old dfu.old state.old))
        (flash active.old dfu.old state.old)
        (flash active.new dfu.new state.new) result }
{
    let page_count = active.len() / g.page_size();
    steps(g, active, dfu, state, from, 4 * page_count, left)
}
