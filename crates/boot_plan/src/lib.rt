// What a boot has to do, and what each of its steps copies: told by the state area's bytes and by numbers alone. Nothing here knows a
// flash, so whatever boots, and whatever judges a boot, can stand on these two functions.
#![tactic(auto)]

ghost use Rattle.std.specs.Prelude.{◌≡◌, ◌+◌, ◌*◌, ◌<◌, ◌^◌};
ghost use Rattle.rules.specs.Steps.{step_at};
ghost use Rattle.rules.specs.Boot.{confirming, task};
ghost use Rattle.boot_plan.specs.Says.{Says};

use geometry::{Page, StateSizes, Word};
use rules::Task;
use state::State;

// Which image a page goes to.
#[derive(Clone, Copy, Debug, PartialEq, Eq)]
pub enum Direction {
    ToActive,
    ToDfu,
}

// A step: a page of one image goes to a page of the other, and a word is marked.
#[derive(Clone, Copy, Debug, PartialEq, Eq)]
pub struct PageCopy {
    pub direction: Direction,
    pub from: Page,
    pub to: Page,
    pub mark: Word,
}

// What a boot with so many pages has to do, once it has found a state.
pub fn task(found: State, state: &[u8], z: StateSizes, page_count: usize) -> Task
    requires { 4 * page_count < 2 ^ 64 }
    ensures { result ≡ task found z page_count state.now }
{
    let State::Swap = found else {
        return Task::Nothing;
    };
    if is_confirming(state, z, page_count) {
        return Task::Confirm;
    }
    let next = state_area::progress(state, z);
    if next < 2 * page_count {
        return Task::Swap(next);
    }
    // The images are swapped already: the application has failed to confirm the new one.
    Task::Revert(next)
}

// The progress does not count, and the marks are those of a finished swap and of a revert that is not finished.
fn is_confirming(state: &[u8], z: StateSizes, page_count: usize) -> bool
    requires { 4 * page_count < 2 ^ 64 }
    ensures { result ≡ confirming z page_count state.now }
{
    if state_area::is_valid(state, z) {
        return false;
    }
    let done = state_area::marks_done(state, z);
    if done < 2 * page_count {
        return false;
    }
    done < 4 * page_count
}

// Step i of n pages, two to a page: first those of the swap, from the last page down, so that DFU page k + 1 is free when active page
// k goes there; then those of the revert, from the first page up, as the page that the swap left free is DFU's first.
pub fn step(i: usize, n: usize) -> PageCopy
    requires { (i < 4 * n) × (4 * n + 2 < 2 ^ 64) }
    ensures { Says result (step_at n i) }
{
    let mark = Word(2 + i);
    let turn = i / 2;
    if i < 2 * n {
        let k = n - 1 - turn;
        if i % 2 == 0 {
            return PageCopy {
                direction: Direction::ToDfu,
                from: Page(k),
                to: Page(k + 1),
                mark,
            };
        }
        return PageCopy {
            direction: Direction::ToActive,
            from: Page(k),
            to: Page(k),
            mark,
        };
    }
    let k = turn - n;
    if i % 2 == 0 {
        return PageCopy {
            direction: Direction::ToDfu,
            from: Page(k),
            to: Page(k),
            mark,
        };
    }
    PageCopy {
        direction: Direction::ToActive,
        from: Page(k + 1),
        to: Page(k),
        mark,
    }
}
