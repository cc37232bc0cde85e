// Power cycles: boots one after the other, each with its budget, until one of them is not cut. What demand 3 promises is here the
// contract of code that makes these boots. The areas are lent as in `boot_steps`.
#![tactic(auto)]

ghost use Rattle.mem_flash.specs.Run.{flash};
ghost use Rattle.power_cycles.specs.Cycles.{Cycles};

use boot_loader::BootLoader;
use rules::{Answer, Stop};

// The boots that were made, and the answer of the last.
#[derive(Clone, Copy, Debug, PartialEq, Eq)]
pub struct Booted {
    pub runs: usize,
    pub answer: Answer,
}

// With no budget at all no boot is made, and the answer is a cut after no operation.
pub fn boot_until_whole(
    loader: BootLoader,
    active: &mut [u8],
    dfu: &mut [u8],
    state: &mut [u8],
    budgets: &[u32],
) -> Booted
    ensures { Cycles loader.geometry budgets.now (flash active.old dfu.old state.old)
        (flash active.new dfu.new state.new) result.runs result.answer }
{
    let mut answer = Err(Stop::Cut(0));
    for (cut, budget) in budgets.iter().enumerate() {
        answer = loader.prepare_boot(active, dfu, state, *budget);
        let Err(Stop::Cut(_)) = answer else {
            let runs = cut + 1;
            return Booted { runs, answer };
        };
    }
    let runs = budgets.len();
    Booted { runs, answer }
}
