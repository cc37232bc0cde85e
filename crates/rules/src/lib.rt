// What the calls answer. The definitions in specs/ say, for every call, which answer and which bytes are right.
#![tactic(auto)]

ghost use Rattle.std.specs.Prelude.{IfOk, ◌≡◌, ◌≤◌};
ghost use Rattle.mem_flash.specs.Flash.{Flash};
ghost use Rattle.mem_flash.specs.Run.{Ran};
ghost use Rattle.rules.specs.Calls.{Call, Did};
ghost use Rattle.rules.specs.declared.Stop.TheVariants.{Refused};

use geometry::Refusal;
use mem_flash::{Budget, PowerCut};
use state::State;

// What a call that was done tells. specs/Calls has the paper's number, state and count for each answer.
#[derive(Clone, Copy, Debug, PartialEq, Eq)]
pub struct Done {
    // The state that was read: by prepare_boot, read_state and get_state, and by no other call.
    pub state: Option<State>,
    // The operations done.
    pub count: u32,
}

// Why a call was not done.
#[derive(Clone, Copy, Debug, PartialEq, Eq)]
pub enum Stop {
    // Nothing was done.
    Refused(Refusal),
    // The power was cut after so many operations.
    Cut(u32),
}

// The answer of a call.
pub type Answer = Result<Done, Stop>;

impl From<Refusal> for Stop {
    ghost from_gives = { λ why stop. stop ≡ Refused why };

    fn from(why: Refusal) -> Stop {
        Stop::Refused(why)
    }
}

// The answer of a call that was handed a budget, by how its operations ended.
pub fn answer(state: Option<State>, budget: u32, ended: Result<Budget, PowerCut>) -> Answer
    requires { IfOk ended (λ left. left.0 ≤ budget) }
    ensures { (c : Call) (f f' : Flash) → c.refusal ≡ 0 → c.state ≡ state → Ran budget c.ops f f' ended → Did c budget f f' result }
{
    match ended {
        Ok(left) => Ok(Done {
            state,
            count: budget - left.0,
        }),
        Err(PowerCut) => Err(Stop::Cut(budget)),
    }
}

// What a boot has to do. A swap and a revert go on from a step, the first that is not done.
#[derive(Clone, Copy, Debug, PartialEq, Eq)]
pub enum Task {
    Nothing,
    // A confirmation that was cut is finished.
    Confirm,
    Swap(usize),
    Revert(usize),
}
