// The firmware state: the part of firmware_updater/blocking.rs that knows the state area alone. The area is lent to each call,
// its sizes stand by value, and a budget of operations stands for the power supply. The marks have the Rust's names, here and in the
// updater; what all of them share is `firmware_marks`.
#![tactic(auto)]

ghost use Rattle.std.specs.Prelude.{◌≡◌, []};
ghost use Rattle.state.specs.declared.State.{State};
ghost use Rattle.mem_flash.specs.Run.{flash};
ghost use Rattle.rules.specs.Calls.{reported, report, Did};
ghost use Rattle.rules.specs.Boot.{get_state};
ghost use Rattle.rules.specs.FirmwareState.{mark};

use geometry::StateSizes;
use rules::{Answer, Done};
use state::State;

// The state area as the application sees it.
#[derive(Clone, Copy, Debug, PartialEq, Eq)]
pub struct BlockingFirmwareState {
    pub sizes: StateSizes,
}

impl BlockingFirmwareState {
    pub fn new(sizes: StateSizes) -> Self
        ensures { result.sizes ≡ sizes }
    {
        BlockingFirmwareState { sizes }
    }

    pub fn get_state(self, state: &[u8]) -> Answer
        ensures { reported result ≡ report (get_state self.sizes state.now) 0 }
    {
        verdicts::state_verdict(self.sizes, state.len())?;
        Ok(Done {
            state: Some(state_area::read(state, self.sizes)),
            count: 0,
        })
    }

    // The next boot swaps the images.
    pub fn mark_updated(self, state: &mut [u8], budget: u32) -> Answer
        ensures { Did (mark State.Swap self.sizes state.old) budget (flash [] [] state.old) (flash [] [] state.new) result }
    {
        let judged = verdicts::state_verdict(self.sizes, state.len());
        firmware_marks::mark(self.sizes, state, State::Swap, judged, budget)
    }

    // The next boot starts the USB update.
    pub fn mark_dfu(self, state: &mut [u8], budget: u32) -> Answer
        ensures { Did (mark State.DfuDetach self.sizes state.old) budget (flash [] [] state.old) (flash [] [] state.new) result }
    {
        let judged = verdicts::state_verdict(self.sizes, state.len());
        firmware_marks::mark(self.sizes, state, State::DfuDetach, judged, budget)
    }

    // The new firmware is confirmed: the next boot does not undo the swap.
    pub fn mark_booted(self, state: &mut [u8], budget: u32) -> Answer
        ensures { Did (mark State.Boot self.sizes state.old) budget (flash [] [] state.old) (flash [] [] state.new) result }
    {
        let judged = verdicts::state_verdict(self.sizes, state.len());
        firmware_marks::mark(self.sizes, state, State::Boot, judged, budget)
    }
}
