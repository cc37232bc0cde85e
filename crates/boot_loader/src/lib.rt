// The boot loader: boot_loader.rs. The three areas are lent to each call, the sizes are a `Geometry` by value, and a budget
// of operations stands for the power supply.
#![tactic(auto)]

ghost use Rattle.std.specs.Prelude.{◌≡◌};
ghost use Rattle.mem_flash.specs.Run.{flash};
ghost use Rattle.rules.specs.Calls.{reported, report, Did};
ghost use Rattle.rules.specs.Boot.{prepare_boot, get_state};

use geometry::Geometry;
use mem_flash::{Budget, PowerCut};
use rules::{Answer, Done, Stop};

// The boot loader is its geometry: the Rust's holds the three flashes too, which are lent here.
#[derive(Clone, Copy, Debug, PartialEq, Eq)]
pub struct BootLoader {
    pub geometry: Geometry,
}

impl BootLoader {
    pub fn new(geometry: Geometry) -> Self
        ensures { result.geometry ≡ geometry }
    {
        BootLoader { geometry }
    }

    // Swaps the images if an update is marked, or undoes the swap if it was not confirmed. Answers the state read at entry.
    pub fn prepare_boot(
        self,
        active: &mut [u8],
        dfu: &mut [u8],
        state: &mut [u8],
        budget: u32,
    ) -> Answer
        ensures { Did (prepare_boot self.geometry (flash active.old dfu.old state.old)) budget
            (flash active.old dfu.old state.old)
            (flash active.new dfu.new state.new) result }
    {
        let g = self.geometry;
        verdicts::boot_verdict(g, active.len(), dfu.len(), state.len())?;
        let found = state_area::read(state, g.state);
        // An arm for each end and no `rules::answer`, so that each can be asked about: the edits cut_count and invented_count do.
        match boot_choice::perform(found, g, active, dfu, state, Budget(budget)) {
            Ok(left) => Ok(Done {
                state: Some(found),
                count: budget - left.0,
            }),
            Err(PowerCut) => Err(Stop::Cut(budget)),
        }
    }

    // The state that the state area holds, with the sizes of the state area alone.
    pub fn read_state(self, state: &[u8]) -> Answer
        ensures { reported result ≡ report (get_state self.geometry.state state.now) 0 }
    {
        let sizes = self.geometry.state;
        verdicts::state_verdict(sizes, state.len())?;
        Ok(Done {
            state: Some(state_area::read(state, sizes)),
            count: 0,
        })
    }
}
