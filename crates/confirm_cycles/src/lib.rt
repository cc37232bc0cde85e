// A confirmation and the power cycles after it: mark_booted with a budget, then boots until one of them is not cut. What request No. 5
// promises of a confirmation that is cut is here the contract of code that makes these calls, with either of the two mark_booted.
#![tactic(auto)]

ghost use Rattle.std.specs.Prelude.{◌≡◌, List, ℕ};
ghost use Rattle.state.specs.declared.State.{State};
ghost use Rattle.geometry.specs.declared.Geometry.{Geometry};
ghost use Rattle.geometry.specs.declared.StateSizes.{StateSizes};
ghost use Rattle.mem_flash.specs.Flash.{Flash};
ghost use Rattle.mem_flash.specs.Run.{flash};
ghost use Rattle.rules.specs.Calls.{Call, Did};
ghost use Rattle.rules.specs.FirmwareState.{mark};
ghost use Rattle.rules.specs.FirmwareUpdater.{updater_mark_booted};
ghost use Rattle.power.specs.Confirm.{MarkBooted, firmware_state, updater};
ghost use Rattle.confirm_cycles.specs.Confirmation.{Confirmation};

use boot_loader::BootLoader;
use firmware_state::BlockingFirmwareState;
use firmware_updater::BlockingFirmwareUpdater;
use power_cycles::Booted;
use rules::Answer;

// What mark_booted answered, and the boots after it.
#[derive(Clone, Copy, Debug, PartialEq, Eq)]
pub struct Confirmed {
    pub marked: Answer,
    pub booted: Booted,
}

// What has a mark_booted: the firmware state, and the updater, which looks at DFU too.
pub trait MarksBooted {
    // The sizes of the state area that it marks, and the call that its mark_booted is on a flash.
    ghost sizes: { Self → StateSizes };

    ghost call: { Self → Flash → Call };

    fn mark_booted(self, dfu: &[u8], state: &mut [u8], budget: u32) -> Answer
        ensures { (a : List ℕ) → Did (call self (flash a dfu.now state.old)) budget
            (flash a dfu.now state.old) (flash a dfu.now state.new) result };

    // With the geometry's sizes the call is one that confirms an image (02, No. 5).
    ghost confirms: { (m : Self) (g : Geometry) (f : Flash) → sizes m ≡ g.state → MarkBooted g f (call m f) };
}

impl MarksBooted for BlockingFirmwareState {
    ghost sizes = { λ m. m.sizes };

    ghost call = { λ m f. mark State.Boot m.sizes f.state };

    ghost confirms = { λ m g f. firmware_state m.sizes };

    fn mark_booted(self, _dfu: &[u8], state: &mut [u8], budget: u32) -> Answer {
        self.mark_booted(state, budget)
    }
}

impl MarksBooted for BlockingFirmwareUpdater {
    ghost sizes = { λ m. m.sizes.state };

    ghost call = { λ m f. updater_mark_booted m.sizes f };

    ghost confirms = { λ m g f. updater m.sizes };

    fn mark_booted(self, dfu: &[u8], state: &mut [u8], budget: u32) -> Answer {
        self.mark_booted(dfu, state, budget)
    }
}

// By whichever mark_booted the type has.
pub fn mark_and_boot<M: MarksBooted>(
    loader: BootLoader,
    firmware: M,
    active: &mut [u8],
    dfu: &mut [u8],
    state: &mut [u8],
    budget: u32,
    budgets: &[u32],
) -> Confirmed
    ensures { Confirmation loader.geometry (M.sizes firmware) (M.call firmware (flash active.old dfu.old state.old)) budget budgets.now
        (flash active.old dfu.old state.old)
        (flash active.new dfu.new state.new) result.marked result.booted }
{
    let marked = firmware.mark_booted(dfu, state, budget);
    let booted = power_cycles::boot_until_whole(loader, active, dfu, state, budgets);
    Confirmed { marked, booted }
}

// By the firmware state.
pub fn confirm_and_boot(
    loader: BootLoader,
    firmware: BlockingFirmwareState,
    active: &mut [u8],
    dfu: &mut [u8],
    state: &mut [u8],
    budget: u32,
    budgets: &[u32],
) -> Confirmed
    ensures { Confirmation loader.geometry firmware.sizes (mark State.Boot firmware.sizes state.old) budget budgets.now
        (flash active.old dfu.old state.old)
        (flash active.new dfu.new state.new) result.marked result.booted }
{
    mark_and_boot(loader, firmware, active, dfu, state, budget, budgets)
}

// By the updater.
pub fn updater_confirm_and_boot(
    loader: BootLoader,
    updater: BlockingFirmwareUpdater,
    active: &mut [u8],
    dfu: &mut [u8],
    state: &mut [u8],
    budget: u32,
    budgets: &[u32],
) -> Confirmed
    ensures { Confirmation loader.geometry updater.sizes.state
        (updater_mark_booted updater.sizes (flash active.old dfu.old state.old)) budget budgets.now
        (flash active.old dfu.old state.old)
        (flash active.new dfu.new state.new) result.marked result.booted }
{
    mark_and_boot(loader, updater, active, dfu, state, budget, budgets)
}
