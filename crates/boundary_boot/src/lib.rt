// The boot loader's calls with the answer packed into one number. The C boundary hands them out, with the sizes as numbers in a row. The areas
// are lent as in `boot_steps`.
#![tactic(auto)]

ghost use Rattle.std.specs.Prelude.{◌≡◌};
ghost use Rattle.mem_flash.specs.Run.{flash};
ghost use Rattle.rules.specs.Calls.{report};
ghost use Rattle.rules.specs.Boot.{prepare_boot, get_state};
ghost use Rattle.packed.specs.Packed.{packed};
ghost use Rattle.packed.specs.Told.{Told};

use boot_loader::BootLoader;
use geometry::{Geometry, StateSizes};

// Swaps the images if an update is marked, or undoes the swap if it was not confirmed; answers the state read at entry.
pub fn prepare_boot(
    active: &mut [u8],
    dfu: &mut [u8],
    state: &mut [u8],
    geometry: Geometry,
    budget: u32,
) -> u64
    ensures { Told (prepare_boot geometry (flash active.old dfu.old state.old)) budget
        (flash active.old dfu.old state.old)
        (flash active.new dfu.new state.new) result }
{
    packed::pack(BootLoader::new(geometry).prepare_boot(active, dfu, state, budget))
}

// The boot loader's reading of the state area. The images' sizes play no part in it.
pub fn read_state(state: &[u8], sizes: StateSizes) -> u64
    ensures { result ≡ packed (report (get_state sizes state.now) 0) }
{
    let geometry = Geometry {
        ea: 0,
        wa: 0,
        ed: 0,
        wd: 0,
        state: sizes,
        b: 0,
    };
    packed::pack(BootLoader::new(geometry).read_state(state))
}
