// The boundary: every call of the library under a plain name, over slices and numbers. Nothing is decided here: each function joins the sizes
// to the record they make, hands all on to the call in one of the crates boundary_.., and promises the same. embassy_boot_c exports them to C.
// None asks anything of its caller: what does not fit is refused by the call.
#![tactic(auto)]

ghost use Rattle.std.specs.Prelude.{◌≡◌, []};
ghost use Rattle.state.specs.declared.State.{State};
ghost use Rattle.state.specs.Magic.{state_number, state_of};
ghost use Rattle.mem_flash.specs.Run.{flash};
ghost use Rattle.rules.specs.Calls.{report};
ghost use Rattle.rules.specs.Boot.{prepare_boot, get_state};
ghost use Rattle.rules.specs.FirmwareState.{mark};
ghost use Rattle.rules.specs.FirmwareUpdater.{updater_get_state, updater_mark_updated, updater_mark_dfu, updater_mark_booted, check_and_mark_updated, prepare_update};
ghost use Rattle.packed.specs.Packed.{packed};
ghost use Rattle.packed.specs.Told.{state_sizes, geometry, sizes, Told, ToldRead, ToldWrite};
ghost use Rattle.boundary_hash.specs.Told.{ToldHash};

use geometry::{Geometry, Offset, Sizes, StateSizes};

// ---- the sizes, which C hands over as numbers in a row

fn state_sizes(es: u32, ws: u32, ev: u32) -> StateSizes
    ensures { result ≡ state_sizes es ws ev }
{
    StateSizes { es, ws, ev }
}

fn sizes(ed: u32, wd: u32, es: u32, ws: u32, ev: u32) -> Sizes
    ensures { result ≡ sizes ed wd es ws ev }
{
    let state = state_sizes(es, ws, ev);
    Sizes { ed, wd, state }
}

// ---- boot

// Swaps the images if an update is marked, or undoes the swap if it was not confirmed; answers the state read at entry.
pub fn eb_prepare_boot(
    active: &mut [u8],
    dfu: &mut [u8],
    state: &mut [u8],
    ea: u32,
    wa: u32,
    ed: u32,
    wd: u32,
    es: u32,
    ws: u32,
    b: u32,
    ev: u32,
    budget: u32,
) -> u64
    ensures { Told (prepare_boot (geometry ea wa ed wd es ws b ev) (flash active.old dfu.old state.old)) budget
        (flash active.old dfu.old state.old)
        (flash active.new dfu.new state.new) result }
{
    let geometry = Geometry {
        ea,
        wa,
        ed,
        wd,
        state: state_sizes(es, ws, ev),
        b,
    };
    boundary_boot::prepare_boot(active, dfu, state, geometry, budget)
}

// The boot loader's reading of the state area. The images' sizes play no part in it.
pub fn eb_read_state(state: &[u8], es: u32, ws: u32, ev: u32) -> u64
    ensures { result ≡ packed (report (get_state (state_sizes es ws ev) state.now) 0) }
{
    boundary_boot::read_state(state, state_sizes(es, ws, ev))
}

// ---- the firmware state

pub fn eb_state_get_state(state: &[u8], es: u32, ws: u32, ev: u32) -> u64
    ensures { result ≡ packed (report (get_state (state_sizes es ws ev) state.now) 0) }
{
    boundary_state::get_state(state, state_sizes(es, ws, ev))
}

// The next boot swaps the images.
pub fn eb_state_mark_updated(state: &mut [u8], es: u32, ws: u32, ev: u32, budget: u32) -> u64
    ensures { Told (mark State.Swap (state_sizes es ws ev) state.old) budget (flash [] [] state.old) (flash [] [] state.new) result }
{
    boundary_state::mark_updated(state, state_sizes(es, ws, ev), budget)
}

// The next boot starts the USB update.
pub fn eb_state_mark_dfu(state: &mut [u8], es: u32, ws: u32, ev: u32, budget: u32) -> u64
    ensures { Told (mark State.DfuDetach (state_sizes es ws ev) state.old) budget (flash [] [] state.old) (flash [] [] state.new) result }
{
    boundary_state::mark_dfu(state, state_sizes(es, ws, ev), budget)
}

// The new firmware is confirmed: the next boot does not undo the swap.
pub fn eb_state_mark_booted(state: &mut [u8], es: u32, ws: u32, ev: u32, budget: u32) -> u64
    ensures { Told (mark State.Boot (state_sizes es ws ev) state.old) budget (flash [] [] state.old) (flash [] [] state.new) result }
{
    boundary_state::mark_booted(state, state_sizes(es, ws, ev), budget)
}

// ---- the firmware updater

pub fn eb_updater_get_state(
    dfu: &[u8],
    state: &[u8],
    ed: u32,
    wd: u32,
    es: u32,
    ws: u32,
    ev: u32,
) -> u64
    ensures { result ≡ packed (report (updater_get_state (sizes ed wd es ws ev) (flash [] dfu.now state.now)) 0) }
{
    boundary_marks::get_state(dfu, state, sizes(ed, wd, es, ws, ev))
}

// The next boot swaps the images.
pub fn eb_updater_mark_updated(
    dfu: &[u8],
    state: &mut [u8],
    ed: u32,
    wd: u32,
    es: u32,
    ws: u32,
    ev: u32,
    budget: u32,
) -> u64
    ensures { Told (updater_mark_updated (sizes ed wd es ws ev) (flash [] dfu.now state.old)) budget
        (flash [] dfu.now state.old) (flash [] dfu.now state.new) result }
{
    boundary_marks::mark_updated(dfu, state, sizes(ed, wd, es, ws, ev), budget)
}

// The next boot swaps the images, if the first `length` bytes of DFU have this sum.
pub fn eb_updater_check_and_mark_updated(
    dfu: &[u8],
    state: &mut [u8],
    ed: u32,
    wd: u32,
    es: u32,
    ws: u32,
    ev: u32,
    length: u64,
    crc: u32,
    budget: u32,
) -> u64
    ensures { Told (check_and_mark_updated (sizes ed wd es ws ev) length crc (flash [] dfu.now state.old)) budget
        (flash [] dfu.now state.old) (flash [] dfu.now state.new) result }
{
    boundary_checks::check_and_mark_updated(
        dfu,
        state,
        sizes(ed, wd, es, ws, ev),
        length,
        crc,
        budget,
    )
}

// The next boot starts the USB update. Not while a swap is pending.
pub fn eb_updater_mark_dfu(
    dfu: &[u8],
    state: &mut [u8],
    ed: u32,
    wd: u32,
    es: u32,
    ws: u32,
    ev: u32,
    budget: u32,
) -> u64
    ensures { Told (updater_mark_dfu (sizes ed wd es ws ev) (flash [] dfu.now state.old)) budget
        (flash [] dfu.now state.old) (flash [] dfu.now state.new) result }
{
    boundary_marks::mark_dfu(dfu, state, sizes(ed, wd, es, ws, ev), budget)
}

// The new firmware is confirmed.
pub fn eb_updater_mark_booted(
    dfu: &[u8],
    state: &mut [u8],
    ed: u32,
    wd: u32,
    es: u32,
    ws: u32,
    ev: u32,
    budget: u32,
) -> u64
    ensures { Told (updater_mark_booted (sizes ed wd es ws ev) (flash [] dfu.now state.old)) budget
        (flash [] dfu.now state.old) (flash [] dfu.now state.new) result }
{
    boundary_marks::mark_booted(dfu, state, sizes(ed, wd, es, ws, ev), budget)
}

// Fills `out` with the bytes of DFU from an offset on.
pub fn eb_updater_read_dfu(
    dfu: &[u8],
    state: &[u8],
    ed: u32,
    wd: u32,
    es: u32,
    ws: u32,
    ev: u32,
    offset: u32,
    out: &mut [u8],
) -> u64
    ensures { ToldRead (sizes ed wd es ws ev) offset out.old out.new (flash [] dfu.now state.now) result }
{
    boundary_updater::read_dfu(
        dfu,
        state,
        sizes(ed, wd, es, ws, ev),
        Offset(offset as usize),
        out,
    )
}

// Writes data at an offset of DFU, sector by sector. Not while a swap is pending. The memory is the caller's, in `last`.
pub fn eb_updater_write_firmware(
    dfu: &mut [u8],
    state: &[u8],
    ed: u32,
    wd: u32,
    es: u32,
    ws: u32,
    ev: u32,
    offset: u64,
    data: &[u8],
    last: &mut u32,
    budget: u32,
) -> u64
    ensures { ToldWrite (sizes ed wd es ws ev) budget offset «data».now last.old last.new
        (flash [] dfu.old state.now) (flash [] dfu.new state.now) result }
{
    boundary_updater::write_firmware(
        dfu,
        state,
        sizes(ed, wd, es, ws, ev),
        Offset(offset as usize),
        data,
        last,
        budget,
    )
}

// Erases all of DFU. Not while a swap is pending. The memory isn't touched, so it isn't asked for.
pub fn eb_updater_prepare_update(
    dfu: &mut [u8],
    state: &[u8],
    ed: u32,
    wd: u32,
    es: u32,
    ws: u32,
    ev: u32,
    budget: u32,
) -> u64
    ensures { Told (prepare_update (sizes ed wd es ws ev) (flash [] dfu.old state.now)) budget
        (flash [] dfu.old state.now) (flash [] dfu.new state.now) result }
{
    boundary_updater::prepare_update(dfu, state, sizes(ed, wd, es, ws, ev), budget)
}

// The SHA-512 of the first bytes of DFU, taken in pieces of `chunk` bytes, into the 64 bytes of `out`.
pub fn eb_updater_hash(
    dfu: &[u8],
    state: &[u8],
    ed: u32,
    wd: u32,
    es: u32,
    ws: u32,
    ev: u32,
    len: u64,
    chunk: u64,
    out: &mut [u8],
) -> u64
    ensures { ToldHash (sizes ed wd es ws ev) len chunk out.old out.new (flash [] dfu.now state.now) result }
{
    boundary_hash::hash(dfu, state, sizes(ed, wd, es, ws, ev), len, chunk, out)
}

// ---- states

// The state of a word, by its number.
pub fn eb_state_from(bytes: &[u8]) -> u32
    ensures { result ≡ state_number (state_of bytes.now) }
{
    boundary_state::state_from(bytes)
}
