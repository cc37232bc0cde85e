// The refusals that stand for the Rust's assertions on the geometry, the const block of `prepare_boot` and
// `assert_partitions` of boot_loader.rs: the rows of the table as tests, and what they say of a call.
#![tactic(auto)]

ghost use Rattle.std.specs.Prelude.{◌≡◌, false};
ghost use Rattle.geometry.specs.Refusals.{verdict, boot_refusal, state_refusal, updater_refusal};

use geometry::{Geometry, Refusal, Sizes, StateSizes};

mod check;

// Whether prepare_boot takes this geometry with areas of these lengths. The lengths are no struct: a row reads one or two of them, and
// callers hold slices.
pub fn boot_verdict(g: Geometry, la: usize, ld: usize, ls: usize) -> Result<(), Refusal>
    ensures { verdict result ≡ boot_refusal g la ld ls }
{
    if check::boot_limits(g, la, ld, ls) {
        return Err(Refusal::Limit);
    }
    if check::uneven_page(g) {
        return Err(Refusal::Page);
    }
    if check::uneven_areas(g, la, ld) {
        return Err(Refusal::Area);
    }
    if check::bad_boot_state(g, la, ls) {
        return Err(Refusal::StateArea);
    }
    Ok(())
}

// Whether a call that reads the state area alone takes these sizes and this length.
pub fn state_verdict(z: StateSizes, ls: usize) -> Result<(), Refusal>
    ensures { verdict result ≡ state_refusal z ls }
{
    if check::state_limits(z, ls) {
        return Err(Refusal::Limit);
    }
    if check::bad_state(2, z, ls) {
        return Err(Refusal::StateArea);
    }
    Ok(())
}

// Whether the updater takes these sizes with areas of these lengths: rows 1 to 4. Rows 5 and 6 are asked by its calls.
pub fn updater_verdict(z: Sizes, ld: usize, ls: usize) -> Result<(), Refusal>
    ensures { verdict result ≡ updater_refusal z ld ls false false }
{
    if check::updater_limits(z, ld, ls) {
        return Err(Refusal::Limit);
    }
    if check::uneven(z.ed as usize, z.wd as usize) {
        return Err(Refusal::Page);
    }
    if check::uneven(ld, z.ed as usize) {
        return Err(Refusal::Area);
    }
    if check::bad_state(2, z.state, ls) {
        return Err(Refusal::StateArea);
    }
    Ok(())
}
