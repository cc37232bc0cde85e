// The rows of the table as tests. Each is one expression without a branch, so that a proof has one way to follow; what
// divides is known to be positive, since row 1 is asked first.
ghost use Rattle.std.specs.Prelude.{◌≡◌, Bool, List, [], ◌∷◌, ◌++◌, map, ◌<◌, ◌≤◌};
ghost use Rattle.geometry.specs.Geometry.{pages};
ghost use Rattle.geometry.specs.Admitted.{Numbers};
ghost use Rattle.geometry.specs.Refusals.{any, bad_number, bad_value, too_long, uneven, outside, uneven_page, uneven_areas, bad_state, boot_words, state_numbers, boot_numbers, updater_numbers, most_length};

use geometry::{Geometry, Sizes, StateSizes};

// The first test, or the list of tests that follow it.
pub(crate) fn or(first: bool, rest: bool) -> bool
    ensures { (x : Bool) (bs : List Bool) → first ≡ x → rest ≡ any bs → result ≡ any (x ∷ bs) }
{
    if first { true } else { rest }
}

// The last of a list of tests.
pub(crate) fn last(test: bool) -> bool
    ensures { (x : Bool) → test ≡ x → result ≡ any (x ∷ []) }
{
    test
}

pub(crate) fn bad_number(n: u32) -> bool
    ensures { result ≡ bad_number n }
{
    or(n == 0, last(65536 < n))
}

// Whether no cell's erased bytes are this.
pub(crate) fn bad_value(v: u32) -> bool
    ensures { result ≡ bad_value v }
{
    let known = or(v == 255, last(v == 0));
    !known
}

pub(crate) fn too_long(n: usize) -> bool
    ensures { result ≡ too_long n }
{
    16777216 < n
}

// Whether n is no multiple of m.
pub(crate) fn uneven(n: usize, m: usize) -> bool
    requires { 0 < m }
    ensures { result ≡ uneven n m }
{
    n % m != 0
}

// Row 1's tests of the state area's sizes and of the erase value, before the list of tests that follow them.
fn bad_sizes(z: StateSizes, rest: bool) -> bool
    ensures { (bs : List Bool) → rest ≡ any bs → result ≡ any (map bad_number (state_numbers z) ++ (bad_value z.ev ∷ bs)) }
{
    or(
        bad_number(z.es),
        or(bad_number(z.ws), or(bad_value(z.ev), rest)),
    )
}

// Row 1 of prepare_boot.
pub(crate) fn boot_limits(g: Geometry, la: usize, ld: usize, ls: usize) -> bool
    ensures { result ≡ outside (boot_numbers g) g.state.ev (la ∷ ld ∷ ls ∷ []) }
{
    let lengths = or(too_long(la), or(too_long(ld), last(too_long(ls))));
    let state = or(bad_number(g.b), bad_sizes(g.state, lengths));
    let dfu = or(bad_number(g.ed), or(bad_number(g.wd), state));
    or(bad_number(g.ea), or(bad_number(g.wa), dfu))
}

// Row 1 of the calls that read the state area alone.
pub(crate) fn state_limits(z: StateSizes, ls: usize) -> bool
    ensures { result ≡ outside (state_numbers z) z.ev (ls ∷ []) }
{
    bad_sizes(z, last(too_long(ls)))
}

// Row 1 of the updater.
pub(crate) fn updater_limits(z: Sizes, ld: usize, ls: usize) -> bool
    ensures { result ≡ outside (updater_numbers z) z.state.ev (ld ∷ ls ∷ []) }
{
    let lengths = or(too_long(ld), last(too_long(ls)));
    or(
        bad_number(z.ed),
        or(bad_number(z.wd), bad_sizes(z.state, lengths)),
    )
}

// Row 2 of prepare_boot. `Numbers` is asked by three rows and made by `boot_limits`: a struct for it would hold a `Geometry` again.
pub(crate) fn uneven_page(g: Geometry) -> bool
    requires { Numbers g }
    ensures { result ≡ uneven_page g }
{
    let p = g.page_size();
    let b = g.b as usize;
    let wa = g.wa as usize;
    let wd = g.wd as usize;
    let ws = g.state.ws as usize;
    let chunk = or(uneven(b, wa), or(uneven(b, wd), last(b < ws)));
    let writes = or(uneven(p, wa), or(uneven(p, wd), or(uneven(p, b), chunk)));
    or(1048576 < p, writes)
}

// Row 3 of prepare_boot.
pub(crate) fn uneven_areas(g: Geometry, la: usize, ld: usize) -> bool
    requires { Numbers g × (la ≤ most_length) }
    ensures { result ≡ uneven_areas g la ld }
{
    let p = g.page_size();
    or(uneven(la, p), or(uneven(ld, p), last(ld < la + p)))
}

// Row 4: the state area has to hold `least` words.
pub(crate) fn bad_state(least: usize, z: StateSizes, ls: usize) -> bool
    requires { (0 < z.es) × (0 < z.ws) }
    ensures { result ≡ bad_state least z ls }
{
    let es = z.es as usize;
    let ws = z.ws as usize;
    or(uneven(es, ws), or(uneven(ls, es), last(ls / ws < least)))
}

// The words that a boot with n pages wants.
pub(crate) fn boot_words(n: usize) -> usize
    requires { n ≤ most_length }
    ensures { result ≡ boot_words n }
{
    4 * n + 3
}

// Row 4 of prepare_boot.
pub(crate) fn bad_boot_state(g: Geometry, la: usize, ls: usize) -> bool
    requires { Numbers g × (la ≤ most_length) }
    ensures { result ≡ bad_state (boot_words (pages g la)) g.state ls }
{
    let n = la / g.page_size();
    bad_state(boot_words(n), g.state, ls)
}
