// What the boot loader and the firmware state both do with the state area, lines that the Rust writes in both files; and the search for
// the progress, which the loader alone asks for.
// A word that an area does not have whole is what there is of it, so nothing is asked of the caller; but where the search is to begin
// there must be a mark. The area and its sizes are two parameters: six of these functions read the area and two change it, so a struct of
// both would be two, one for each kind of reference.
#![tactic(auto)]

ghost use Rattle.std.specs.Prelude.{◌≡◌, ◌+◌, ◌-◌, ◌*◌, ◌≤◌, ◌<◌, length};
ghost use Rattle.state.specs.Magic.{throughout};
ghost use Rattle.geometry.specs.Geometry.{words};
ghost use Rattle.state_area.specs.Area.{Invalidated, Renewed};
ghost use Rattle.rules.specs.StateArea.{word, read_state, valid, most_marks, first_open, marks_done, progress};

use geometry::{Offset, StateSizes, Word};
use mem_flash::{Budget, PowerCut};
use state::State;

// The words that are no marks: the magic, and the validity of the progress.
const MAGIC: Word = Word(0);

const VALIDITY: Word = Word(1);

// The bytes of one of them, as many as there are.
fn word_of(state: &[u8], w: Word, z: StateSizes) -> &[u8]
    requires { w.0 ≤ 1 }
    ensures { result.now ≡ word z w.0 state.now }
{
    let start = geometry::least(w.offset(z).0, state.len());
    let rest = &state[start..];
    let end = geometry::least(z.ws as usize, rest.len());
    &rest[..end]
}

// Whether each byte of it is `value`.
fn word_is(state: &[u8], w: Word, z: StateSizes, value: u8) -> bool
    requires { w.0 ≤ 1 }
    ensures { result ≡ throughout value (word z w.0 state.now) }
{
    state::word::all_are(word_of(state, w, z), value)
}

// Whether each byte of word 0 is `value`.
pub fn magic_is(state: &[u8], z: StateSizes, value: u8) -> bool
    ensures { result ≡ throughout value (word z 0 state.now) }
{
    word_is(state, MAGIC, z, value)
}

// The state that word 0 stands for.
pub fn read(state: &[u8], z: StateSizes) -> State
    ensures { result ≡ read_state z state.now }
{
    State::from(word_of(state, MAGIC, z))
}

// Whether the progress counts: each byte of word 1 is as an erase leaves it.
pub fn is_valid(state: &[u8], z: StateSizes) -> bool
    ensures { result ≡ valid z state.now }
{
    word_is(state, VALIDITY, z, z.cell().erased())
}

// How many marks are read: three fewer than there are words.
fn most_marks(n: usize, z: StateSizes) -> usize
    ensures { result ≡ words z.ws n - 3 }
{
    let ws = z.ws as usize;
    if ws == 0 {
        0
    } else {
        (n / ws).saturating_sub(3)
    }
}

// The first open mark from one on among those that are read, or how many these are. A mark is open while it holds an erased byte, so
// the first erased byte from there on, wherever in its word it stands, is in the first open mark: one search serves words of every
// size.
pub fn first_open(state: &[u8], z: StateSizes, from: usize) -> usize
    requires { (0 < z.ws) × ((3 + from) * z.ws ≤ length state.now) }
    ensures { result ≡ first_open z state.now (most_marks z state.now - from) from }
{
    let ws = z.ws as usize;
    let start = (2 + from) * ws;
    let erased = z.cell().erased();
    // Where the mark itself is open there is nothing to search.
    if state[start] == erased {
        return from;
    }
    let end = (2 + most_marks(state.len(), z)) * ws;
    from + byte_search::first(&state[start..end], erased) / ws
}

// The leading done marks, whether they count or not.
pub fn marks_done(state: &[u8], z: StateSizes) -> usize
    ensures { result ≡ marks_done z state.now }
{
    let ws = z.ws as usize;
    if ws == 0 {
        return 0;
    }
    // Fewer than four words have no mark that is read.
    if state.len() / 4 < ws {
        return 0;
    }
    first_open(state, z, 0)
}

// The first step that is not done, as the marks say it; where they do not count, as many as are read.
pub fn progress(state: &[u8], z: StateSizes) -> usize
    ensures { result ≡ progress z state.now }
{
    if !is_valid(state, z) {
        return most_marks(state.len(), z);
    }
    marks_done(state, z)
}

// Makes the progress invalid: one operation.
pub fn invalidate(state: &mut [u8], z: StateSizes, left: Budget) -> Result<Budget, PowerCut>
    ensures { Invalidated left.0 z state.old state.new result }
{
    let cell = z.cell();
    let at = VALIDITY.offset(z);
    mem_flash::write_word(state, at, cell.marked(), z.ws as usize, cell, left)
}

// Erases the whole area, magic and progress, and writes a magic.
pub fn renew(state: &mut [u8], z: StateSizes, magic: u8, left: Budget) -> Result<Budget, PowerCut>
    ensures { Renewed left.0 z magic state.old state.new result }
{
    let cell = z.cell();
    let n = state.len();
    let rest = mem_flash::erase(state, Offset(0), Offset(n), z.es as usize, cell, left)?;
    let at = MAGIC.offset(z);
    mem_flash::write_word(state, at, magic, z.ws as usize, cell, rest)
}
