// The lines of the bench program's input: cutting the input into them, and what each kind of line says. The rules are in
// specs/Lines, over the numbers of `numerals`; every function here answers just what they say, so nothing that they allow is refused,
// and nothing else is taken.
#![tactic(auto)]

ghost use Rattle.std.specs.Prelude.{◌≡◌, length};
ghost use Rattle.numerals.specs.Text.{up_to};
ghost use Rattle.lines.specs.Lines.{sizes_line, lengths_line, command_line, most_bytes, most_length, taken_at, held_then};
ghost use Rattle.lines.specs.Grammar.{name_of};
ghost use Rattle.lines.specs.Lines.{named as Lines·named};

use geometry::{Geometry, StateSizes};
use state::State;

// The most bytes that a line has.
pub const MOST_BYTES: usize = 80;

// The most bytes that an area has.
pub const MOST_LENGTH: u32 = 16384;

const LINE_FEED: u8 = b'\n';

// The names of the commands.
const UPDATE: &[u8] = b"update";

const BOOTED: &[u8] = b"booted";

const BOOT: &[u8] = b"boot";

// The lengths of the three areas.
#[derive(Clone, Copy, Debug, PartialEq, Eq)]
pub struct Lengths {
    pub active: usize,
    pub dfu: usize,
    pub state: usize,
}

// A command, with its budget. A kind beside a number would be two types, and no match on them shorter.
#[derive(Clone, Copy, Debug, PartialEq, Eq)]
pub enum Command {
    Update(u32),
    Booted(u32),
    Boot(u32),
}

impl Command {
    // The name as bytes and no Display: a text is put together of bytes, which cannot fail.
    pub fn name(self) -> &'static [u8]
        ensures { result.now ≡ name_of self }
    {
        match self {
            Command::Update(_) => UPDATE,
            Command::Booted(_) => BOOTED,
            Command::Boot(_) => BOOT,
        }
    }
}

// What a piece of the input added to a line: three ways, so neither an Option nor a Result.
#[derive(Clone, Copy, Debug, PartialEq, Eq)]
pub enum Taken {
    // The line is whole: its bytes, and where the next one starts.
    Line(usize, usize),
    // The piece is used up: the bytes so far.
    Part(usize),
    // The line has more bytes than a line may have.
    Long,
}

// Takes the bytes of a piece from `at` on to the n that are held, up to a line feed. The input comes in pieces of any length, so a
// line may begin in one and end in another. The buffer and n stand apart: `held_then`, and with it the theorem `pieces`, says what the
// buffer holds past n too.
pub fn take_line(held: &mut [u8; MOST_BYTES], n: usize, piece: &[u8], at: usize) -> Taken
    ensures { (result ≡ taken_at most_bytes n piece.now at)
        × (held.new ≡ held_then most_bytes held.old n piece.now at) }
{
    gather(held, n, piece, at)
}

// The same with as many bytes as there is room for.
fn gather(held: &mut [u8], n: usize, piece: &[u8], at: usize) -> Taken
    ensures { (result ≡ taken_at (length held.old) n piece.now at)
        × (held.new ≡ held_then (length held.old) held.old n piece.now at) }
{
    let rest = piece.get(at..).unwrap_or(&[]);
    let Some(room) = held.len().checked_sub(n) else {
        return Taken::Long;
    };
    // One byte past the room tells that the line is too long, however much of the piece is left.
    let near = &rest[..rest.len().min(room.saturating_add(1))];
    let k = numerals::find(near, LINE_FEED);
    let fits = k.min(room);
    held[n..n + fits].copy_from_slice(&near[..fits]);
    if k > room {
        Taken::Long
    } else if k < near.len() {
        Taken::Line(n + k, at + k + 1)
    } else {
        Taken::Part(n + k)
    }
}

// Ea Wa Ed Wd Es Ws b. The erase value is not in the line: the flash of the bench erases as the Rust's default build has it.
#[tactic(auto, unfolding(crate::specs::Lines::sizes_line, crate::specs::Lines::sizes_of, state::specs::Cells::erased))]
pub fn read_sizes(line: &[u8]) -> Option<Geometry>
    ensures { result ≡ sizes_line line.now }
{
    let [ea, wa, ed, wd, es, ws, b] = numerals::row::<7>(line)?;
    let ev = State::ERASE_VALUE as u32;
    let state = StateSizes { es, ws, ev };
    Some(Geometry {
        ea,
        wa,
        ed,
        wd,
        state,
        b,
    })
}

// La Ld Ls, each at most MOST_LENGTH.
#[tactic(auto, using(crate::proofs::Said::first_long, crate::proofs::Said::second_long, crate::proofs::Said::third_long, crate::proofs::Said::all_short), unfolding(crate::specs::Lines::lengths_line, crate::specs::Lines::lengths_of))]
pub fn read_lengths(line: &[u8]) -> Option<Lengths>
    ensures { result ≡ lengths_line line.now }
{
    let [active, dfu, state] = numerals::row::<3>(line)?;
    Some(Lengths {
        active: length(active)?,
        dfu: length(dfu)?,
        state: length(state)?,
    })
}

#[tactic(auto, unfolding(numerals::specs::Text::up_to, state::specs::Choice::pick))]
fn length(n: u32) -> Option<usize>
    ensures { result ≡ up_to most_length n }
{
    if n <= MOST_LENGTH {
        Some(n as usize)
    } else {
        None
    }
}

// A name and a number.
#[tactic(auto, using(crate::proofs::Said::alone), unfolding(crate::specs::Lines::command_line, crate::specs::Lines::command_of, crate::specs::Lines::ordered, numerals::specs::Text::row))]
pub fn read_command(line: &[u8]) -> Option<Command>
    ensures { result ≡ command_line line.now }
{
    let (name, rest) = numerals::cut(line);
    let [budget] = numerals::row::<1>(rest?)?;
    named(name, budget)
}

// Not a match on the words: each of the 18 ways in which it can miss them is a goal by itself.
#[tactic(auto, using(crate::proofs::Said::same_is), unfolding(crate::specs::Lines::named, state::specs::Choice::pick))]
fn named(name: &[u8], budget: u32) -> Option<Command>
    ensures { result ≡ Lines·named name.now budget }
{
    if name == UPDATE {
        Some(Command::Update(budget))
    } else if name == BOOTED {
        Some(Command::Booted(budget))
    } else if name == BOOT {
        Some(Command::Boot(budget))
    } else {
        None
    }
}
