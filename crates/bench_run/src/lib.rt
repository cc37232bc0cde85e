// The bench program on a reader and a writer. What is written is decided in the crates `bench_lines` and `bench_areas`, on values; here
// the input is read into a buffer, piece by piece, and the texts that they give are written. specs/Runs says what a run is, and that its
// texts are the definition `output` of the input.
#![tactic(auto)]

ghost use Rattle.std.specs.Prelude.{◌≡◌, ℕ, ◌+◌, ◌^◌, ◌<◌, List, [], ◌++◌, length, Some, IfSome, IfOk, OnOk};
ghost use Rattle.std.specs.Io.KnownBytes.{Appends};
ghost use Rattle.bench_output.specs.Output.{output};
ghost use Rattle.bench_lines.specs.declared.Phase.TheVariants as phases;
ghost use Rattle.bench_areas.specs.Tail.{Room, tail_text};
ghost use Rattle.bench_run.specs.Writes.{Writes, Turns};

use arrayvec::ArrayString;
use bench_areas::Tail;
use bench_images::Areas;
use bench_lines::{Machine, Phase};
use std::fmt::Write as _;
use std::io;
use std::io::{Read, Write};

// Why a run stopped before its end.
#[derive(Debug, Drop)]
pub enum Failure {
    Reading(io::Error),
    Writing(io::Error),
}

// Writes what is due.
fn say<W: Write>(to: &mut W, text: &[u8]) -> Result<(), Failure>
    ensures { OnOk result (Appends (W.contents to.old) (W.contents to.new) text.now) }
{
    to.write_all(text).map_err(Failure::Writing)
}

// Why a line is bad, on standard error: by what was expected. Standard output says which line it is, so what cannot be said here is lost.
fn explain(rt: &impl Eprint, expected: Phase) {
    let _ = match expected {
        Phase::Sizes => rt.eprintln(
            "bad line: the first line is seven numbers, Ea Wa Ed Wd Es Ws b, with single spaces, in at most 80 bytes",
        ),
        Phase::Lengths(_) => rt.eprintln(
            "bad line: the second line is three lengths, La Ld Ls, each at most 16384, with single spaces, in at most 80 bytes",
        ),
        Phase::Commands(_) => rt.eprintln(
            "bad line: a command is update, booted or boot, a space and a number up to 4294967295, in at most 80 bytes",
        ),
        Phase::Over => Ok(()),
    };
}

// Where nothing follows a line, it was bad.
fn judge(rt: &impl Eprint, expected: Phase, machine: &Machine) {
    if machine.is_over() {
        explain(rt, expected);
    }
}

// A piece of the input. The steps are as long as the lines, so no `for` takes them.
fn feed<W: Write>(
    rt: &impl Eprint,
    to: &mut W,
    machine: &mut Machine,
    piece: &[u8],
) -> Result<(), Failure>
    ensures { OnOk result ((rest : List ℕ)
        → Writes (W.contents to.old) (W.contents to.new) machine.old (piece.now ++ rest) machine.new rest) }
{
    let mut at = 0;
    while at < piece.len() {
        if machine.is_over() {
            return Ok(());
        }
        let expected = machine.bench.phase;
        let turn = machine.next(piece, at);
        say(to, turn.text.as_slice())?;
        judge(rt, expected, machine);
        at = turn.at;
    }
    Ok(())
}

// The areas, text by text: a loop over a state, which no iterator of std has.
fn show<W: Write>(to: &mut W, tail: Tail, areas: &Areas) -> Result<(), Failure>
    ensures { OnOk result (Room tail → Appends (W.contents to.old) (W.contents to.new) (tail_text tail areas.now)) }
{
    let mut tail = tail;
    while !bench_areas::is_over(tail) {
        let rest = bench_areas::more(tail, areas);
        say(to, rest.text.as_slice())?;
        tail = rest.tail;
    }
    Ok(())
}

// After the last piece. The first two lines must have come before the input's end.
fn finish<W: Write>(rt: &impl Eprint, to: &mut W, machine: &mut Machine) -> Result<(), Failure>
    ensures { OnOk result ((machine.new.bench.phase ≡ phases.Over)
        × Writes (W.contents to.old) (W.contents to.new) machine.old [] machine.new []) }
{
    let expected = machine.bench.phase;
    let text = machine.last();
    say(to, text.as_slice())?;
    judge(rt, expected, machine);
    if !matches!(machine.bench.phase, Phase::Commands(_)) {
        explain(rt, machine.bench.phase);
    }
    let rest = bench_areas::close(machine);
    say(to, rest.text.as_slice())?;
    show(to, rest.tail, &machine.bench.areas)?;
    machine.bench.phase = Phase::Over;
    Ok(())
}

// Reads once, and feeds what came.
fn turn<R: Read, W: Write>(
    rt: &impl Eprint,
    from: &mut R,
    to: &mut W,
    machine: &mut Machine,
) -> Result<(), Failure>
    ensures { OnOk result ((xs : List ℕ) → R.remaining from.old ≡ Some xs
        → Turns (R.remaining from.new) (W.contents to.old) (W.contents to.new) machine.old xs machine.new) }
{
    let mut piece = [0u8; 4096];
    let n = from.read(&mut piece).map_err(Failure::Reading)?;
    if n == 0 {
        return finish(rt, to, machine);
    }
    feed(rt, to, machine, &piece[..n])
}

// Runs the bench on an input, and writes to an output. A proved loop has to end, and nothing says that the input does; so the turns are
// counted up to a number that no run reaches. Where it is known what the input holds and what was written before, what was written then
// is the definition `output` of the input.
pub fn run<R: Read, W: Write>(rt: &impl Eprint, from: &mut R, to: &mut W) -> Result<(), Failure>
    ensures { OnOk result (IfSome (R.remaining from.old) (λ xs. length xs + 1 < 2 ^ 64
        → Appends (W.contents to.old) (W.contents to.new) (output xs))) }
{
    let mut machine = Machine::start();
    for _ in 0..u64::MAX {
        if machine.is_over() {
            return Ok(());
        }
        turn(rt, from, to, &mut machine)?;
    }
    Ok(())
}

// ---- what the system refused

// Of what std prints for an error the system's own words: all but its number, which is in brackets at the end.
fn words_of(text: &str) -> &str {
    match text.split_once(" (os error ") {
        Some((words, _)) => words,
        None => text,
    }
}

// A line on standard error: what failed, and the system's words for it.
pub fn complain(rt: &impl Eprint, what: &str, error: &io::Error) -> io::Result<()> {
    let mut text = ArrayString::<512>::new();
    write!(text, "{error}")?;
    let words = words_of(text.as_str());
    eprintln!(rt; "{what}: {words}")
}

// Why a run stopped before its end, on standard error.
pub fn tell(rt: &impl Eprint, failure: &Failure) -> io::Result<()> {
    match failure {
        Failure::Reading(e) => complain(rt, "reading the input", e),
        Failure::Writing(e) => complain(rt, "writing the output", e),
    }
}
