// The end of the bench program's output, on values: the line that is missing, or the areas in hexadecimal, some bytes at a time. What it
// gives is the definition `output` of the crate `bench_output`; writing is the caller's.
#![tactic(auto)]

ghost use Rattle.std.specs.Prelude.{◌≡◌, ℕ, ◌+◌, ◌%◌, ◌^◌, ◌<◌, ◌≤◌, true, false, List, [], ◌++◌, length};
ghost use Rattle.answer_text.specs.Answers.{bad_line_text};
ghost use Rattle.bench_lines.specs.Machine.{most_lines, Sound, Counted, to_come};
ghost use Rattle.bench_areas.specs.Tail.{tail_text, Room, due, Moved};

use answer_text::{SHOWN, Text};
use bench_images::Areas;
use bench_lines::{Machine, Phase};
use lines::Lengths;

// What is still to be written: the areas from this one's byte on. Over is a variant and no None, so that `due` and `tail_text` are one match.
#[derive(Clone, Copy, Debug, PartialEq, Eq)]
pub enum Tail {
    Active(Lengths, usize),
    Dfu(Lengths, usize),
    State(Lengths, usize),
    Over,
}

// The text that is due now, and what comes next.
#[derive(Drop)]
pub struct Rest {
    pub text: Text,
    pub tail: Tail,
}

// A test of its own beside the machine's: a tail is no phase.
pub fn is_over(t: Tail) -> bool
    ensures more { result ≡ false → 0 < due t }
    ensures none { result ≡ true → t ≡ Tail.Over }
{
    matches!(t, Tail::Over)
}

fn named(label: &[u8], tail: Tail) -> Rest
    requires { length label.now ≤ 64 }
    ensures { (result.tail ≡ tail) × (result.text.items ≡ label.now) }
{
    let mut text = Text::new();
    answer_text::put_bytes(&mut text, label);
    Rest { text, tail }
}

// The input's end, where no line is held: the first two lines must have come.
pub fn close(m: &Machine) -> Rest
    ensures { Sound m.now → Counted m.now [] → m.now.held ≡ 0
        → Room result.tail × (to_come m.now [] ≡ result.text.items ++ tail_text result.tail m.now.bench.areas) }
{
    match m.bench.phase {
        Phase::Sizes | Phase::Lengths(_) => Rest {
            text: answer_text::bad_line_text(m.bench.lines.wrapping_add(1)),
            tail: Tail::Over,
        },
        Phase::Commands(s) => named(b"active ", Tail::Active(s.l, 0)),
        Phase::Over => named(b"", Tail::Over),
    }
}

// ---- the areas

// The next 32 bytes of an area's first n, from `at` on; where none is left, what follows the area. An area
// has the most bytes that one may have, fixed, so how many of them are used stands beside it.
fn part(area: &[u8], n: usize, at: usize, again: Tail, label: &[u8], then: Tail) -> Rest
    requires { length label.now ≤ 64 }
    ensures { Moved area.now n at again label.now then result.tail result.text.items }
{
    if n > area.len() || at >= n {
        return named(label, then);
    }
    Rest {
        text: answer_text::hex_text(&area[at..n]),
        tail: again,
    }
}

fn next(at: usize) -> usize
    ensures { result ≡ (at + 32) % 2 ^ 64 }
{
    at.wrapping_add(SHOWN)
}

// The next text: some bytes of an area, or its end and the next one's name. An arm for each area: a type that chose the area would need a
// match of its own for its bytes, its length, its name and the area after it.
pub fn more(t: Tail, areas: &Areas) -> Rest
    ensures tail_bound { 0 < due t → due result.tail < due t }
    ensures room { Room t → Room result.tail × (tail_text t areas.now ≡ result.text.items ++ tail_text result.tail areas.now) }
{
    match t {
        Tail::Active(l, at) => {
            let again = Tail::Active(l, next(at));
            part(
                &areas.active,
                l.active,
                at,
                again,
                b"\ndfu ",
                Tail::Dfu(l, 0),
            )
        }
        Tail::Dfu(l, at) => {
            let again = Tail::Dfu(l, next(at));
            part(&areas.dfu, l.dfu, at, again, b"\nstate ", Tail::State(l, 0))
        }
        Tail::State(l, at) => {
            let again = Tail::State(l, next(at));
            part(&areas.state, l.state, at, again, b"\n", Tail::Over)
        }
        Tail::Over => named(b"", Tail::Over),
    }
}
