// The text that the bench program writes, put together and proved against specs/Answers; writing it is the caller's.
#![tactic(auto)]

ghost use Rattle.std.specs.Prelude.{◌≡◌, ◌+◌, ◌≤◌, ◌<◌, [], ◌++◌, length, take};
ghost use Rattle.io.specs.Digits.{hex_digit_ascii};
ghost use Rattle.rules.specs.Calls.{reported};
ghost use Rattle.answer_text.specs.Answers.{decimal, state_text, command_text, bad_line_text, hex_of};

use lines::Command;
use rules::{Answer, Done, Stop};
use state::State;
use std::marker::Model;

// The most bytes that a text has.
pub const ROOM: usize = 64;

// The most bytes that a text of hexadecimal digits shows.
pub const SHOWN: usize = 32;

// A text, and how long it is. No ArrayVec, which is not Copy: what bench_lines answers holds a text, and is.
#[derive(Clone, Copy)]
pub struct Text {
    bytes: [u8; ROOM],
    len: usize,
}

impl Model for Text {
    ghost use Rattle.std.specs.Prelude.{◌≡◌, ◌≤◌, ◌++◌, length, take, drop};
    ghost use Rattle.std.proofs.Common.{arith, take-append-drop, length-take-le};
    ghost use Rattle.answer_text.specs.Texts.{Text as Items};

    ghost Value = { Items };

    ghost view = { λ t. record { items = take t.len t.bytes; spare = drop t.len t.bytes } };

    ghost invariant = { λ t. (t.len ≤ 64) × (length t.bytes ≡ 64) };

    ghost inverse = { λ t. record { bytes = t.items ++ t.spare; len = length t.items } };

    ghost inverse_ok = { λ t h i. record {
      bytes = take-append-drop t.len t.bytes i;
      len = length-take-le t.len t.bytes (omega (arith, h.0, h.1)) i;
    } };
}

impl Text {
    pub fn new() -> Self
        ensures { result.items ≡ [] }
    {
        Text {
            bytes: [0; ROOM],
            len: 0,
        }
    }

    pub fn as_slice(&self) -> &[u8]
        ensures value { result.now ≡ self.now.items }
        ensures fits { length result.now ≤ ROOM }
    {
        &self.bytes[..self.len]
    }
}

// What an answer that was cut by its budget is numbered.
const CUT: u32 = 7;

const SPACE: u8 = b' ';

// What an answer tells, as it is written: the number of the table and a byte for the state, since these are what is printed.
#[derive(Clone, Copy, Debug, PartialEq, Eq)]
struct Parts {
    number: u32,
    state: u8,
    count: u32,
}

// A state by its number, and a dash where there is none.
#[tactic(auto, unfolding(crate::specs::Answers::state_text, state::specs::Magic::state_number))]
fn state_digit(state: Option<State>) -> u8
    ensures { result ≡ state_text state }
{
    match state {
        None => b'-',
        Some(s) => digit(s as u8),
    }
}

#[tactic(auto, unfolding(crate::specs::Answers::state_text, rules::specs::Calls::reported))]
fn tell(answer: Answer) -> Parts
    ensures number { result.number ≡ (reported answer).number }
    ensures state { result.state ≡ state_text (reported answer).state }
    ensures count { result.count ≡ (reported answer).count }
{
    let (number, state, count) = match answer {
        Ok(Done { state, count }) => (0, state, count),
        Err(Stop::Refused(why)) => (why.number(), None, 0),
        Err(Stop::Cut(count)) => (CUT, None, count),
    };
    Parts {
        number,
        state: state_digit(state),
        count,
    }
}

// ---- putting bytes after those that stand there. No `write!`: it can fail for want of room, and these can't.

// The caller sees to the room.
pub fn put_bytes(text: &mut Text, bytes: &[u8])
    requires { length text.old.items + length bytes.now ≤ ROOM }
    ensures { text.new.items ≡ text.old.items ++ bytes.now }
{
    let end = text.len + bytes.len();
    text.bytes[text.len..end].copy_from_slice(bytes);
    text.len = end;
}

// io::decimal asks for a buffer, and tells how much of it is used.
fn put_number(text: &mut Text, x: u64)
    requires { length text.old.items + 20 ≤ ROOM }
    ensures items { text.new.items ≡ text.old.items ++ decimal x }
    ensures len { length text.new.items ≤ length text.old.items + 20 }
{
    let mut digits = [0u8; 20];
    let k = io::decimal(x, &mut digits);
    put_bytes(text, &digits[..k]);
}

// A command's line.
pub fn command_text(command: Command, answer: Answer) -> Text
    ensures { result.items ≡ command_text command (reported answer) }
{
    let told = tell(answer);
    let mut text = Text::new();
    put_bytes(&mut text, command.name());
    put_bytes(&mut text, b" ");
    put_number(&mut text, u64::from(told.number));
    put_bytes(&mut text, &[SPACE, told.state, SPACE]);
    put_number(&mut text, u64::from(told.count));
    put_bytes(&mut text, b"\n");
    text
}

// The line that says which line is bad.
pub fn bad_line_text(line: u64) -> Text
    ensures { result.items ≡ bad_line_text line }
{
    let mut text = Text::new();
    put_bytes(&mut text, b"bad line ");
    put_number(&mut text, line);
    put_bytes(&mut text, b"\n");
    text
}

// ---- bytes in hexadecimal

// One digit: the library writes pairs of them, into a buffer or a text.
fn digit(x: u8) -> u8
    requires { x < 16 }
    ensures { result ≡ hex_digit_ascii x }
{
    if x < 10 { b'0' + x } else { b'a' - 10 + x }
}

// The first SHOWN bytes, or all of them, two digits each.
pub fn hex_text(bytes: &[u8]) -> Text
    ensures { result.items ≡ hex_of (take SHOWN bytes.now) }
{
    let mut text = Text::new();
    let part = &bytes[..bytes.len().min(SHOWN)];
    for b in part {
        put_bytes(&mut text, &[digit(*b / 16), digit(*b % 16)]);
    }
    text
}
