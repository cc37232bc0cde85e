// Digests of messages whose digests are published, or that end near a block's end. Each message comes in pieces of several lengths,
// with an empty piece before each.
#![tactic(auto)]

ghost use Rattle.std.specs.Prelude.{◌<◌};

use sha512::Stream;
use std::{fmt, io};

// Of two digits a byte, so that a digest's line is written whole.
#[derive(Clone, Copy)]
struct Digest([u8; 64]);

impl fmt::Display for Digest {
    fn fmt<W: fmt::Write>(&self, f: &mut fmt::Formatter<W>) -> fmt::Result {
        for byte in self.0 {
            write!(f, "{byte:02x}")?;
        }
        Ok(())
    }
}

fn show_digest(rt: &impl Print, s: Stream) -> io::Result<()> {
    let mut digest = [0u8; 64];
    sha512::finish(s, &mut digest).unwrap();
    println!(rt; "{}", Digest(digest))
}

// A stream to which the message was added in pieces of `by` bytes, the last of those that are left.
fn in_pieces(message: &[u8], by: usize) -> Stream
    requires { 0 < by }
{
    let mut s = sha512::begin();
    for piece in message.chunks(by) {
        s = sha512::add(s, &[]);
        s = sha512::add(s, piece);
    }
    s
}

// The message's first n bytes: byte by byte, in two other cuttings, and at once.
fn case(rt: &impl Print, message: &[u8], n: usize) -> io::Result<()> {
    if let Some(part) = message.get(..n) {
        println!(rt; "{n}")?;
        for by in [1, 50, 111, 128] {
            show_digest(rt, in_pieces(part, by))?;
        }
    }
    Ok(())
}

// The first 3 bytes and the first 112 are the standard's examples.
fn cases(rt: &impl Print, message: &[u8]) -> io::Result<()> {
    for n in [0, 3, 111, 112, 127, 128] {
        case(rt, message, n)?;
    }
    Ok(())
}

fn repeated(piece: &[u8], times: usize) -> Stream {
    let mut s = sha512::begin();
    for _ in 0..times {
        s = sha512::add(s, piece);
    }
    s
}

// A million times 'a': an example of the standard's, too.
fn million(rt: &impl Print) -> io::Result<()> {
    let piece = [97u8; 125];
    println!(rt; "1000000")?;
    show_digest(rt, repeated(&piece, 8000))
}

fn main(rt: HostRuntime) -> io::Result<()> {
    cases(
        &rt,
        b"abcdefghbcdefghicdefghijdefghijkefghijklfghijklmghijklmnhijklmnoijklmnopjklmnopqklmnopqrlmnopqrsmnopqrstnopqrstuopqrstuvpqrstuvw",
    )?;
    million(&rt)
}
