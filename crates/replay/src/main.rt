// Replays a sample of the original's answers, read from standard input, through the library, and says how many calls of each kind
// came out the same. It lets the repository's own tests hold the library to the original without a Rust compiler. What the sample
// is made of, and its format, stands in the README of the folder oracle.
#![tactic(auto)]

use byteorder::{LittleEndian, ReadBytesExt};
use kind::Kind;
use std::io::{ErrorKind, Read};
use std::{fmt, io};

mod kind;
mod record;

// Why a sample is not replayed to its end.
#[derive(Debug, Drop)]
pub enum SampleError {
    // It ends early, or holds what no sample holds.
    Broken,
    // The input fails.
    Io(io::Error),
}

impl From<io::Error> for SampleError {
    fn from(error: io::Error) -> Self {
        if error.kind() == ErrorKind::UnexpectedEof {
            SampleError::Broken
        } else {
            SampleError::Io(error)
        }
    }
}

impl SampleError {
    // Says that the sample is broken, or hands on the input's error.
    fn tell(self, rt: &impl Print, broken: &str) -> io::Result<()> {
        match self {
            SampleError::Broken => println!(rt; "{broken}"),
            SampleError::Io(error) => Err(error),
        }
    }
}

// How many calls of each kind came out the same, and how many calls did not.
#[derive(Clone, Copy)]
struct Tally {
    same: [u32; Kind::COUNT],
    different: u32,
}

impl Tally {
    // A count stays at its top, which is past what a sample holds.
    fn count(&mut self, same: Option<Kind>) {
        let counter = match same {
            Some(kind) => &mut self.same[kind as usize],
            None => &mut self.different,
        };
        *counter = counter.saturating_add(1);
    }
}

impl fmt::Display for Tally {
    fn fmt<W: fmt::Write>(&self, f: &mut fmt::Formatter<W>) -> fmt::Result {
        for (kind, count) in Kind::ALL.iter().zip(&self.same) {
            writeln!(f, "{count} {kind}")?;
        }
        match self.different {
            0 => writeln!(f, "no difference"),
            different => writeln!(f, "{different} differences"),
        }
    }
}

const TAG: &[u8; 4] = b"EBRP";

const VERSION: u32 = 2;

// Reads the head of the sample: how many records follow.
fn read_count(input: &mut impl Read) -> Result<u32, SampleError> {
    let mut head = [0; 16];
    input.read_exact(&mut head)?;
    let mut fields = &head[..];
    let mut tag = [0; 4];
    fields.read_exact(&mut tag)?;
    let version = fields.read_u32::<LittleEndian>()?;
    let records = fields.read_u32::<LittleEndian>()?;
    if tag == *TAG && version == VERSION {
        Ok(records)
    } else {
        Err(SampleError::Broken)
    }
}

fn replay_all(input: &mut impl Read, records: u32) -> Result<Tally, SampleError> {
    let mut tally = Tally {
        same: [0; Kind::COUNT],
        different: 0,
    };
    for _ in 0..records {
        tally.count(record::replay(input)?);
    }
    Ok(tally)
}

fn main(rt: HostRuntime) -> io::Result<()> {
    let mut input = rt.stdin();
    let records = match read_count(&mut input) {
        Ok(records) => records,
        Err(error) => return error.tell(&rt, "no sample"),
    };
    match replay_all(&mut input, records) {
        Ok(tally) => print!(rt; "{tally}"),
        Err(error) => error.tell(&rt, "the sample is broken"),
    }
}
