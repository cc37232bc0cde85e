// Holding a case to what the sheet says, and saying how it came out.
use rules::{Answer, Done, Stop};
use std::{fmt, io};

// An answer as document 01 writes it: the number, the state or a dash, the operations.
#[derive(Clone, Copy)]
pub struct Told(pub Answer);

impl fmt::Display for Told {
    fn fmt<W: fmt::Write>(&self, f: &mut fmt::Formatter<W>) -> fmt::Result {
        match self.0 {
            Ok(
                Done {
                    state: Some(state),
                    count,
                },
            ) => write!(f, "0 {state:?} {count}"),
            Ok(Done { state: None, count }) => write!(f, "0 - {count}"),
            Err(Stop::Refused(why)) => write!(f, "{} - 0", why.number()),
            Err(Stop::Cut(count)) => write!(f, "7 - {count}"),
        }
    }
}

// Where a case does not come out as the sheet says.
#[derive(Clone, Copy, Debug, PartialEq, Eq)]
pub enum Difference {
    Answer,
    Areas,
}

impl fmt::Display for Difference {
    fn fmt<W: fmt::Write>(&self, f: &mut fmt::Formatter<W>) -> fmt::Result {
        f.write_str(match self {
            Difference::Answer => "NOT THE SHEET'S ANSWER",
            Difference::Areas => "NOT THE SHEET'S AREAS",
        })
    }
}

// Holds what came of a case to what the sheet says.
pub fn held<T: PartialEq>(came: &T, said: &T, otherwise: Difference) -> Result<(), Difference> {
    if came == said { Ok(()) } else { Err(otherwise) }
}

// How many cases came out as the sheet says.
#[derive(Clone, Copy)]
pub struct Tally {
    pub right: u32,
}

impl Tally {
    // Says how a case came out, and counts it if it is right.
    pub fn count(&mut self, rt: &impl Print, outcome: Result<(), Difference>) -> io::Result<()> {
        match outcome {
            Ok(()) => {
                self.right = self.right.saturating_add(1);
                println!(rt; "  as the sheet says")
            }
            Err(difference) => println!(rt; "  {difference}"),
        }
    }
}
