// The areas of a device, before a case and after it.
use arrayvec::ArrayVec;
use state::State;
use std::io::Write;
use std::{fmt, io};

const PAGE_SIZE: usize = 4;

// No area of the sheet is longer.
const LONGEST: usize = 28;

pub type Area = ArrayVec<u8, LONGEST>;

// The two images, a byte for each page: the one of which it is made.
#[derive(Clone, Copy)]
pub struct Pages<'a> {
    pub active: &'a [u8],
    pub dfu: &'a [u8],
}

#[derive(PartialEq, Eq, Drop)]
pub struct Areas {
    pub active: Area,
    pub dfu: Area,
    pub state: Area,
}

fn image(pages: &[u8]) -> io::Result<Area> {
    let mut image = Area::new();
    for page in pages {
        image.write_all(&[*page; PAGE_SIZE])?;
    }
    Ok(image)
}

impl Areas {
    pub fn new(pages: Pages<'_>, state: &[u8]) -> io::Result<Self> {
        let mut marks = Area::new();
        marks.write_all(state)?;
        Ok(Areas {
            active: image(pages.active)?,
            dfu: image(pages.dfu)?,
            state: marks,
        })
    }
}

// A state area of so many words of a byte, in which a swap is to begin.
pub fn swap_state(words: u32) -> Area {
    let mut state = Area::from([State::ERASE_VALUE; LONGEST]);
    state.truncate(words as usize);
    if let Some(first) = state.first_mut() {
        *first = State::SWAP_MAGIC;
    }
    state
}

// Bytes as they are printed.
#[derive(Clone, Copy)]
pub struct Hex<'a>(pub &'a [u8]);

impl fmt::Display for Hex<'_> {
    fn fmt<W: fmt::Write>(&self, f: &mut fmt::Formatter<W>) -> fmt::Result {
        for byte in self.0 {
            write!(f, "{byte:02x}")?;
        }
        Ok(())
    }
}

impl fmt::Display for Areas {
    fn fmt<W: fmt::Write>(&self, f: &mut fmt::Formatter<W>) -> fmt::Result {
        writeln!(f, "  active {}", Hex(&self.active))?;
        writeln!(f, "  dfu    {}", Hex(&self.dfu))?;
        writeln!(f, "  state  {}", Hex(&self.state))
    }
}
