// The geometry of the three areas, and the refusals that stand for the Rust's assertions on it. `verdicts` judges by them.
#![tactic(auto)]

ghost use Rattle.std.specs.Prelude.{◌≡◌, ◌*◌, ◌^◌, ◌<◌, min};
ghost use Rattle.geometry.specs.Geometry.{cell, page};
ghost use Rattle.geometry.specs.Refusals.{number};

use state::Cell;

// The sizes of the state area: its erase size and its write size; and the erase value, 255 or 0, which the three areas share. It stands
// here since every call reads the state area.
#[derive(Clone, Copy, Debug, PartialEq, Eq)]
pub struct StateSizes {
    pub es: u32,
    pub ws: u32,
    pub ev: u32,
}

// The sizes in bytes. In the Rust they are constants of the flash types, and the chunk is the length of a buffer.
#[derive(Clone, Copy, Debug, PartialEq, Eq)]
pub struct Geometry {
    // Active: erase size and write size.
    pub ea: u32,
    pub wa: u32,
    // DFU.
    pub ed: u32,
    pub wd: u32,
    pub state: StateSizes,
    // The chunk in which a page is copied.
    pub b: u32,
}

// The sizes that the firmware updater reads: those of DFU and of the state area.
#[derive(Clone, Copy, Debug, PartialEq, Eq)]
pub struct Sizes {
    pub ed: u32,
    pub wd: u32,
    pub state: StateSizes,
}

// A page of an image, a word of the state area, a byte of an area: three kinds, so that none is passed for another.
#[derive(Clone, Copy, Debug, PartialEq, Eq)]
pub struct Page(pub usize);

#[derive(Clone, Copy, Debug, PartialEq, Eq)]
pub struct Word(pub usize);

#[derive(Clone, Copy, Debug, PartialEq, Eq)]
pub struct Offset(pub usize);

// Why a call says no, with its number in the table; 7 is that of a cut. `BadState` is the Rust's; the others are its assertions.
#[derive(Clone, Copy, Debug, PartialEq, Eq)]
pub enum Refusal {
    // A number or a length is past its limit.
    Limit = 1,
    // The sizes do not divide a page.
    Page = 2,
    // The images are no whole number of pages, or DFU is too short.
    Area = 3,
    // The state area is no whole number of units, or has too few words.
    StateArea = 4,
    // A swap is pending.
    BadState = 5,
    // The bytes asked for are not in the area, or not on its write units.
    Range = 6,
    // The bytes do not have the sum that was expected.
    Checksum = 8,
}

impl Refusal {
    // The refusal's number in the table, its discriminant.
    #[tactic(auto, unfolding(crate::specs::Refusals::number))]
    pub fn number(self) -> u32
        ensures { result ≡ number self }
    {
        self as u32
    }
}

impl Page {
    // Where it begins in its image.
    pub fn offset(self, page_size: usize) -> Offset
        requires { self.0 * page_size < 2 ^ 64 }
        ensures { result.0 ≡ self.0 * page_size }
    {
        Offset(self.0 * page_size)
    }
}

impl Word {
    // Where it begins in the state area.
    pub fn offset(self, sizes: StateSizes) -> Offset
        requires { self.0 * sizes.ws < 2 ^ 64 }
        ensures { result.0 ≡ self.0 * sizes.ws }
    {
        Offset(self.0 * sizes.ws as usize)
    }
}

impl StateSizes {
    // The cells that the erase value tells of. The Rust is built for one or the other.
    pub fn cell(self) -> Cell
        ensures { result ≡ cell self }
    {
        if self.ev == 0 { Cell::Low } else { Cell::High }
    }
}

impl Geometry {
    // The Rust's PAGE_SIZE: the unit in which images are copied. The Rust takes the larger of the two erase sizes, and does not build
    // where the smaller does not divide it.
    pub fn page_size(self) -> usize
        ensures { result ≡ page self }
    {
        gcd::least_common(self.ea, self.ed)
    }
}

// The lesser of two numbers, what a range takes of the bytes that there are: `min` by the name that the edits least_is_first and
// least_is_most speak of.
pub fn least(a: usize, b: usize) -> usize
    ensures { result ≡ min a b }
{
    a.min(b)
}
