// The boot state and the bytes that stand for it in flash: lib.rs of the crate.
#![tactic(auto)]

ghost use Rattle.std.specs.Prelude.{◌≡◌, [], ◌∷◌};
ghost use Rattle.state.specs.Cells.{erased, marked};
ghost use Rattle.state.specs.Magic.{magic, state_of};

pub mod word;

// What the boot loader finds to do, as the first word of the state area says it.
#[derive(Clone, Copy, Debug, PartialEq, Eq)]
pub enum State {
    // Nothing: the active image is started.
    Boot,
    // The two images are to be swapped, or the swap is to be undone.
    Swap,
    // The swap was undone.
    Revert,
    // The application asked for an update over USB.
    DfuDetach,
}

// The cells of which a flash is made, by how an erased one reads: ones, which a write turns to zeros, or the other way round.
#[derive(Clone, Copy, Debug, PartialEq, Eq)]
pub enum Cell {
    High,
    Low,
}

impl Cell {
    // What a byte of the flash holds after an erase.
    #[tactic(auto, unfolding(crate::specs::Cells::erased))]
    pub fn erased(self) -> u8
        ensures { result ≡ erased self }
    {
        match self {
            Cell::High => State::ERASE_VALUE,
            Cell::Low => !State::ERASE_VALUE,
        }
    }

    // What a mark and the invalidation write: no bit as an erase leaves it.
    #[tactic(auto, using(crate::proofs::Cells::not_erased))]
    pub fn marked(self) -> u8
        ensures { result ≡ marked self }
    {
        !self.erased()
    }
}

impl State {
    pub const REVERT_MAGIC: u8 = 0xC0;

    pub const BOOT_MAGIC: u8 = 0xD0;

    pub const SWAP_MAGIC: u8 = 0xF0;

    pub const DFU_DETACH_MAGIC: u8 = 0xE0;

    // What a byte holds after an erase in the Rust's default build; its switch for flash that erases to zero is a cell here.
    pub const ERASE_VALUE: u8 = 0xFF;

    // The byte of which this state's word is made. By the constants, which are the Rust's names, and not by the enum's own numbers.
    #[tactic(auto, unfolding(crate::specs::Magic::magic))]
    pub fn magic(self) -> u8
        ensures { result ≡ magic self }
    {
        match self {
            State::Boot => State::BOOT_MAGIC,
            State::Swap => State::SWAP_MAGIC,
            State::Revert => State::REVERT_MAGIC,
            State::DfuDetach => State::DFU_DETACH_MAGIC,
        }
    }

    // The state of a word all of whose bytes are this one. No `From<u8>`: a byte alone is no word, and converting it would say less.
    #[tactic(auto, unfolding(crate::specs::Magic::state_of, crate::specs::Magic::throughout, crate::specs::Magic::magic, crate::specs::Choice::pick))]
    pub fn from_magic(byte: u8) -> State
        ensures { result ≡ state_of (byte ∷ []) }
    {
        match byte {
            State::SWAP_MAGIC => State::Swap,
            State::REVERT_MAGIC => State::Revert,
            State::DFU_DETACH_MAGIC => State::DfuDetach,
            _ => State::Boot,
        }
    }

    // The state of a word: its bytes have to be one magic throughout. No bytes at all read Swap, as in the Rust.
    pub fn from(word: &[u8]) -> State
        ensures { result ≡ state_of word.now }
    {
        match word.first() {
            None => State::Swap,
            Some(byte) if word::all_are(word, *byte) => State::from_magic(*byte),
            Some(_) => State::Boot,
        }
    }
}

// The same by the conversion's own name, as the Rust has it.
impl From<&[u8]> for State {
    ghost from_gives = { λ word state. state ≡ state_of word.now };

    fn from(word: &[u8]) -> State {
        State::from(word)
    }
}
