// The reflected CRC-32 of IEEE 802.3, a byte at a time by a table of 256 words: 02, No. 7.
#![tactic(auto)]

ghost use Rattle.std.specs.Prelude.{◌≡◌, true, take};
ghost use Rattle.crc32.specs.Crc.{byte, run, crc, go_on};
ghost use Rattle.crc32.specs.Table.{tabled};

mod table;

use table::TABLE;

const ONES: u32 = 0xffff_ffff;

// One byte: the table has what eight bits do to the register's low byte, and the rest moves down.
#[tactic(auto, using(crate::proofs::Entries::by_table))]
fn step(table: &[u32; 256], register: u32, b: u8) -> u32
    requires { tabled 256 table.now ≡ true }
    ensures { result ≡ byte register b }
{
    let low = (register ^ u32::from(b)) & 0xff;
    table[low as usize] ^ (register >> 8)
}

// All bytes. The table is lent: a constant is stored anew wherever it is named, and in `step` that would be for each byte.
#[tactic(auto, unfolding(crate::specs::Crc::run))]
fn run(table: &[u32; 256], register: u32, bytes: &[u8]) -> u32
    requires { tabled 256 table.now ≡ true }
    ensures { result ≡ run register bytes.now }
{
    bytes
        .iter()
        .fold(register, |register, byte| step(table, register, *byte))
}

// The sum of some bytes and a piece that follows them, from the sum of those bytes; that of no bytes is 0.
pub fn go_on(sum: u32, piece: &[u8]) -> u32
    ensures { result ≡ go_on sum piece.now }
{
    run(&TABLE, sum ^ ONES, piece) ^ ONES
}

// The sum of the first `length` bytes, or of all where there are fewer.
#[tactic(auto, using(crate::proofs::Pieces::from_nothing, std::proofs::lemmas::List::take_min))]
pub fn sum(bytes: &[u8], length: usize) -> u32
    ensures { result ≡ crc (take length bytes.now) }
{
    go_on(0, &bytes[..length.min(bytes.len())])
}
