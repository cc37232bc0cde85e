// Words as bytes, and the blocks that a message ends with.
#![tactic(auto)]

ghost use Rattle.std.specs.Prelude.{◌≡◌, ◌++◌, ◌-◌, ◌≤◌, length, take, replicate};
ghost use Rattle.sha512_bytes.specs.Bytes as def;

use sha512_words::Eight;

// Some bytes as a block, with zeros behind them.
#[tactic(auto, using(crate::proofs::Stores::over_zeros))]
pub fn block_of(b: &[u8]) -> [u8; 128]
    requires { length b.now ≤ 128 }
    ensures { result ≡ b.now ++ replicate (128 - length b.now) 0 }
{
    let mut block = [0u8; 128];
    block[..b.len()].copy_from_slice(b);
    block
}

// A block whose last 16 bytes become the length in bits of n bytes.
#[tactic(auto, using(crate::proofs::Stores::ends))]
pub fn with_length(b: [u8; 128], n: u64) -> [u8; 128]
    ensures { result ≡ take 112 b ++ def.bits16 n }
{
    let mut block = b;
    block[112..].copy_from_slice(&(8 * n as u128).to_be_bytes());
    block
}

// The eight words, stored one after the other.
#[tactic(auto, using(crate::proofs::Stores::stored_none, crate::proofs::Stores::stored_more))]
pub fn put_all(dst: &mut [u8], s: Eight)
    requires { length dst.old ≡ 64 }
    ensures { dst.new ≡ def.bytes_of s }
{
    let words = [s.a, s.b, s.c, s.d, s.e, s.f, s.g, s.h];
    for i in 0..8 {
        dst[8 * i..8 * i + 8].copy_from_slice(&words[i].to_be_bytes());
    }
}
