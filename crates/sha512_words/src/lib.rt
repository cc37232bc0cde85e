// The functions on words of FIPS 180-4, section 4.1.3. Each is the definition, as the machine's operations mean it; `ch` and `maj` have
// forms with fewer operations.
#![tactic(auto)]

ghost use Rattle.std.specs.Prelude.{◌≡◌};
ghost use Rattle.sha512_words.specs.Words as def;

// Eight words: the hash value, and the working variables of the rounds.
#[derive(Clone, Copy)]
pub struct Eight {
    pub a: u64,
    pub b: u64,
    pub c: u64,
    pub d: u64,
    pub e: u64,
    pub f: u64,
    pub g: u64,
    pub h: u64,
}

// By the supplied wrapping add. It stays a function beside the method: the rounds then read `sum`, as the definitions do.
#[tactic(auto, unfolding(crate::specs::Words::sum))]
pub fn sum(x: u64, y: u64) -> u64
    ensures { result ≡ def.sum x y }
{
    x.wrapping_add(y)
}

#[tactic(auto, using(crate::proofs::Bits::ch_short_lem))]
pub fn ch(x: u64, y: u64, z: u64) -> u64
    ensures { result ≡ def.ch x y z }
{
    ((y ^ z) & x) ^ z
}

#[tactic(auto, using(crate::proofs::Bits::maj_short_lem))]
pub fn maj(x: u64, y: u64, z: u64) -> u64
    ensures { result ≡ def.maj x y z }
{
    ((x ^ y) & (y ^ z)) ^ y
}

// FIPS 180-4 names the four that follow; each is a line, so const parameters for what they turn by are no plainer.
#[tactic(auto, unfolding(crate::specs::Words::big_sigma0, crate::specs::Words::rotr))]
pub fn big_sigma0(x: u64) -> u64
    ensures { result ≡ def.big_sigma0 x }
{
    x.rotate_right(28) ^ x.rotate_right(34) ^ x.rotate_right(39)
}

#[tactic(auto, unfolding(crate::specs::Words::big_sigma1, crate::specs::Words::rotr))]
pub fn big_sigma1(x: u64) -> u64
    ensures { result ≡ def.big_sigma1 x }
{
    x.rotate_right(14) ^ x.rotate_right(18) ^ x.rotate_right(41)
}

#[tactic(auto, unfolding(crate::specs::Words::small_sigma0, crate::specs::Words::rotr, crate::specs::Words::shr))]
pub fn small_sigma0(x: u64) -> u64
    ensures { result ≡ def.small_sigma0 x }
{
    x.rotate_right(1) ^ x.rotate_right(8) ^ (x >> 7)
}

#[tactic(auto, unfolding(crate::specs::Words::small_sigma1, crate::specs::Words::rotr, crate::specs::Words::shr))]
pub fn small_sigma1(x: u64) -> u64
    ensures { result ≡ def.small_sigma1 x }
{
    x.rotate_right(19) ^ x.rotate_right(61) ^ (x >> 6)
}
