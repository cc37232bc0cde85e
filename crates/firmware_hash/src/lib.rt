// The updater's call hash (02, No. 8): the digest of the first bytes of DFU, taken in pieces where they stand. An inner layer: the updater
// hands on to `hash`.
#![tactic(auto)]

ghost use Rattle.std.specs.Prelude.{◌≡◌, false, [], ◌<◌, length};
ghost use Rattle.geometry.specs.Refusals.{verdict, updater_refusal};
ghost use Rattle.mem_flash.specs.Run.{flash};
ghost use Rattle.sha512.specs.Streams.{holding};
ghost use Rattle.firmware_hash.specs.Hash.{bad_hash, Hashed};

use geometry::{Refusal, Sizes};
use rules::{Answer, Done};
use sha512::Stream;

// Row 6 of the table. Pieces of no bytes would never come to an end.
#[tactic(auto, using(std::proofs::lemmas::Bool::Decides::nat_tests), unfolding(crate::specs::Hash::bad_hash, geometry::specs::Refusals::any, state::specs::Choice::pick))]
fn bad_hash(ld: usize, len: usize, chunk: usize, n: usize) -> bool
    ensures { result ≡ bad_hash ld len chunk n }
{
    ld < len || chunk == 0 || n != 64
}

// Rows 1 to 4, which all of the updater's calls ask, and row 6. No state is asked, so row 5 never holds.
fn hash_verdict(
    z: Sizes,
    ld: usize,
    ls: usize,
    len: usize,
    chunk: usize,
    n: usize,
) -> Result<(), Refusal>
    ensures { verdict result ≡ updater_refusal z ld ls false (bad_hash ld len chunk n) }
{
    verdicts::updater_verdict(z, ld, ls)?;
    if bad_hash(ld, len, chunk, n) {
        return Err(Refusal::Range);
    }
    Ok(())
}

// Bytes added piece by piece, the last piece as short as it has to be.
fn stream(bytes: &[u8], chunk: usize) -> Stream
    requires { 0 < chunk }
    ensures { result ≡ holding bytes.now }
{
    let mut s = sha512::begin();
    for piece in bytes.chunks(chunk) {
        s = sha512::add(s, piece);
    }
    s
}

// The digest of the first `len` bytes of DFU, which are a slice only once row 6 is judged, into the output. A refusal leaves the output as it is.
pub fn hash(z: Sizes, dfu: &[u8], state: &[u8], len: usize, chunk: usize, out: &mut [u8]) -> Answer
    ensures { Hashed z len chunk out.old out.new (flash [] dfu.now state.now) result }
{
    hash_verdict(z, dfu.len(), state.len(), len, chunk, out.len())?;
    let s = stream(&dfu[..len], chunk);
    sha512::finish(s, out).unwrap();
    Ok(Done {
        state: None,
        count: 0,
    })
}
