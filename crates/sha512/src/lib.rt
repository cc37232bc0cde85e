// SHA-512 (FIPS 180-4) of bytes that come in pieces: 02, No. 8. No function asks anything of its caller.
#![tactic(auto)]

ghost use Rattle.std.specs.List.{fold};
ghost use Rattle.std.specs.Prelude.{◌≡◌, [], ◌++◌, is_ok};
ghost use Rattle.sha512_block.specs.Rounds.{compress};
ghost use Rattle.sha512.specs.Sha512.{padding, hashed};
ghost use Rattle.sha512.specs.Streams.{holding, pending, Added, Finished};

use sha512_block as block;
use sha512_bytes as bytes;
use sha512_words::Eight;

// The hash value after the whole blocks that were added; how many bytes were added, modulo 2^64; and those that make no whole block
// yet, which are the first count % 128 of the block: the padding wants the count anyway, so a vector would hold a length twice. `begin`,
// `add` and `finish` stay functions beside it: the documents name them so.
#[derive(Drop)]
pub struct Stream {
    pub hash: Eight,
    pub count: u64,
    pub block: [u8; 128],
}

// A stream to which nothing has been added.
pub fn begin() -> Stream
    ensures { result ≡ holding [] }
{
    Stream {
        hash: Eight {
            a: 0x6a09_e667_f3bc_c908,
            b: 0xbb67_ae85_84ca_a73b,
            c: 0x3c6e_f372_fe94_f82b,
            d: 0xa54f_f53a_5f1d_36f1,
            e: 0x510e_527f_ade6_82d1,
            f: 0x9b05_688c_2b3e_6c1f,
            g: 0x1f83_d9ab_fb41_bd6b,
            h: 0x5be0_cd19_137e_2179,
        },
        count: 0,
        block: [0u8; 128],
    }
}

// The hash value after some blocks.
fn whole(s: Eight, blocks: &[[u8; 128]]) -> Eight
    ensures { result ≡ fold compress s blocks.now }
{
    blocks.iter().fold(s, |r, b| block::compress(r, b))
}

// One piece more. It is read where it stands: of a longer slice a part can be lent.
pub fn add(s: Stream, piece: &[u8]) -> Stream
    ensures { Added s piece.now result }
{
    let at = (s.count % 128) as usize;
    let count = s.count.wrapping_add(piece.len() as u64);
    let hash = s.hash;
    let mut first = s.block;
    let room = 128 - at;
    if piece.len() < room {
        let mut block = bytes::block_of(&first[..at]);
        block[at..at + piece.len()].copy_from_slice(piece);
        return Stream { hash, count, block };
    }
    first[at..].copy_from_slice(&piece[..room]);
    let one = block::compress(hash, &first);
    let (blocks, tail) = piece[room..].as_chunks::<128>();
    let all = whole(one, blocks);
    let block = bytes::block_of(tail);
    Stream {
        hash: all,
        count,
        block,
    }
}

// The hash value after what is pending and the padding.
fn last(s: Stream) -> Eight
    ensures { result ≡ hashed (pending s ++ padding s.count) s.hash }
{
    let n = s.count;
    let at = (n % 128) as usize;
    let hash = s.hash;
    let mut block = bytes::block_of(&s.block[..at]);
    block[at] = 0x80;
    if at < 112 {
        let end = bytes::with_length(block, n);
        return block::compress(hash, &end);
    }
    let one = block::compress(hash, &block);
    let end = bytes::with_length([0u8; 128], n);
    block::compress(one, &end)
}

// An output of another length than 64.
#[derive(Clone, Copy, Debug, PartialEq, Eq)]
pub struct WrongLength;

// The digest of all the bytes that were added, fewer than 2^64, into 64 bytes; an output of another length stays as it is.
pub fn finish(s: Stream, out: &mut [u8]) -> Result<(), WrongLength>
    ensures { Finished s out.old (is_ok result) out.new }
{
    if out.len() != 64 {
        return Err(WrongLength);
    }
    bytes::put_all(out, last(s));
    Ok(())
}
