// Sums of standard input, a line each: 123456789, of which the standard's check value is known, and then each byte once, so that each
// word of the table is used.
#![tactic(auto)]

use arrayvec::ArrayVec;
use std::io;
use std::io::Read;

fn told(rt: &impl Print, sum: u32) -> io::Result<()> {
    println!(rt; "{sum:08x}")
}

// Going on at a place from the sum of the bytes before it.
fn cut(rt: &impl Print, bytes: &[u8], n: usize) -> io::Result<()> {
    if let Some(rest) = bytes.get(n..) {
        told(rt, crc32::go_on(crc32::sum(bytes, n), rest))?;
    }
    Ok(())
}

// By a length: none, the first nine, all, and past the end. The cuts give the sum of all again.
fn sums(rt: &impl Print, bytes: &[u8]) -> io::Result<()> {
    for length in [0, 9, bytes.len(), 1000] {
        told(rt, crc32::sum(bytes, length))?;
    }
    for n in [0, 9, bytes.len()] {
        cut(rt, bytes, n)?;
    }
    Ok(())
}

// So many bytes are summed, or all where there are fewer.
const MOST: usize = 4096;

fn main(rt: HostRuntime) -> io::Result<()> {
    let mut bytes: ArrayVec<u8, MOST> = ArrayVec::new();
    io::copy(&mut rt.stdin().take(MOST as u64), &mut bytes)?;
    sums(&rt, &bytes)
}
