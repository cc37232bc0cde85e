// Where a byte first stands: a state area may have a million marks, and all that are done are passed over before each step.
#![tactic(auto)]

ghost use Rattle.byte_search.specs.First.{First};

use memchr::memchr;

// The place of the first byte that is `value`, or the length where none is. It stays a number and no Option, which would be no plainer:
// it is how many bytes are passed over, and the caller counts marks with either.
pub fn first(bytes: &[u8], value: u8) -> usize
    ensures { First value bytes.now result }
{
    memchr(value, bytes).unwrap_or(bytes.len())
}
