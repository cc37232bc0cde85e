// A word as a number, and a line as a row of them: the reading of words of the bench program's input. The rules are in specs/Text;
// every function here answers just what they say.
#![tactic(auto)]

ghost use Rattle.std.specs.Prelude.{◌≡◌, ◌≤◌, [], ◌∷◌, length, MatchOption};
ghost use Rattle.numerals.specs.Text.{space, first, split, number as Text·number, row as Text·row};

pub const SPACE: u8 = b' ';

// By hand: `parse` takes a sign, and a `&str`. A word that is past the limit is given up at the first digit too many, so no sum wraps however long it is.
pub fn number(word: &[u8]) -> Option<u32>
    ensures { result ≡ Text·number word.now }
{
    if word.is_empty() {
        return None;
    }
    let mut n = 0u32;
    for b in word {
        if !b.is_ascii_digit() {
            return None;
        }
        n = n.checked_mul(10)?.checked_add(u32::from(*b - b'0'))?;
    }
    Some(n)
}

// Where the first c stands; the end where there is none, since that is where a word is cut then. A line has 80 bytes at most, so
// the search is no `memchr`.
pub fn find(s: &[u8], c: u8) -> usize
    ensures value { result ≡ first c s.now }
    ensures bound { result ≤ length s.now }
{
    s.iter().position(|b| *b == c).unwrap_or(s.len())
}

// The first word of a line, and what follows its space, if there is one.
pub fn cut(line: &[u8]) -> (&[u8], Option<&[u8]>)
    ensures { MatchOption result.1 (split space line.now ≡ result.0.now ∷ [])
        (λ rest. split space line.now ≡ result.0.now ∷ split space rest.now) }
{
    let end = find(line, SPACE);
    if end == line.len() {
        (line, None)
    } else {
        (&line[..end], Some(&line[end + 1..]))
    }
}

// The line's N numbers, if it is so many. Tried with std's `split`: the proof of a loop with that iterator beside N did not close.
pub fn row<const N: usize>(line: &[u8]) -> Option<[u32; N]>
    ensures { result ≡ Text·row N line.now }
{
    let mut out = [0u32; N];
    let mut left = Some(line);
    for n in &mut out {
        let (word, rest) = cut(left?);
        *n = number(word)?;
        left = rest;
    }
    match left {
        Some(_) => None,
        None => Some(out),
    }
}
