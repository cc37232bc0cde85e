// One block: the schedule of its words, and the eighty rounds (FIPS 180-4, section 6.4.2).
#![tactic(auto)]

ghost use Rattle.std.specs.Prelude.{◌≡◌, ◌+◌, ◌≤◌, ◌<◌, take};
ghost use Rattle.sha512_block.specs.Partly.{Extended, Passed};
ghost use Rattle.sha512_block.specs.Rounds as def;

use sha512_words as words;
use sha512_words::Eight;

mod constants;

// The word whose eight bytes, the highest first, stand at an index; listed as its definition lists them.
#[tactic(auto, unfolding(crate::specs::Rounds::word_at))]
fn word_at(b: &[u8; 128], i: usize) -> u64
    requires { i + 8 ≤ 128 }
    ensures { result ≡ def.word_at b.now i }
{
    u64::from_be_bytes([
        b[i],
        b[i + 1],
        b[i + 2],
        b[i + 3],
        b[i + 4],
        b[i + 5],
        b[i + 6],
        b[i + 7],
    ])
}

#[tactic(auto, unfolding(crate::specs::Rounds::round, crate::specs::Rounds::t1, crate::specs::Rounds::t2))]
fn round(s: Eight, k: u64, w: u64) -> Eight
    ensures { result ≡ def.round s k w }
{
    let t1 = words::sum(
        words::sum(
            words::sum(
                words::sum(s.h, words::big_sigma1(s.e)),
                words::ch(s.e, s.f, s.g),
            ),
            k,
        ),
        w,
    );
    let t2 = words::sum(words::big_sigma0(s.a), words::maj(s.a, s.b, s.c));
    Eight {
        a: words::sum(t1, t2),
        b: s.a,
        c: s.b,
        d: s.c,
        e: words::sum(s.d, t1),
        f: s.e,
        g: s.f,
        h: s.g,
    }
}

// Word by word: they are fields with the standard's letters, and a loop would need the same eight in an array first.
#[tactic(auto, unfolding(crate::specs::Rounds::plus))]
fn plus(s: Eight, t: Eight) -> Eight
    ensures { result ≡ def.plus s t }
{
    Eight {
        a: words::sum(s.a, t.a),
        b: words::sum(s.b, t.b),
        c: words::sum(s.c, t.c),
        d: words::sum(s.d, t.d),
        e: words::sum(s.e, t.e),
        f: words::sum(s.f, t.f),
        g: words::sum(s.g, t.g),
        h: words::sum(s.h, t.h),
    }
}

// The word of the schedule at t, from those before it.
#[tactic(auto, unfolding(crate::specs::Rounds::mixed))]
fn mixed(w: &[u64; 80], t: usize) -> u64
    requires { (16 ≤ t) × (t < 80) }
    ensures { result ≡ def.mixed t w.now }
{
    words::sum(
        words::sum(
            words::sum(words::small_sigma1(w[t - 2]), w[t - 7]),
            words::small_sigma0(w[t - 15]),
        ),
        w[t - 16],
    )
}

// The block's own words, as the first sixteen of the schedule.
fn load(b: &[u8; 128]) -> [u64; 80]
    ensures { take 16 (def.schedule b.now) ≡ take 16 result }
{
    let mut w = [0u64; 80];
    for t in 0..16 {
        w[t] = word_at(b, 8 * t);
    }
    w
}

// Eight words more, where the first u are there.
fn extend(w: &mut [u64; 80], u: usize)
    requires { (16 ≤ u) × (u + 8 ≤ 80) }
    ensures { Extended u w.old w.new }
{
    for t in u..u + 8 {
        w[t] = mixed(w, t);
    }
}

// Eight rounds, from t on.
fn eight_rounds(s: Eight, w: &[u64; 80], t: usize) -> Eight
    requires { t + 8 ≤ 80 }
    ensures { Passed t (t + 8) w.now s result }
{
    let mut x = s;
    for i in t..t + 8 {
        x = round(x, constants::K[i], w[i]);
    }
    x
}

// The hash value after one more block. The schedule is made as the rounds go, eight words for eight rounds: the two do not wait for
// each other.
pub fn compress(s: Eight, b: &[u8; 128]) -> Eight
    ensures { result ≡ def.compress s b.now }
{
    let mut w = load(b);
    let mut x = s;
    for turn in 0..10 {
        let t = 8 * turn;
        x = eight_rounds(x, &w, t);
        if t < 64 {
            extend(&mut w, t + 16);
        }
    }
    plus(x, s)
}
