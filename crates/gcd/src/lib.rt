// The greatest common divisor by Euclid's rule, and the least common multiple by way of it: 02, No. 6.
#![tactic(auto)]

ghost use Rattle.std.specs.Prelude.{◌≡◌};
ghost use Rattle.gcd.specs.Multiple.{Greatest, least_common};

// The remainder falls with each call, to 0.
#[tactic(auto, using(crate::proofs::Divisors::greatest_end, crate::proofs::Divisors::greatest_turn))]
pub fn gcd(a: u32, b: u32) -> u32
    ensures { Greatest result a b }
{
    if b == 0 { a } else { gcd(b, a % b) }
}

// Divided before it is multiplied, and at 64 bits: it fits whatever the two numbers are.
#[tactic(auto, using(crate::proofs::Least::by_divisor, crate::proofs::Least::no_divisor, crate::proofs::Least::quotient_times))]
pub fn least_common(a: u32, b: u32) -> usize
    ensures { result ≡ least_common a b }
{
    let divisor = gcd(a, b);
    if divisor == 0 {
        0
    } else {
        ((a / divisor) as usize) * (b as usize)
    }
}
