// Products over 10^12. The whole product of two numbers of that size does not fit a u64, so it is taken in parts.
#![tactic(auto, unfolding(crate::specs::Product::unit, crate::specs::Product::product), using(crate::proofs::Products::parts))]

ghost use Rattle.std.specs.Prelude.{◌≡◌, ◌+◌, ◌*◌, ◌/◌, ◌≤◌};
ghost use Rattle.decimal.specs.Product.{unit, product};

// 10^12 is 2^12 times 5^12.
const TWOS: u64 = 4096;

const FIVES: u64 = 244_140_625;

// (a * b + more) / 10^12, rounded down. One factor is divided by 2^12 and the other by 5^12, so every product fits; in a chain with one b, a
// product waits for the one before it by a multiplication and a division by a constant only.
pub fn over_unit(a: u64, b: u64, more: u64) -> u64
    requires { (a ≤ unit) × (b ≤ unit) × (more ≤ unit) }
    ensures { result ≡ (a * b + more) / unit }
{
    let a_high = a / TWOS;
    let a_low = a % TWOS;
    let b_high = b / FIVES;
    let b_low = b % FIVES;
    a_high * b_high + (a_high * b_low + (a_low * b + more) / TWOS) / FIVES
}

// The product of two fixed-point numbers, rounded down.
pub fn multiply(a: u64, b: u64) -> u64
    requires { (a ≤ unit) × (b ≤ unit) }
    ensures { result ≡ product a b }
{
    over_unit(a, b, 0)
}
