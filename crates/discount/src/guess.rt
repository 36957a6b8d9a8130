// A guess of the factor of a day, in whole numbers. Nothing is proved of it but that every step fits: `daily::search` needs no more.
// Of the rates from 1 to 10^6 parts per million it is right for 983,592, and 1 off for the others (every one was tried).
#![tactic(auto, unfolding(decimal::specs::Product::unit), using(decimal::proofs::Products::product_le))]

ghost use Rattle.std.specs.Prelude.{◌*◌, ◌≤◌, ◌<◌};

use super::factor::{Factor, YEAR};
use decimal::product::multiply;

// A product, of which only a bound is told.
fn scaled(a: u64, b: u64) -> u64
    requires { (a ≤ 1_000_000_000_000) × (b ≤ 1_000_000_000_000) }
    ensures { result ≤ a }
{
    multiply(a, b)
}

// About n / m in parts of UNIT.
fn ratio(n: u64, m: u64) -> u64
    requires { (n ≤ 1_000_000_000_000) × (n ≤ m) × (0 < m) × (m ≤ 2 * 1_000_000_000_000) }
    ensures { result ≤ 400_000_000_000 }
{
    let x = n * 1_000_000;
    let r = x % m * 1_000_000;
    (x / m * 1_000_000 + r / m).min(400_000_000_000)
}

// About 1/3 + t/5 + t^2/7 + .. in parts of UNIT.
fn series(t: u64) -> u64
    requires { t ≤ 1_000_000_000_000 }
    ensures { result ≤ 1_000_000_000_000 }
{
    let mut s = 0;
    for i in (1..10).rev() {
        s = (scaled(s, t) + Factor::UNIT / (2 * i + 1)).min(Factor::UNIT);
    }
    s
}

// About ln(UNIT / y) in parts of UNIT, for a y of half of UNIT or more: twice the series of artanh at (UNIT - y) / (UNIT + y).
fn logarithm(y: u64) -> u64
    requires { y ≤ 1_000_000_000_000 }
    ensures { result ≤ 1_000_000_000_000 }
{
    let w = ratio(Factor::UNIT - y, Factor::UNIT + y);
    let t = scaled(w, w);
    (2 * (w + scaled(w, scaled(t, series(t))))).min(Factor::UNIT)
}

// UNIT * exp(-l / 365) to the fourth power of l / 365, in thousandths, and above it what a chain of 365 products loses by rounding, half a
// part a turn.
pub fn guess(y: u64) -> u64
    requires { y < 1_000_000_000_000 }
    ensures { result < 1_000_000_000_000 }
{
    let l = logarithm(y);
    let a = (l / YEAR).min(2_000_000_000);
    let b = (a * a / 1_000_000_000).min(4_000_000_000);
    let c = b * a / Factor::UNIT;
    let e = c * a / Factor::UNIT;
    let lost = (500 * (Factor::UNIT - y) / (scaled(l, y) + 1)).min(1000);
    let above = l * 1000 / YEAR + c / 6 + 999;
    let d = above.saturating_sub(b / 2 + e / 24 + lost) / 1000;
    Factor::UNIT.saturating_sub(d).min(Factor::UNIT - 1)
}
