// Two factors at once. A product of a chain waits for the one before it, so the chains of two factors side by side take little longer than
// those of one.
#![tactic(auto, unfolding(decimal::specs::Product::unit, crate::specs::Discount::year), using(crate::proofs::Compounding::runs, crate::proofs::Factors::factors))]

ghost use Rattle.std.specs.Prelude.{◌≡◌, ◌≤◌, ◌<◌};
ghost use Rattle.decimal.specs.Product.{unit};
ghost use Rattle.discount.specs.Discount.{million, year, power, root, factor};

use super::daily::{Chains, Powers, power_from_guess, run};
use super::factor::{Factor, YEAR};
use super::guess::guess;
use super::value::factor;

// Two of a kind: two factors, or the chains of two.
#[derive(Clone, Copy)]
pub struct Pair<T> {
    pub first: T,
    pub second: T,
}

impl<P: Powers> Powers for Pair<P> {
    type Of = Pair<P::Of>;

    ghost stand_at = { λ of k pair. P.stand_at of.first k pair.first × P.stand_at of.second k pair.second };

    fn next(self, of: Pair<P::Of>) -> Pair<P> {
        Pair {
            first: self.first.next(of.first),
            second: self.second.next(of.second),
        }
    }
}

// The power by j of the day's factor of y, and by k of that of z, in one run through a year, which halts at j and at k.
fn ordered_powers(y: Factor, z: Factor, j: u64, k: u64) -> Pair<Factor>
    requires { (y.0 < unit) × (z.0 < unit) × (j ≤ k) × (k ≤ year) }
    ensures { (result.first.0 ≡ power (root y.0) j) × (result.first.0 ≤ unit) × (result.second.0 ≡ power (root z.0) k) × (result.second.0 ≤ unit) }
{
    let guesses = Pair {
        first: Factor(guess(y.0)),
        second: Factor(guess(z.0)),
    };
    let start = Pair {
        first: Chains::ones(),
        second: Chains::ones(),
    };
    let short = run(start, guesses, 0, j);
    let long = run(short, guesses, j, k);
    let ends = run(long, guesses, k, YEAR);
    Pair {
        first: power_from_guess(y, j, guesses.first, short.first.low, ends.first),
        second: power_from_guess(z, k, guesses.second, long.second.low, ends.second),
    }
}

// The same in any order.
fn day_powers(y: Factor, z: Factor, j: u64, k: u64) -> Pair<Factor>
    requires { (y.0 < unit) × (z.0 < unit) × (j ≤ year) × (k ≤ year) }
    ensures { (result.first.0 ≡ power (root y.0) j) × (result.first.0 ≤ unit) × (result.second.0 ≡ power (root z.0) k) × (result.second.0 ≤ unit) }
{
    if j <= k {
        return ordered_powers(y, z, j, k);
    }
    let turned = ordered_powers(z, y, k, j);
    Pair {
        first: turned.second,
        second: turned.first,
    }
}

// The factor of some days at a rate, and that of other days at another rate.
pub fn factors(rate: u64, days: u64, other_rate: u64, other_days: u64) -> Pair<Factor>
    requires { (rate ≤ million) × (other_rate ≤ million) }
    ensures { (result.first.0 ≡ factor rate days) × (result.first.0 ≤ unit) × (result.second.0 ≡ factor other_rate other_days) × (result.second.0 ≤ unit) }
{
    let y = Factor::yearly(rate);
    let z = Factor::yearly(other_rate);
    if y == Factor::ONE || z == Factor::ONE {
        return Pair {
            first: factor(rate, days),
            second: factor(other_rate, other_days),
        };
    }
    let powers = day_powers(y, z, days % YEAR, other_days % YEAR);
    Pair {
        first: powers.first.compound(y, days / YEAR),
        second: powers.second.compound(z, other_days / YEAR),
    }
}
