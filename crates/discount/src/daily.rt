// The factor of a day, the largest whose power by 365 is at most the factor of a year, and its power by some days. It comes from a guess, which
// no proof rests on: a factor is taken only where its power and the next one's stand on either side of the year's.
#![tactic(auto, unfolding(decimal::specs::Product::unit, crate::specs::Discount::year), using(crate::proofs::Compounding::runs, crate::proofs::Roots::roots))]

ghost use Rattle.std.specs.Prelude.{◌≡◌, ℕ, ◌+◌, ◌-◌, ◌≤◌, ◌<◌};
ghost use Rattle.decimal.specs.Product.{unit, product};
ghost use Rattle.discount.specs.Discount.{year, power, root};
ghost use Rattle.discount.specs.Powers.{PowersBy, gap};

use super::factor::{Factor, YEAR};
use super::guess::guess;

// The powers of a factor and of the next one, side by side: a product waits for the one before it, so two chains of products take little longer
// than one.
#[derive(Clone, Copy)]
pub struct Chains {
    pub low: Factor,
    pub high: Factor,
}

impl Chains {
    // The powers by 0.
    pub fn ones() -> Chains
        ensures { (result.low.0 ≡ unit) × (result.high.0 ≡ unit) }
    {
        Chains {
            low: Factor::ONE,
            high: Factor::ONE,
        }
    }

    // One product more: with q, and with the next one.
    pub fn product(self, q: Factor) -> Chains
        requires { (self.low.0 ≤ unit) × (self.high.0 ≤ unit) × (q.0 < unit) }
        ensures { (result.low.0 ≡ product self.low.0 q.0) × (result.high.0 ≡ product self.high.0 (q.0 + 1)) }
    {
        Chains {
            low: self.low.product(q),
            high: self.high.product(Factor(q.0 + 1)),
        }
    }
}

// Powers that one product a turn takes on: the chains of a factor, or those of two.
pub trait Powers: Copy {
    // The factors whose powers they are.
    type Of: Copy;

    ghost stand_at: { Self.Of → ℕ → Self → Type 0 };

    fn next(self, of: Self::Of) -> Self
        requires { (k : ℕ) × stand_at of k self }
        ensures { (k : ℕ) → stand_at of k self → stand_at of (k + 1) result };
}

impl Powers for Chains {
    type Of = Factor;

    ghost stand_at = { λ q k chains. (q.0 < unit) × PowersBy q.0 k chains };

    fn next(self, of: Factor) -> Chains {
        self.product(of)
    }
}

// From the powers by j to those by k.
pub fn run<P: Powers>(from: P, of: P::Of, j: u64, k: u64) -> P
    requires { (j ≤ k) × P.stand_at of j from }
    ensures { P.stand_at of k result }
{
    let mut powers = from;
    for _ in j..k {
        powers = powers.next(of);
    }
    powers
}

// One step from q towards the day's factor of a year's, and q where it is that factor: the powers by 365 of q and of the next one tell.
fn nearer(yearly: Factor, q: Factor, ends: Chains) -> Factor
    requires { (yearly.0 < unit) × (q.0 < unit) × PowersBy q.0 year ends }
    ensures { (result.0 < unit) × (gap (root yearly.0) result.0 ≡ gap (root yearly.0) q.0 - 1) }
{
    if yearly.0 < ends.low.0 {
        return Factor(q.0 - 1);
    }
    if ends.high.0 <= yearly.0 {
        return Factor(q.0 + 1);
    }
    q
}

// The day's factor of a year's, from one near it. A right one is told by one run through a year; a wrong one costs a run a step.
fn search(yearly: Factor, from: Factor) -> Factor
    requires { (yearly.0 < unit) × (from.0 < unit) }
    ensures { result.0 ≡ root yearly.0 }
{
    let mut q = from;
    loop {
        let next = nearer(yearly, q, run(Chains::ones(), q, 0, YEAR));
        if next == q {
            return q;
        }
        q = next;
    }
}

// The power by k of the day's factor of a year's: where the guess q is that factor, as its ends tell, its own, which was taken on their way.
pub fn power_from_guess(yearly: Factor, k: u64, q: Factor, taken: Factor, ends: Chains) -> Factor
    requires { (yearly.0 < unit) × (q.0 < unit) × (taken.0 ≡ power q.0 k) × PowersBy q.0 year ends }
    ensures { (result.0 ≡ power (root yearly.0) k) × (result.0 ≤ unit) }
{
    let next = nearer(yearly, q, ends);
    if next == q {
        return taken;
    }
    search(yearly, next).power(k)
}

// The power by k of the day's factor of a year's. One run through a year tells whether the guess is right, and has the power by k on its way.
pub fn day_power(yearly: Factor, k: u64) -> Factor
    requires { (yearly.0 < unit) × (k ≤ year) }
    ensures { (result.0 ≡ power (root yearly.0) k) × (result.0 ≤ unit) }
{
    let q = Factor(guess(yearly.0));
    let taken = run(Chains::ones(), q, 0, k);
    let ends = run(taken, q, k, YEAR);
    power_from_guess(yearly, k, q, taken.low, ends)
}
