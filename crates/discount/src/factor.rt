// Discount factors in parts of 10^12.
#![tactic(auto, unfolding(decimal::specs::Product::unit, crate::specs::Discount::million, crate::specs::Discount::yearly, crate::specs::Discount::power), using(crate::proofs::Roots::roots, crate::proofs::Compounding::chains, decimal::proofs::Products::product_le))]

ghost use Rattle.std.specs.Prelude.{◌≡◌, ◌/◌, ◌≤◌};
ghost use Rattle.decimal.specs.Product.{unit, product};
ghost use Rattle.discount.specs.Discount.{million, yearly, compound, power};

use decimal::product::multiply;

// The days of a year.
pub const YEAR: u64 = 365;

// A factor, in parts of UNIT.
#[derive(Clone, Copy, PartialEq, Eq)]
pub struct Factor(pub u64);

impl Factor {
    // One.
    pub const UNIT: u64 = 1_000_000_000_000;
    // One, as a factor.
    pub const ONE: Factor = Factor(Factor::UNIT);
    // One in a rate, and the largest rate.
    pub const LIMIT: u64 = 1_000_000;

    // The factor of a year at a rate.
    pub fn yearly(rate: u64) -> Factor
        requires { rate ≤ million }
        ensures { (result.0 ≡ yearly rate) × (result.0 ≤ unit) }
    {
        Factor(Factor::UNIT * Factor::LIMIT / (Factor::LIMIT + rate))
    }

    // The product, rounded down: every chain of products takes this one.
    pub fn product(self, other: Factor) -> Factor
        requires { (self.0 ≤ unit) × (other.0 ≤ unit) }
        ensures { (result.0 ≡ product self.0 other.0) × (result.0 ≤ unit) }
    {
        Factor(multiply(self.0, other.0))
    }

    // The product with another factor, taken k times.
    pub fn compound(self, other: Factor, k: u64) -> Factor
        requires { (self.0 ≤ unit) × (other.0 ≤ unit) }
        ensures { (result.0 ≡ compound self.0 other.0 k) × (result.0 ≤ unit) }
    {
        let mut taken = self;
        for _ in 0..k {
            taken = taken.product(other);
        }
        taken
    }

    // From one, the product with the factor, taken k times.
    pub fn power(self, k: u64) -> Factor
        requires { self.0 ≤ unit }
        ensures { (result.0 ≡ power self.0 k) × (result.0 ≤ unit) }
    {
        Factor::ONE.compound(self, k)
    }
}
