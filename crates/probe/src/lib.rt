// Inner functions of the engine, exported for the host's benchmark and tests. The engine does not use this crate.
#![tactic(auto, unfolding(decimal::specs::Product::unit, discount::specs::Discount::million))]

ghost use Rattle.std.specs.Prelude.{◌≡◌, ◌+◌, ◌%◌, ◌≤◌};
ghost use Rattle.decimal.specs.Product.{unit};
ghost use Rattle.discount.specs.Discount.{million, factor, compound};

use discount::factor::Factor;

// Brings any number into the rates.
fn rate_of(n: u64) -> u64
    ensures { (result ≡ n % 1_000_001) × (result ≤ million) }
{
    n % (Factor::LIMIT + 1)
}

// Brings any number into the factors.
fn factor_of(n: u64) -> Factor
    ensures { (result.0 ≡ n % 1_000_000_000_001) × (result.0 ≤ unit) }
{
    Factor(n % (Factor::UNIT + 1))
}

// The product with q, k times, from x.
#[unsafe(no_mangle)]
pub extern "C" fn probe_chain(x: u64, q: u64, k: u64) -> u64
    ensures { result ≡ compound (x % 1_000_000_000_001) (q % 1_000_000_000_001) k }
{
    factor_of(x).compound(factor_of(q), k).0
}

// The factor of a rate and some days; of one day it is the day's factor itself.
#[unsafe(no_mangle)]
pub extern "C" fn probe_factor(rate: u64, days: u64) -> u64
    ensures { result ≡ factor (rate % 1_000_001) days }
{
    discount::value::factor(rate_of(rate), days).0
}

// Two factors, taken together, as one number: their sum.
#[unsafe(no_mangle)]
pub extern "C" fn probe_factors(rate: u64, days: u64, other_rate: u64, other_days: u64) -> u64
    ensures { result ≡ factor (rate % 1_000_001) days + factor (other_rate % 1_000_001) other_days }
{
    let both = discount::pair::factors(rate_of(rate), days, rate_of(other_rate), other_days);
    both.first.0 + both.second.0
}
