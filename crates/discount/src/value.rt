// The factor of a rate and a day, the present value of an amount, and how far that may be off.
#![tactic(auto, unfolding(decimal::specs::Product::unit, crate::specs::Discount::year, crate::specs::Discount::products, crate::specs::Discount::tolerance, crate::specs::Discount::present_value), using(crate::proofs::Factors::factors, decimal::proofs::Products::parts))]

ghost use Rattle.std.specs.Prelude.{◌≡◌, ◌≤◌};
ghost use Rattle.ground.specs.Limits.{last_day};
ghost use Rattle.decimal.specs.Product.{unit};
ghost use Rattle.discount.specs.Discount.{million, factor, present_value, tolerance};

use super::daily::day_power;
use super::factor::{Factor, YEAR};
use decimal::round::discounted;

// The factor of some days at a rate: the power of the day's factor by the days above whole years, then the product with the year's, a year each.
pub fn factor(rate: u64, days: u64) -> Factor
    requires { rate ≤ million }
    ensures { (result.0 ≡ factor rate days) × (result.0 ≤ unit) }
{
    let yearly = Factor::yearly(rate);
    if yearly == Factor::ONE {
        return yearly;
    }
    day_power(yearly, days % YEAR).compound(yearly, days / YEAR)
}

// What an amount on a day is worth today, to the nearest.
pub fn present_value(amount: u64, rate: u64, days: u64) -> u64
    requires { (amount ≤ unit) × (rate ≤ million) }
    ensures { result ≡ present_value amount rate days }
{
    discounted(amount, factor(rate, days).0)
}

// How far that may be off.
pub fn tolerance(amount: u64, days: u64) -> u64
    requires { (amount ≤ unit) × (days ≤ last_day) }
    ensures { result ≡ tolerance amount days }
{
    let products = days % YEAR + days / YEAR;
    (amount * (2 * products)).div_ceil(Factor::UNIT)
}
