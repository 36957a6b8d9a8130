// Amounts that are a product over a divisor, rounded half up. Where the product may not fit a u64 the divisor is taken out of one factor first,
// and only what is left is rounded.
#![tactic(auto, unfolding(crate::specs::Product::unit, crate::specs::HalfUp::half_up, crate::specs::HalfUp::millionths_of, crate::specs::HalfUp::interest_on, crate::specs::HalfUp::withholding_on, crate::specs::HalfUp::discounted, crate::specs::HalfUp::indexed_by, crate::specs::HalfUp::scaled_to), using(crate::proofs::HalfUp::rounding))]

ghost use Rattle.std.specs.Prelude.{◌≡◌, ◌*◌, ◌^◌, ◌≤◌, ◌<◌};
ghost use Rattle.decimal.specs.Product.{unit};
ghost use Rattle.decimal.specs.HalfUp.{half_up, millionths_of, interest_on, withholding_on, indexed_by, discounted, scaled_to};

use super::product::over_unit;

// The largest amount.
const LARGEST: u64 = 1_000_000_000_000;

// Days of a year times a million: what cash times rate times days is divided by.
const RATE_YEAR: u64 = 365_000_000;

// Half of 10^12: what is added before a division by 10^12, so that it rounds half up.
const HALF_UNIT: u64 = 500_000_000_000;

// n / d, rounded half up.
pub fn half_up(n: u64, d: u64) -> u64
    requires { (0 < d) × (d < 2 ^ 63) }
    ensures { result ≡ half_up n d }
{
    let whole = n / d;
    let rest = n % d;
    if d <= rest * 2 { whole + 1 } else { whole }
}

// So many millionths of an amount: a coupon, or settlement cash at a dirty price.
pub fn millionths_of(amount: u64, millionths: u64) -> u64
    requires { (amount ≤ unit) × (millionths ≤ 5_000_000) }
    ensures { result ≡ millionths_of amount millionths }
{
    half_up(amount * millionths, 1_000_000)
}

// Interest on cash at a rate in millionths, for a term in days.
pub fn interest_on(cash: u64, rate: u64, term: u64) -> u64
    requires { (cash ≤ unit) × (rate ≤ 1_000_000) × (term ≤ 730) }
    ensures { result ≡ interest_on cash rate term }
{
    let yearly = cash * rate;
    yearly / RATE_YEAR * term + half_up(yearly % RATE_YEAR * term, RATE_YEAR)
}

// The tax withheld from interest.
pub fn withholding_on(interest: u64) -> u64
    requires { interest ≤ 2 * unit }
    ensures { result ≡ withholding_on interest }
{
    half_up(interest * 15, 100)
}

// An amount at a discount factor.
pub fn discounted(amount: u64, factor: u64) -> u64
    requires { (amount ≤ unit) × (factor ≤ unit) }
    ensures { result ≡ discounted amount factor }
{
    over_unit(amount, factor, HALF_UNIT)
}

// A payment scaled by the index at settlement over that at issue; none where that is above the largest amount.
pub fn indexed_by(settlement: u64, issue: u64, payment: u64) -> Option<u64>
    requires { (payment ≤ 2 * unit) × (0 < settlement) × (settlement ≤ 10_000_000) × (0 < issue) × (issue ≤ 10_000_000) }
    ensures { result ≡ scaled_to (indexed_by settlement issue payment) }
{
    let whole = payment / issue;
    if LARGEST / settlement < whole {
        return None;
    }
    let left = payment % issue;
    let total = whole * settlement + half_up(left * settlement, issue);
    (total <= LARGEST).then_some(total)
}
