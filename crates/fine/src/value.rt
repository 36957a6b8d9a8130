// The present value of an amount, where it is known from the fine factor.
ghost use Rattle.std.specs.Prelude.{◌≡◌, ℕ, ◌*◌, ◌≤◌, IfOk};
ghost use Rattle.ground.specs.Limits.{last_day};
ghost use Rattle.decimal.specs.Product.{unit};
ghost use Rattle.decimal.specs.HalfUp.{half_up};
ghost use Rattle.discount.specs.Discount.{present_value};
ghost use Rattle.logarithm.specs.Logarithms.{fine_whole};
ghost use Rattle.fine.specs.Fine.{InBracket, BracketLimits};
ghost use Rattle.fine.specs.FineValue.{fine_value_in, fine_value_at};

use super::bracket::{Bracket, bracket_at};
use logarithm::tables::{Tables, scaled};

// amount * c / 2^42, half up.
#[tactic(auto, unfolding(decimal::specs::Product::unit, decimal::specs::HalfUp::half_up, logarithm::specs::Logarithms::fine_whole))]
fn rounded(amount: u64, c: u64) -> u64
    requires { (amount ≤ unit) × (c ≤ 5_000_000_000_000) }
    ensures { result ≡ half_up (amount * c) fine_whole }
{
    (scaled::<41>(amount, c) + 1) / 2
}

// Of an amount at a factor between two numbers: that at the lower end, Ok where it is known, since the upper one agrees, and Err where it is open.
#[tactic(auto, unfolding(crate::specs::FineValue::fine_value_in))]
pub fn fine_value_in(amount: u64, b: Bracket) -> Result<u64, u64>
    requires { (amount ≤ unit) × BracketLimits b }
    ensures same { result ≡ fine_value_in amount b }
    ensures worth { (rate day : ℕ) → InBracket b rate day → IfOk result (λ v. v ≡ present_value amount rate day) }
{
    let value = rounded(amount, b.low);
    let other = rounded(amount, b.high);
    if value == other {
        Ok(value)
    } else {
        Err(value)
    }
}

// Of an amount at a rate on a day.
#[tactic(auto, unfolding(crate::specs::FineValue::fine_value_at))]
pub fn fine_value_at(tables: Tables<'_>, amount: u64, rate: u64, day: u64) -> Result<u64, u64>
    requires { (amount ≤ unit) × (rate ≤ 1_000_000) × (day ≤ last_day) }
    ensures same { result ≡ fine_value_at amount rate day }
    ensures worth { IfOk result (λ v. v ≡ present_value amount rate day) }
{
    fine_value_in(amount, bracket_at(tables, rate, day))
}
