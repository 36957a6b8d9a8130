// The present value entry: one present value and its tolerance.
ghost use Rattle.std.specs.Prelude.{◌≡◌};
ghost use Rattle.discount.specs.Valued.{breaks_value_range, valued_of};

use super::factor::Factor;
use super::value::{present_value, tolerance};
use ground::{Ground, LAST_DAY, Refusal, refuse_if};

// A present value and its tolerance.
#[derive(Clone, Copy, Debug, PartialEq, Eq)]
pub struct Worth {
    pub value: u64,
    pub tolerance: u64,
}

// Ground 16.
fn breaks_value_range(amount: u64, rate: u64, day: u64) -> bool
    ensures { result ≡ breaks_value_range amount rate day }
{
    (Factor::UNIT < amount) | (Factor::LIMIT < rate) | (LAST_DAY < day)
}

// Takes every input.
#[tactic(auto, unfolding(crate::specs::Valued::valued_of))]
pub fn value(amount: u64, rate: u64, day: u64) -> Result<Worth, Refusal>
    ensures { result ≡ valued_of amount rate day }
{
    refuse_if(breaks_value_range(amount, rate, day), Ground::ValueRange, 0)?;
    Ok(Worth {
        value: present_value(amount, rate, day),
        tolerance: tolerance(amount, day),
    })
}
