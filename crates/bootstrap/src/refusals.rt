// What refuses a bootstrap, behind the grounds of the book.
ghost use Rattle.std.specs.Prelude.{◌≡◌};
ghost use Rattle.curve.specs.Limits.{ProperCurve};
ghost use Rattle.bootstrap.specs.Refusals.{breaks_components, breaks_cash, quote_verdict, breaks_curve_end};

use crate::Quote;
use crate::bought::bond_fields;
use curve::Curve;
use curve_block::rules::component_sound;
use flows::verdict::record_verdict;
use ground::{Ground, Refusal, refuse_if};
use record::{Curves, LARGEST};

// Ground 6 of the new node's components.
#[tactic(auto, unfolding(crate::specs::Refusals::breaks_components))]
fn breaks_components(q: Quote) -> bool
    ensures { result ≡ breaks_components q }
{
    !(component_sound(q.first) & component_sound(q.second) & component_sound(q.third))
}

// Ground 10 of the settlement cash.
#[tactic(auto, unfolding(crate::specs::Refusals::breaks_cash, decimal::specs::Product::unit))]
fn breaks_cash(cash: u64) -> bool
    ensures { result ≡ breaks_cash cash }
{
    !((1 <= cash) & (cash <= LARGEST))
}

// Ground 17.
#[tactic(auto, unfolding(crate::specs::Refusals::breaks_curve_end))]
pub fn breaks_curve_end(c: Curve, day: u64) -> bool
    requires { ProperCurve c }
    ensures { result ≡ breaks_curve_end c day }
{
    (c.count == 24) | !(c.end_day() < day)
}

// The quote's own grounds up to the cash: its bond by 8 to 12 as an outright's record, then 6 and 10.
#[tactic(auto, unfolding(crate::specs::Refusals::quote_verdict))]
pub fn quote_verdict(curves: Curves, q: Quote) -> Result<(), Refusal>
    ensures { result ≡ quote_verdict curves q }
{
    record_verdict(curves, bond_fields(q), 0)?;
    refuse_if(breaks_components(q), Ground::Node, 0)?;
    refuse_if(breaks_cash(q.cash), Ground::Amounts, 0)
}
