// The legs of a trade, and the limit on its flows.
ghost use Rattle.std.specs.Prelude.{◌≡◌};
ghost use Rattle.legs.specs.Runs.{leg_flows, legs_flows};
ghost use Rattle.flows.specs.Legs.{flows_of, any_above, breaks_flow_limit};
ghost use Rattle.flows.specs.Limits.{TradeLimits, SoundTrade};
ghost use Rattle.legs.specs.Limits.{LegsLimits};

use crate::trade_legs;
use legs::{Leg, Legs};
use record::LARGEST;
use trade::Trade;

// Whether a flow of the leg is above the largest amount.
fn leg_above(l: Leg) -> bool
    ensures { result ≡ any_above (leg_flows l) }
{
    (1 <= l.count) & (LARGEST < l.last) | (2 <= l.count) & (LARGEST < l.each)
}

// Rule 12.
pub fn breaks_flow_limit(t: Trade) -> bool
    requires { TradeLimits t }
    ensures { result ≡ breaks_flow_limit t }
{
    let l = trade_legs::capped_legs(t);
    leg_above(l.first) | leg_above(l.second) | leg_above(l.payments)
}

// The legs of a trade that the rules accept: what its flows are read from.
pub fn legs_of(t: Trade) -> Legs
    requires { SoundTrade t }
    ensures flows { legs_flows result ≡ flows_of t }
    ensures limits { LegsLimits result }
{
    trade_legs::capped_legs(t)
}
