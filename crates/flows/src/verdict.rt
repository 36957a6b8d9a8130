// The verdict on a record, of a book or new: the first of the rules 8 to 12 that it breaks.
ghost use Rattle.std.specs.Prelude.{◌≡◌};
ghost use Rattle.flows.specs.Verdict.{record_verdict};

use crate::walk::breaks_flow_limit;
use ground::{Ground, Refusal, refuse_if};
use record::rules::{breaks_amounts, breaks_currency, breaks_days, breaks_form};
use record::{Curves, Fields};
use trade::read::trade_of;

// The amounts of 12 are worked out only where the other rules have said that they do not overflow.
#[tactic(auto, unfolding(crate::specs::Verdict::record_verdict))]
pub fn record_verdict(curves: Curves, f: Fields, block: u64) -> Result<(), Refusal>
    ensures { result ≡ record_verdict curves f block }
{
    refuse_if(breaks_form(curves, f.form), Ground::Form, block)?;
    refuse_if(breaks_days(f.form, f.days), Ground::Days, block)?;
    refuse_if(
        breaks_amounts(f.form, f.days, f.amounts),
        Ground::Amounts,
        block,
    )?;
    refuse_if(breaks_currency(curves, f.form), Ground::Currency, block)?;
    refuse_if(breaks_flow_limit(trade_of(f)), Ground::FlowLimit, block)
}
