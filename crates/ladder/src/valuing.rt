// The value of a ladder at the rates of a curve. The values of most flows are known from the fine factor; of the others the factor is worked out.
ghost use Rattle.std.specs.Prelude.{◌≡◌, IfSome};
ghost use Rattle.curve.specs.Limits.{ProperCurve};
ghost use Rattle.curve.specs.Rates.{nodes_of, rate_at};
ghost use Rattle.discount.specs.Flows.{flow_value};
ghost use Rattle.ladder.specs.Totals.{plus_flow, FlowLimits, TotalRoom};
ghost use Rattle.ladder.specs.Kept.{KeptFactors};
ghost use Rattle.ladder.specs.Held.{held, ValuingLimits, WithFlow};
ghost use Rattle.ladder.specs.Ladder.{ladder_flows, LadderLimits};
ghost use Rattle.ladder.specs.Values.{total_on};

use super::kept::{entry_of, kept_value};
use super::payments::leg_at;
use super::total::Total;
use curve::Curve;
use decimal::round::discounted;
use discount::Flow;
use discount::value::present_value;
use fine::bracket::bracket_at;
use fine::value::fine_value_in;
use logarithm::tables::Tables;

// The value of a flow at the curve's rate, where that can be told from what is kept of its day, or from the fine factor, whose bracket is kept then.
fn known_value(curve: Curve, f: Flow, tables: Tables<'_>, factors: &mut [u64]) -> Option<u64>
    requires { ProperCurve curve × FlowLimits f × KeptFactors (nodes_of curve) factors.old }
    ensures value_value { IfSome result (λ v. v ≡ flow_value (rate_at (nodes_of curve)) f) }
    ensures kept_factors { KeptFactors (nodes_of curve) factors.new }
{
    let day = f.day as usize;
    let entry = factors[day];
    if entry != 0 {
        return kept_value(f.amount, entry);
    }
    let b = bracket_at(tables, curve.rate_at(f.day), f.day);
    factors[day] = entry_of(b);
    fine_value_in(f.amount, b).ok()
}

// A total with two flows more, each at the factor of its day, which is kept.
fn with_two(total: Total, curve: Curve, f: Flow, g: Flow, factors: &mut [u64]) -> Total
    requires { TotalRoom 2 total × ProperCurve curve × FlowLimits f × FlowLimits g × KeptFactors (nodes_of curve) factors.old }
    ensures value { result ≡ plus_flow (plus_flow total f (flow_value (rate_at (nodes_of curve)) f)) g (flow_value (rate_at (nodes_of curve)) g) }
    ensures kept_factors { KeptFactors (nodes_of curve) factors.new }
{
    let both = discount::pair::factors(curve.rate_at(f.day), f.day, curve.rate_at(g.day), g.day);
    factors[f.day as usize] = 2 * both.first.0;
    factors[g.day as usize] = 2 * both.second.0;
    total
        .with_flow(f, discounted(f.amount, both.first.0))
        .with_flow(g, discounted(g.amount, both.second.0))
}

// The total of the flows valued so far. A flow that the fine factor leaves open waits for another: two factors together take little longer than
// one.
#[derive(Clone, Copy)]
pub struct Valuing {
    pub total: Total,
    pub waiting: Option<Flow>,
}

impl Valuing {
    // Adds one flow more.
    fn add(&mut self, curve: Curve, f: Flow, tables: Tables<'_>, factors: &mut [u64])
        requires { ValuingLimits 1 self.old × ProperCurve curve × FlowLimits f × KeptFactors (nodes_of curve) factors.old }
        ensures with_flow { WithFlow (nodes_of curve) self.old f self.new }
        ensures kept_factors { KeptFactors (nodes_of curve) factors.new }
    {
        if let Some(value) = known_value(curve, f, tables, factors) {
            self.total = self.total.with_flow(f, value);
            return;
        }
        match self.waiting.take() {
            Some(waiting) => self.total = with_two(self.total, curve, waiting, f, factors),
            None => self.waiting = Some(f),
        }
    }

    // The total, with the flow that still waits.
    fn finished(self, curve: Curve) -> Total
        requires { ValuingLimits 0 self × ProperCurve curve }
        ensures { result ≡ held (nodes_of curve) self }
    {
        match self.waiting {
            Some(f) => {
                let value = present_value(f.amount, curve.rate_at(f.day), f.day);
                self.total.with_flow(f, value)
            }
            None => self.total,
        }
    }
}

// The total of the first schedules, with factors kept.
fn total_of(
    id: u64,
    curve: Curve,
    ladder: &[u64],
    schedules: usize,
    tables: Tables<'_>,
    factors: &mut [u64],
) -> Total
    requires { ProperCurve curve × LadderLimits id ladder.now schedules × KeptFactors (nodes_of curve) factors.old }
    ensures { result ≡ total_on (nodes_of curve) (ladder_flows id ladder.now schedules) }
{
    let mut valuing = Valuing {
        total: Total {
            sum: 0,
            tolerance: 0,
        },
        waiting: None,
    };
    for i in 0..schedules {
        let leg = leg_at(id, ladder, i);
        for k in 0..leg.count {
            valuing.add(curve, leg.flow(k), tables, factors);
        }
    }
    valuing.finished(curve)
}

// The total of the first schedules at the rates of a curve.
pub fn value_of(
    id: u64,
    curve: Curve,
    ladder: &[u64],
    schedules: usize,
    tables: Tables<'_>,
) -> Total
    requires { ProperCurve curve × LadderLimits id ladder.now schedules }
    ensures { result ≡ total_on (nodes_of curve) (ladder_flows id ladder.now schedules) }
{
    let mut factors = [0u64; 10951];
    total_of(id, curve, ladder, schedules, tables, &mut factors)
}
