// The present value of a bond's payments on a curve.
ghost use Rattle.std.specs.Prelude.{◌≡◌, ◌+◌, ◌-◌, ◌≤◌, ◌<◌, IfOk};
ghost use Rattle.laws.specs.Walk.{table};
ghost use Rattle.ground.specs.Limits.{last_day};
ghost use Rattle.decimal.specs.Product.{unit};
ghost use Rattle.discount.specs.Flows.{flow_value};
ghost use Rattle.curve.specs.Limits.{highest_rate, ProperCurve};
ghost use Rattle.curve.specs.Rates.{nodes_of, rate_at};
ghost use Rattle.legs.specs.Runs.{flow_of, leg_flows};
ghost use Rattle.bond.specs.Limits.{PaymentLimits, PaymentsUpTo, Extends, Prepared};
ghost use Rattle.bond.specs.Value.{bond_value, bond_value_at};

use curve::{Curve, Node};
use decimal::round::discounted;
use discount::Flow;
use discount::pair::factors;
use discount::value::present_value;
use fine::value::fine_value_at;
use legs::Leg;
use logarithm::tables::Tables;

// How many payments fall up to a day.
fn payments_up_to(l: Leg, day: u64) -> u64
    requires { PaymentLimits l }
    ensures { PaymentsUpTo l day result }
{
    (0..l.count)
        .find(|k| day < l.flow(*k).day)
        .unwrap_or(l.count)
}

// The value of a payment where it is known from the tables.
fn fine_value_of(c: Curve, f: Flow, tables: Tables<'_>) -> Result<u64, u64>
    requires { ProperCurve c × (f.amount ≤ unit) × (f.day ≤ last_day) }
    ensures { IfOk result (λ v. v ≡ flow_value (rate_at (nodes_of c)) f) }
{
    fine_value_at(tables, f.amount, c.rate_at(f.day), f.day)
}

// The value of a payment.
fn value_of(c: Curve, f: Flow, tables: Tables<'_>) -> u64
    requires { ProperCurve c × (f.amount ≤ unit) × (f.day ≤ last_day) }
    ensures { result ≡ flow_value (rate_at (nodes_of c)) f }
{
    match fine_value_of(c, f, tables) {
        Ok(value) => value,
        Err(_) => present_value(f.amount, c.rate_at(f.day), f.day),
    }
}

// The value of two payments by their factors, which are found side by side: that takes little longer than one.
fn value_by_factors(c: Curve, f: Flow, g: Flow) -> u64
    requires { ProperCurve c × (f.amount ≤ unit) × (g.amount ≤ unit) }
    ensures { result ≡ flow_value (rate_at (nodes_of c)) f + flow_value (rate_at (nodes_of c)) g }
{
    let both = factors(c.rate_at(f.day), f.day, c.rate_at(g.day), g.day);
    discounted(f.amount, both.first.0) + discounted(g.amount, both.second.0)
}

// The value of two payments.
fn value_of_two(c: Curve, f: Flow, g: Flow, tables: Tables<'_>) -> u64
    requires { ProperCurve c × (f.amount ≤ unit) × (g.amount ≤ unit) × (f.day ≤ last_day) × (g.day ≤ last_day) }
    ensures { result ≡ flow_value (rate_at (nodes_of c)) f + flow_value (rate_at (nodes_of c)) g }
{
    match (fine_value_of(c, f, tables), fine_value_of(c, g, tables)) {
        (Ok(first), Ok(second)) => first + second,
        _ => value_by_factors(c, f, g),
    }
}

// The value of the payments from one up to, not including, another: two at a time, and the last alone where one is left.
fn value_between(c: Curve, l: Leg, from: u64, to: u64, tables: Tables<'_>) -> u64
    requires { ProperCurve c × PaymentLimits l × (from ≤ to) × (to ≤ l.count) }
    ensures { result ≡ bond_value (nodes_of c) (table (flow_of l) from (to - from)) }
{
    let mut sum = 0;
    for k in (from..to).step_by(2) {
        let f = l.flow(k);
        sum += if k + 1 < to {
            value_of_two(c, f, l.flow(k + 1), tables)
        } else {
            value_of(c, f, tables)
        };
    }
    sum
}

// A bond on a curve that is to get a node, at a rate not yet known. The value of the payments that fall up to the curve's last node does not
// depend on that rate, and is taken once: `within` of them are worth `known`.
#[derive(Clone, Copy)]
pub struct Extension {
    pub curve: Curve,
    pub node: Node,
    pub payments: Leg,
    pub within: u64,
    pub known: u64,
}

impl Extension {
    pub fn new(c: Curve, n: Node, l: Leg, tables: Tables<'_>) -> Extension
        requires { Extends c n l }
        ensures { (result.curve ≡ c) × (result.node ≡ n) × (result.payments ≡ l) × Prepared result }
    {
        let within = payments_up_to(l, c.end_day());
        let known = value_between(c, l, 0, within, tables);
        Extension {
            curve: c,
            node: n,
            payments: l,
            within,
            known,
        }
    }

    // What the bond is worth with the new node at a rate.
    pub fn value_at(self, rate: u64, tables: Tables<'_>) -> u64
        requires { Prepared self × (rate ≤ highest_rate) }
        ensures { result ≡ bond_value_at (nodes_of self.curve) self.node (leg_flows self.payments) rate }
    {
        let l = self.payments;
        let longer = self.curve.lengthened(self.node.at_rate(rate));
        self.known + value_between(longer, l, self.within, l.count, tables)
    }
}
