// The cheap value of a curve's net amounts in every scenario.
ghost use Rattle.std.specs.Prelude.{◌≡◌, map, ◌≤◌, length};
ghost use Rattle.curve.specs.Limits.{ProperCurve, ProperComponents, ScenarioLimits};
ghost use Rattle.curve.specs.Rates.{nodes_of};
ghost use Rattle.curve.specs.Scenarios.{scenario_count};
ghost use Rattle.curve.specs.Stress.{stressed};
ghost use Rattle.estimate.specs.Values.{cheap_value, ScenarioValues, Ends, Listed};

use super::ends::fill_ends;
use super::lines::level;
use super::parts::Part;
use curve::{Components, Curve, Scenario};
use logarithm::tables::Tables;

// At the rates of a curve: along a level line to its first node, a line from each node to the next, and a level one from the last.
fn value_on(curve: Curve, ends: &[usize], days: &[u16], nets: &[i64], tables: Tables<'_>) -> i64
    requires { ProperCurve curve × Ends curve days.now ends.now × Listed nets.now days.now }
    ensures { result ≡ cheap_value (nodes_of curve) nets.now }
{
    let mut p = Part { done: 0, value: 0 };
    p = p.along(level(curve.nodes[0].rate), ends[0], days, nets, tables);
    for i in 1..curve.count {
        let a = curve.nodes[i - 1];
        let b = curve.nodes[i];
        p = p.between(a, b, ends[i], days, nets, tables);
    }
    let last = level(curve.nodes[curve.count - 1].rate);
    p.along(last, days.len(), days, nets, tables).value
}

// In one scenario.
pub fn value_in(
    curve: Curve,
    scenario: Scenario,
    ends: &[usize],
    days: &[u16],
    nets: &[i64],
    tables: Tables<'_>,
) -> i64
    requires { ProperCurve curve × ScenarioLimits scenario × Ends curve days.now ends.now × Listed nets.now days.now }
    ensures { result ≡ cheap_value (map (stressed scenario) (nodes_of curve)) nets.now }
{
    value_on(curve.stressed(scenario), ends, days, nets, tables)
}

// In every scenario, in order. Where the days of the curve's lines end is found once.
pub fn fill_values(
    curve: Curve,
    components: Components,
    days: &[u16],
    nets: &[i64],
    tables: Tables<'_>,
    values: &mut [i64],
)
    requires { ProperCurve curve × ProperComponents components × Listed nets.now days.now × (scenario_count components ≤ length values.old) }
    ensures kept { length values.new ≡ length values.old }
    ensures each { ScenarioValues curve components nets.now values.new }
{
    let mut ends = [0usize; 24];
    fill_ends(curve, days, &mut ends);
    for s in 0..components.scenario_count() {
        let scenario = components.scenario(s);
        values[s as usize] = value_in(curve, scenario, &ends, days, nets, tables);
    }
}
