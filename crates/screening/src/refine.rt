// Estimates refined: those that may be the least are taken from every day.
ghost use Rattle.std.specs.Prelude.{◌≡◌, ◌≤◌, length};
ghost use Rattle.curve.specs.Limits.{ProperCurve, ProperComponents};
ghost use Rattle.curve.specs.Scenarios.{scenario_count};
ghost use Rattle.estimate.specs.Values.{Listed};
ghost use Rattle.screening.specs.Screening.{NoneAbove, Screened, AllSmall};

use super::least::least_of;
use curve::{Components, Curve};
use estimate::ends::fill_ends;
use estimate::values::value_in;
use logarithm::tables::Tables;

// The limit is the value, from every day, of the scenario with the least estimate: an estimate above it is above some scenario's value as it is.
pub fn refine(
    curve: Curve,
    components: Components,
    days: &[u16],
    nets: &[i64],
    tables: Tables<'_>,
    values: &mut [i64],
)
    requires { ProperCurve curve × ProperComponents components × Listed nets.now days.now × (scenario_count components ≤ length values.old) × NoneAbove curve components nets.now values.old × AllSmall values.old (scenario_count components) }
    ensures kept { length values.new ≡ length values.old }
    ensures each { Screened curve components nets.now values.new }
{
    let mut ends = [0usize; 24];
    fill_ends(curve, days, &mut ends);
    let n = components.scenario_count();
    let least = least_of(values, n);
    let limit = value_in(curve, components.scenario(least), &ends, days, nets, tables);
    for s in 0..n {
        let at = s as usize;
        if values[at] <= limit {
            values[at] = value_in(curve, components.scenario(s), &ends, days, nets, tables);
        }
    }
}
