// Which way the estimates of a curve's scenarios are found, and the estimates.
ghost use Rattle.std.specs.Prelude.{◌≡◌, true, ◌≤◌, length};
ghost use Rattle.ground.specs.Limits.{day_count};
ghost use Rattle.curve.specs.Limits.{ProperCurve, ComponentLimits, ProperComponents};
ghost use Rattle.netting.specs.Netting.{listed, net_size};
ghost use Rattle.estimate.specs.Values.{Listed};
ghost use Rattle.mapping.specs.Mapping.{spare_of, most_mapped, Mappable};
ghost use Rattle.screening.specs.Screening.{Screened};

use super::least::least_of;
use super::low::low_values;
use super::refine::refine;
use curve::{Component, Components, Curve};
use estimate::days::list_days;
use estimate::ends::fill_ends;
use estimate::values::{fill_values, value_in};
use logarithm::tables::Tables;
use mapping::grid::size_of;

// A component with at most one step to each side: its outermost coefficients and 0.
fn outer(x: Component) -> Component
    requires { ComponentLimits x }
    ensures { ComponentLimits result }
{
    Component {
        steps: x.steps.min(1),
        ..x
    }
}

// The outermost scenarios.
fn outermost(components: Components) -> Components
    requires { ProperComponents components }
    ensures { ProperComponents result }
{
    Components {
        first: outer(components.first),
        second: outer(components.second),
        third: outer(components.third),
    }
}

// How many of the first n values are at most a limit.
fn kept_of(values: &[i64], n: u64, limit: i64) -> u64
    requires { n ≤ length values.now }
    ensures { result ≤ n }
{
    let values = &values[..n as usize];
    values.iter().filter(|v| **v <= limit).count() as u64
}

// Whether mapped amounts pay: they are on few days, and rule out half of the outermost scenarios or more. Nothing rests on it but time. The values are
// written over.
fn pays(
    curve: Curve,
    components: Components,
    days: &[u16],
    nets: &[i64],
    tables: Tables<'_>,
    spare: u64,
    values: &mut [i64],
) -> bool
    requires { ProperCurve curve × ProperComponents components × Listed nets.now days.now × Mappable nets.now days.now × (spare ≡ spare_of nets.now days.now) × (length values.old ≡ 343) }
    ensures { length values.new ≡ length values.old }
{
    let few = outermost(components);
    if !low_values(curve, few, days, nets, tables, spare, values) {
        return false;
    }
    let n = few.scenario_count();
    let least = least_of(values, n);
    let mut ends = [0usize; 24];
    fill_ends(curve, days, &mut ends);
    let limit = value_in(curve, few.scenario(least), &ends, days, nets, tables);
    2 * kept_of(values, n, limit) <= n
}

// By mapped amounts, where they pay.
fn screen_mapped(
    curve: Curve,
    components: Components,
    days: &[u16],
    nets: &[i64],
    tables: Tables<'_>,
    spare: u64,
    values: &mut [i64],
)
    requires { ProperCurve curve × ProperComponents components × Listed nets.now days.now × Mappable nets.now days.now × (spare ≡ spare_of nets.now days.now) × (length values.old ≡ 343) }
    ensures kept { length values.new ≡ length values.old }
    ensures each { Screened curve components nets.now values.new }
{
    if pays(curve, components, days, nets, tables, spare, values)
        && low_values(curve, components, days, nets, tables, spare, values)
    {
        refine(curve, components, days, nets, tables, values);
    } else {
        fill_values(curve, components, days, nets, tables, values);
    }
}

// Whether a curve with so many scenarios, days and amounts is one to map. Only the size of the amounts is a rule: what is mapped fits 64 bits.
fn mappable(scenarios: u64, days: usize, size: u64) -> bool
    ensures { result ≡ true → size ≤ most_mapped }
{
    size <= 139_000_000_000_000_000 && 100 <= scenarios && 300 < days
}

// An estimate of each scenario.
pub fn screen(
    curve: Curve,
    components: Components,
    nets: &[i64],
    tables: Tables<'_>,
    values: &mut [i64],
)
    requires { ProperCurve curve × ProperComponents components × (length nets.now ≡ day_count) × (net_size nets.now (listed nets.now) ≤ 140_000_000_000_000_000) × (length values.old ≡ 343) }
    ensures kept { length values.new ≡ length values.old }
    ensures each { Screened curve components nets.now values.new }
{
    let mut days = [0u16; 10951];
    let count = list_days(nets, &mut days);
    let size = size_of(&days[..count], nets);
    if mappable(components.scenario_count(), count, size) {
        let spare = size / 1_000_000 + 10 * count as u64;
        screen_mapped(
            curve,
            components,
            &days[..count],
            nets,
            tables,
            spare,
            values,
        );
        return;
    }
    fill_values(curve, components, &days[..count], nets, tables, values);
}
