// The cheap values of mapped amounts, less their spare: no estimate is above its scenario's value.
ghost use Rattle.std.specs.Prelude.{◌≡◌, true, ◌≤◌, pos, ◌-ℤ◌, length};
ghost use Rattle.curve.specs.Limits.{ProperCurve, ProperComponents};
ghost use Rattle.curve.specs.Scenarios.{scenario_count};
ghost use Rattle.mapping.specs.Mapping.{spare_of, Mappable};
ghost use Rattle.screening.specs.Screening.{NoneAbove, Lowered, Small, AllSmall};

use curve::{Components, Curve};
use estimate::days::list_days;
use estimate::values::fill_values;
use logarithm::tables::Tables;
use mapping::grid::map_nets;

// A value less the spare.
fn lowered(v: i64, spare: u64) -> i64
    requires { Small v × (spare ≤ 1_000_000_000_000_000_000) }
    ensures { result ≡ v -ℤ pos spare }
{
    v - spare as i64
}

// The first n values less the spare.
fn lower(values: &mut [i64], n: u64, spare: u64)
    requires { (n ≤ length values.old) × AllSmall values.old n × (spare ≤ 1_000_000_000_000_000_000) × (n ≤ 343) }
    ensures kept { length values.new ≡ length values.old }
    ensures each { Lowered spare values.old values.new n }
{
    for value in values[..n as usize].iter_mut() {
        *value = lowered(*value, spare);
    }
}

// Fills in the values of mapped amounts in every scenario, less their spare, where the grid's days are a quarter of all or fewer: with more it takes too
// long for what it tells. Answers whether.
pub fn low_values(
    curve: Curve,
    components: Components,
    days: &[u16],
    nets: &[i64],
    tables: Tables<'_>,
    spare: u64,
    values: &mut [i64],
) -> bool
    requires { ProperCurve curve × ProperComponents components × Mappable nets.now days.now × (spare ≡ spare_of nets.now days.now) × (length values.old ≡ 343) }
    ensures kept { length values.new ≡ length values.old }
    ensures low { result ≡ true → NoneAbove curve components nets.now values.new × AllSmall values.new (scenario_count components) }
{
    let mut mapped = [0i64; 10951];
    map_nets(curve, components, days, nets, &mut mapped);
    let mut grid = [0u16; 10951];
    let count = list_days(&mapped, &mut grid);
    if days.len() < 4 * count {
        return false;
    }
    fill_values(curve, components, &grid[..count], &mapped, tables, values);
    lower(values, components.scenario_count(), spare);
    true
}
