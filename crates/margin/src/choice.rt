// The choice of the worst scenario: estimates rule most out, and the rest are valued in full.
ghost use Rattle.std.specs.Prelude.{◌≡◌, ◌*◌, ◌≤◌, ◌<◌, length};
ghost use Rattle.curve.specs.Limits.{ProperCurve};
ghost use Rattle.curve.specs.Scenarios.{scenario_count};
ghost use Rattle.discount.specs.Flows.{flow_value};
ghost use Rattle.ladder.specs.Exposure.{exposure_of};
ghost use Rattle.margin.specs.Choice.{Estimates, SomeKept, FirstKept, WorstKept, same_rates};
ghost use Rattle.margin.specs.Losses.{loss_at};
ghost use Rattle.margin.specs.Positions.{Based};
ghost use Rattle.margin.specs.Worst.{worse_of, loss_of, ScenarioLoss, worst_of};

use super::ValuedPosition;
use super::estimates::estimate;
use super::losses::{Loss, curve_in, loss_of};
use curve::Curve;
use logarithm::tables::Tables;
use screening::least::least_of;

// The first of n places whose value is at most the limit, where there is one.
fn first_kept(values: &[i64], limit: i64, n: u64) -> u64
    requires { (n ≤ length values.now) × SomeKept values.now limit n }
    ensures { FirstKept values.now limit result × (result < n) }
{
    values[..n as usize]
        .iter()
        .position(|v| *v <= limit)
        .unwrap() as u64
}

// Whether the nodes of two curves have the same rates.
fn same_rates(a: Curve, b: Curve) -> bool
    requires { ProperCurve a × ProperCurve b × (a.count ≡ b.count) }
    ensures { result ≡ same_rates a b }
{
    let n = a.count;
    a.nodes[..n]
        .iter()
        .zip(&b.nodes[..n])
        .all(|(x, y)| x.rate == y.rate)
}

// The worse of a loss and that of scenario s. Where both scenarios give the nodes the same rates, the losses are equal, and nothing is valued.
fn worse_with(
    valued: ValuedPosition,
    ladder: &[u64],
    tables: Tables<'_>,
    worst: Loss,
    s: u64,
) -> Loss
    requires { Based valued ladder.now × ScenarioLoss (exposure_of valued.position ladder.now) worst × (s < scenario_count valued.position.components) }
    ensures { result ≡ worse_of worst (loss_of (exposure_of valued.position ladder.now) s) }
{
    let stressed = curve_in(valued.position, s);
    if same_rates(stressed, curve_in(valued.position, worst.scenario)) {
        return worst;
    }
    worst.worse(Loss {
        amount: loss_of(valued, ladder, tables, s),
        scenario: s,
    })
}

// The worst of the scenarios that are kept: those whose estimate is at most the limit.
fn worst_kept(
    valued: ValuedPosition,
    ladder: &[u64],
    tables: Tables<'_>,
    values: &[i64],
    limit: i64,
) -> Loss
    requires { Based valued ladder.now × (length values.now ≡ 343) × SomeKept values.now limit (scenario_count valued.position.components) }
    ensures { WorstKept (loss_at flow_value (exposure_of valued.position ladder.now)) values.now limit (scenario_count valued.position.components) result }
{
    let count = valued.position.components.scenario_count();
    let first = first_kept(values, limit, count);
    let mut worst = Loss {
        amount: loss_of(valued, ladder, tables, first),
        scenario: first,
    };
    for s in first + 1..count {
        if values[s as usize] <= limit {
            worst = worse_with(valued, ladder, tables, worst, s);
        }
    }
    worst
}

// The first scenario with the largest loss, given an estimate of each scenario's value and how far it may be off.
fn worst_estimated(
    valued: ValuedPosition,
    ladder: &[u64],
    tables: Tables<'_>,
    values: &[i64],
    deviation: u64,
) -> Loss
    requires { Based valued ladder.now × Estimates (exposure_of valued.position ladder.now) values.now deviation }
    ensures { result ≡ worst_of (exposure_of valued.position ladder.now) }
{
    let least = least_of(values, valued.position.components.scenario_count());
    let limit = values[least as usize] + 2 * deviation as i64;
    worst_kept(valued, ladder, tables, values, limit)
}

// The first scenario with the largest loss.
pub fn worst_of(valued: ValuedPosition, ladder: &[u64], tables: Tables<'_>) -> Loss
    requires { Based valued ladder.now }
    ensures { result ≡ worst_of (exposure_of valued.position ladder.now) }
{
    let mut values = [0i64; 343];
    let deviation = estimate(valued.position, ladder, tables, &mut values);
    worst_estimated(valued, ladder, tables, &values, deviation)
}
