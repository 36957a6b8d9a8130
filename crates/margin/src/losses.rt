// The losses of a curve's scenarios, in full.
ghost use Rattle.std.specs.Prelude.{◌≡◌, ◌<◌};
ghost use Rattle.curve.specs.Limits.{ProperCurve, ProperComponents};
ghost use Rattle.curve.specs.Scenarios.{scenario_count, scenario_at};
ghost use Rattle.curve.specs.Stress.{stressed_curve};
ghost use Rattle.discount.specs.Flows.{flow_value};
ghost use Rattle.ladder.specs.Exposure.{exposure_of};
ghost use Rattle.margin.specs.Losses.{loss_at};
ghost use Rattle.margin.specs.Positions.{Based};
ghost use Rattle.margin.specs.Worst.{worse_of, LossLimits};

use super::ValuedPosition;
use curve::Curve;
use ladder::Position;
use ladder::valuing::value_of;
use logarithm::tables::Tables;

// The curve of a position in scenario s.
pub fn curve_in(position: Position, s: u64) -> Curve
    requires { ProperCurve position.curve × ProperComponents position.components × (s < scenario_count position.components) }
    ensures { result ≡ stressed_curve (scenario_at position.components s) position.curve }
{
    position.curve.stressed(position.components.scenario(s))
}

// The loss of scenario s: the base less the value at the stressed nodes.
pub fn loss_of(valued: ValuedPosition, ladder: &[u64], tables: Tables<'_>, s: u64) -> i64
    requires { Based valued ladder.now × (s < scenario_count valued.position.components) }
    ensures { result ≡ loss_at flow_value (exposure_of valued.position ladder.now) s }
{
    let position = valued.position;
    let stressed = curve_in(position, s);
    let total = value_of(position.id, stressed, ladder, position.schedules, tables);
    valued.base - total.sum
}

// A scenario and its loss.
#[derive(Clone, Copy)]
pub struct Loss {
    pub amount: i64,
    pub scenario: u64,
}

impl Loss {
    // The worse of two losses, and the first of equal ones: std's max gives the last of these.
    pub fn worse(self, other: Loss) -> Loss
        requires { LossLimits self × LossLimits other }
        ensures { result ≡ worse_of self other }
    {
        if self.amount < other.amount {
            other
        } else {
            self
        }
    }
}
