// Estimates of a curve's scenarios: the value of its netted flows at cheap factors, screened.
ghost use Rattle.std.specs.Prelude.{◌≡◌, length};
ghost use Rattle.ladder.specs.Exposure.{exposure_of, PositionLimits};
ghost use Rattle.margin.specs.Choice.{Estimates};

use ladder::Position;
use ladder::net::{deviation_of, net_days};
use logarithm::tables::Tables;
use screening::screen::screen;

// An estimate of each scenario's value. Answers how far each may be off.
pub fn estimate(position: Position, ladder: &[u64], tables: Tables<'_>, values: &mut [i64]) -> u64
    requires { PositionLimits position ladder.now × (length values.old ≡ 343) }
    ensures { Estimates (exposure_of position ladder.now) values.new result }
{
    let mut nets = [0i64; 10951];
    net_days(position.id, ladder, position.schedules, &mut nets);
    screen(position.curve, position.components, &nets, tables, values);
    deviation_of(position.id, ladder, position.schedules)
}
