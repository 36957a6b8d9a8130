// Where in the list of days the days of a curve's lines end.
ghost use Rattle.std.specs.Prelude.{◌≤◌, length};
ghost use Rattle.curve.specs.Limits.{ProperCurve};
ghost use Rattle.estimate.specs.Values.{DaysBefore, Ends, Rising};

use curve::Curve;

// How many of the days come before a day.
fn days_before(days: &[u16], day: u64) -> usize
    requires { Rising days.now }
    ensures { DaysBefore day days.now result }
{
    days.partition_point(|d| u64::from(*d) < day)
}

// How many come before each node's.
pub fn fill_ends(curve: Curve, days: &[u16], ends: &mut [usize])
    requires { ProperCurve curve × Rising days.now × (curve.count ≤ length ends.old) }
    ensures { Ends curve days.now ends.new }
{
    for i in 0..curve.count {
        ends[i] = days_before(days, curve.nodes[i].day);
    }
}
