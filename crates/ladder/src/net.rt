// A ladder's flows netted by day, and how far the value of the net amounts at cheap factors may be off.
ghost use Rattle.std.specs.Prelude.{◌≡◌, length};
ghost use Rattle.discount.specs.Flows.{sum};
ghost use Rattle.netting.specs.Netting.{netted, flow_deviation};
ghost use Rattle.ground.specs.Limits.{day_count};
ghost use Rattle.ladder.specs.Ladder.{ladder_flows, LadderLimits};
ghost use Rattle.ladder.specs.Netted.{NetsRoom};

use super::payments::leg_at;
use netting::net::net_with;
use netting::value::deviation;

// Adds the payments of the first schedules to the net amounts of their days.
pub fn net_days(curve: u64, ladder: &[u64], schedules: usize, nets: &mut [i64])
    requires { LadderLimits curve ladder.now schedules × (length nets.old ≡ day_count) × NetsRoom (length (ladder_flows curve ladder.now schedules)) nets.old }
    ensures { nets.new ≡ netted (ladder_flows curve ladder.now schedules) nets.old }
{
    for i in 0..schedules {
        let leg = leg_at(curve, ladder, i);
        for k in 0..leg.count {
            let f = leg.flow(k);
            let day = f.day as usize;
            nets[day] = net_with(nets[day], f);
        }
    }
}

// How far the payments of the first schedules may be off, added up.
pub fn deviation_of(curve: u64, ladder: &[u64], schedules: usize) -> u64
    requires { LadderLimits curve ladder.now schedules }
    ensures { result ≡ sum flow_deviation (ladder_flows curve ladder.now schedules) }
{
    let mut off = 0;
    for i in 0..schedules {
        let leg = leg_at(curve, ladder, i);
        for k in 0..leg.count {
            let f = leg.flow(k);
            off += deviation(f.amount, f.day);
        }
    }
    off
}
