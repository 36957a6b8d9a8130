// Legs: runs of cash flows, their signs, and a window of days.
#![tactic(auto)]

ghost use Rattle.std.specs.Prelude.{◌≡◌, ◌<◌};
ghost use Rattle.legs.specs.Limits.{LegLimits};
ghost use Rattle.legs.specs.Runs.{flow_of};

pub mod signs;
pub mod simple_legs;
pub mod window;

use discount::Flow;

// Flows of one kind on one curve: `count` of them from the day `first` on, `period` days apart, all received or all paid. Each is of the
// amount `each`, but the last is of the amount `last`.
#[derive(Clone, Copy)]
pub struct Leg {
    pub curve: u64,
    pub received: bool,
    pub first: u64,
    pub period: u64,
    pub count: u64,
    pub each: u64,
    pub last: u64,
}

impl Leg {
    // Flow k.
    pub fn flow(self, k: u64) -> Flow
        requires { LegLimits self × (k < self.count) }
        ensures { result ≡ flow_of self k }
    {
        Flow {
            curve: self.curve,
            day: self.first + k * self.period,
            received: self.received,
            amount: if k + 1 == self.count {
                self.last
            } else {
                self.each
            },
        }
    }
}

// A trade's flows, in their order.
#[derive(Clone, Copy)]
pub struct Legs {
    pub first: Leg,
    pub second: Leg,
    pub payments: Leg,
}
