// The running total of a curve's flows.
ghost use Rattle.std.specs.Prelude.{◌≡◌, ◌≤◌};
ghost use Rattle.decimal.specs.Product.{unit};
ghost use Rattle.ladder.specs.Totals.{plus_flow, FlowLimits, TotalRoom};

use discount::Flow;
use discount::value::tolerance;

// The signed sum of flows' values, and the sum of their tolerances.
#[derive(Clone, Copy)]
pub struct Total {
    pub sum: i64,
    pub tolerance: u64,
}

impl Total {
    // With one flow more, of a value.
    pub fn with_flow(self, f: Flow, value: u64) -> Total
        requires { TotalRoom 1 self × FlowLimits f × (value ≤ unit) }
        ensures { result ≡ plus_flow self f value }
    {
        let worth = value as i64;
        Total {
            sum: if f.received {
                self.sum + worth
            } else {
                self.sum - worth
            },
            tolerance: self.tolerance + tolerance(f.amount, f.day),
        }
    }
}
