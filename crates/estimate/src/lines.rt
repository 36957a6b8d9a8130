// Lines: the rate of a curve between two nodes as a product and a cut, with one division a line and none a day.
ghost use Rattle.std.specs.Prelude.{◌≡◌, ◌≤◌, ◌<◌, nat_abs};
ghost use Rattle.curve.specs.Limits.{NodeLimits};
ghost use Rattle.estimate.specs.Lines.{line_scale, slope_of, level, line_from, line_of, rate_on, Drawn, Ahead, steepest};

use curve::Node;

// A rate in the parts that a line counts in: 2^27.
const PARTS: u64 = 134_217_728;

// A line gives rates of days: it stands at `start` on day 0, and moves by `slope` a day.
#[derive(Clone, Copy)]
pub struct Line {
    pub start: i64,
    pub slope: i64,
}

// The parts that a rate moves a day, rounded up, where it moves by `way` in `run` days.
fn slope(way: u64, run: u64) -> u64
    requires { (way ≤ 1_000_000) × (0 < run) }
    ensures { result ≡ slope_of way run }
{
    way * PARTS / run + 1
}

// One rate on every day.
pub fn level(rate: u64) -> Line
    requires { rate ≤ 1_000_000 }
    ensures { result ≡ level rate }
{
    Line {
        start: (rate * PARTS) as i64,
        slope: 0,
    }
}

// By its slope, as many parts above node a's rate on node a's day.
fn line_from(a: Node, above: u64, slope: i64) -> Line
    requires { NodeLimits a × (above ≤ line_scale) × (nat_abs slope ≤ steepest) }
    ensures { result ≡ line_from a above slope }
{
    Line {
        start: (a.rate * PARTS + above) as i64 - slope * a.day as i64,
        slope,
    }
}

// From node a to the next node b. What a rate falls is cut towards zero, so a line down starts a part below the next rate.
pub fn line_of(a: Node, b: Node) -> Line
    requires { Ahead a b }
    ensures { result ≡ line_of a b }
{
    let run = b.day - a.day;
    if a.rate <= b.rate {
        let up = slope(b.rate - a.rate, run) as i64;
        return line_from(a, 0, up);
    }
    let down = slope(a.rate - b.rate, run) as i64;
    line_from(a, PARTS - 1, -down)
}

impl Line {
    // The rate on day t.
    pub fn rate_on(self, t: u64) -> u64
        requires { Drawn self t }
        ensures { result ≡ rate_on self t }
    {
        (self.start + self.slope * t as i64) as u64 / PARTS
    }
}
