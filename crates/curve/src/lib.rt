// The rate of a curve on a day, the scenarios of its components, and its nodes under a scenario.
#![tactic(auto)]

ghost use Rattle.std.specs.Prelude.{◌≡◌, ◌<◌, nat_abs};
ghost use Rattle.curve.specs.Rates.{nodes_of, interpolated, rate_at, BetweenNodes};
ghost use Rattle.curve.specs.Limits.{NodeLimits, ProperCurve, ComponentLimits, ProperComponents, ScenarioLimits};
ghost use Rattle.curve.specs.Scenarios.{coefficient_count, coefficient, scenario_count, scenario_at};
ghost use Rattle.curve.specs.Stress.{shifted, stressed, stressed_curve};
ghost use Rattle.curve.specs.Lengthen.{end_day, lengthened_curve, at_rate};

// A node of a curve: its rate on a day, and the three components of the rate's moves, all in millionths.
#[derive(Clone, Copy)]
pub struct Node {
    pub day: u64,
    pub rate: u64,
    pub first: i64,
    pub second: i64,
    pub third: i64,
}

// The first `count` nodes are the curve's. Every module and contract reads both fields, and without a heap the nodes lie in an array of the most a curve has.
#[derive(Clone, Copy)]
pub struct Curve {
    pub nodes: [Node; 24],
    pub count: usize,
}

// How far and how finely a component is stressed: its steps to each side of 0, and its range in hundredths.
#[derive(Clone, Copy)]
pub struct Component {
    pub steps: u64,
    pub range: u64,
}

#[derive(Clone, Copy)]
pub struct Components {
    pub first: Component,
    pub second: Component,
    pub third: Component,
}

// A coefficient for each component, in hundredths.
#[derive(Clone, Copy)]
pub struct Scenario {
    pub first: i64,
    pub second: i64,
    pub third: i64,
}

// The rate on day t, between node a and the next node b.
fn interpolate(a: Node, b: Node, t: u64) -> u64
    requires { NodeLimits a × NodeLimits b × BetweenNodes a b t }
    ensures { result ≡ nat_abs (interpolated a b t) }
{
    let rate = a.rate as i64;
    let day = a.day as i64;
    let rise = b.rate as i64 - rate;
    let gone = t as i64 - day;
    let run = b.day as i64 - day;
    (rate + rise * gone / run) as u64
}

impl Curve {
    // The rate on day t: between nodes interpolated, and beyond them the end node's.
    pub fn rate_at(self, t: u64) -> u64
        requires { ProperCurve self }
        ensures { result ≡ rate_at (nodes_of self) t }
    {
        let mut a = self.nodes[0];
        if t < a.day {
            return a.rate;
        }
        for b in &self.nodes[1..self.count] {
            if t < b.day {
                return interpolate(a, *b, t);
            }
            a = *b;
        }
        a.rate
    }
}

impl Component {
    pub fn coefficient_count(self) -> u64
        requires { ComponentLimits self }
        ensures { result ≡ coefficient_count self }
    {
        2 * self.steps + 1
    }

    // Coefficient k, from 0.
    pub fn coefficient(self, k: u64) -> i64
        requires { ComponentLimits self × (k < coefficient_count self) }
        ensures { result ≡ coefficient self k }
    {
        if self.steps == 0 {
            return 0;
        }
        let m = self.steps as i64;
        (k as i64 - m) * self.range as i64 / m
    }
}

impl Components {
    pub fn scenario_count(self) -> u64
        requires { ProperComponents self }
        ensures { result ≡ scenario_count self }
    {
        self.first.coefficient_count()
            * self.second.coefficient_count()
            * self.third.coefficient_count()
    }

    // Scenario s, from 0: the first component slowest, the third fastest.
    pub fn scenario(self, s: u64) -> Scenario
        requires { ProperComponents self × (s < scenario_count self) }
        ensures { result ≡ scenario_at self s }
    {
        let fast = self.third.coefficient_count();
        let slow = self.second.coefficient_count() * fast;
        let rest = s % slow;
        let first = self.first.coefficient(s / slow);
        let second = self.second.coefficient(rest / fast);
        let third = self.third.coefficient(rest % fast);
        Scenario {
            first,
            second,
            third,
        }
    }
}

// The rate that a scenario moves a node's to, before it is brought into its limits.
fn shift(n: Node, s: Scenario) -> i64
    requires { NodeLimits n × ScenarioLimits s }
    ensures { result ≡ shifted s n }
{
    let sum = s.first * n.first + s.second * n.second + s.third * n.third;
    n.rate as i64 + sum / 100
}

impl Node {
    // The node under a scenario.
    pub fn stressed(self, s: Scenario) -> Node
        requires { NodeLimits self × ScenarioLimits s }
        ensures { result ≡ stressed s self }
    {
        let rate = shift(self, s).clamp(0, 1_000_000) as u64;
        Node { rate, ..self }
    }
}

impl Curve {
    // The curve with every node under a scenario.
    pub fn stressed(self, s: Scenario) -> Curve
        requires { ProperCurve self × ScenarioLimits s }
        ensures { result ≡ stressed_curve s self }
    {
        let mut r = self;
        // By place: after `iter_mut` of a part of a field the check knows the part's length alone, and an array in a local is one copy more a scenario.
        for i in 0..self.count {
            r.nodes[i] = self.nodes[i].stressed(s);
        }
        r
    }
}

impl Node {
    // The node at a rate.
    pub fn at_rate(self, rate: u64) -> Node
        ensures { result ≡ at_rate self rate }
    {
        Node { rate, ..self }
    }
}

impl Curve {
    // The day of the last node.
    pub fn end_day(self) -> u64
        requires { ProperCurve self }
        ensures { result ≡ end_day self }
    {
        self.nodes[self.count - 1].day
    }

    // The curve with one node more, behind the last.
    #[tactic(auto, unfolding(crate::specs::Lengthen::lengthened_curve))]
    pub fn lengthened(self, n: Node) -> Curve
        requires { ProperCurve self × (self.count < 24) }
        ensures { result ≡ lengthened_curve n self }
    {
        let mut r = self;
        r.nodes[self.count] = n;
        r.count += 1;
        r
    }
}
