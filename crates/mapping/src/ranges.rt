// How far the rates of two nodes are apart in any scenario at most, and how high they are at most.
ghost use Rattle.std.specs.Prelude.{◌≡◌, ◌*◌, ◌≤◌, nat_abs, ◌-ℤ◌};
ghost use Rattle.curve.specs.Limits.{NodeLimits, ComponentLimits, ProperComponents};
ghost use Rattle.mapping.specs.Ranges.{swing, moved_apart, width_of, height_of, range_of};

use curve::{Component, Components, Node};

// The highest rate.
const HIGHEST: u64 = 1_000_000;

#[derive(Clone, Copy)]
pub struct Range {
    pub width: u64,
    pub highest: u64,
}

// The most that a component's coefficients are, to either side.
#[tactic(auto, unfolding(crate::specs::Ranges::swing))]
fn swing(x: Component) -> u64
    ensures { result ≡ swing x }
{
    if x.steps == 0 {
        return 0;
    }
    x.range
}

// How far a component moves two nodes' rates apart at most, in hundredths of a millionth: a and b are the nodes' own parts of it.
fn moved_by(x: Component, a: i64, b: i64) -> u64
    requires { ComponentLimits x × (nat_abs a ≤ 1_000_000) × (nat_abs b ≤ 1_000_000) }
    ensures { (result ≡ swing x * nat_abs (a -ℤ b)) × (result ≤ 20_000_000_000) }
{
    swing(x) * a.abs_diff(b)
}

// All three.
fn moved_apart(a: Node, b: Node, components: Components) -> u64
    requires { NodeLimits a × NodeLimits b × ProperComponents components }
    ensures { (result ≡ moved_apart a b components) × (result ≤ 60_000_000_000) }
{
    let first = moved_by(components.first, a.first, b.first);
    let second = moved_by(components.second, a.second, b.second);
    let third = moved_by(components.third, a.third, b.third);
    first + second + third
}

#[tactic(auto, unfolding(crate::specs::Ranges::width_of))]
fn width_of(a: Node, b: Node, components: Components) -> u64
    requires { NodeLimits a × NodeLimits b × ProperComponents components }
    ensures { result ≡ width_of a b components }
{
    let rates = a.rate.abs_diff(b.rate);
    (rates + moved_apart(a, b, components) / 100 + 2).min(HIGHEST)
}

#[tactic(auto, unfolding(crate::specs::Ranges::height_of))]
fn height_of(n: Node, components: Components) -> u64
    requires { NodeLimits n × ProperComponents components }
    ensures { result ≡ height_of n components }
{
    let still = Node {
        day: 0,
        rate: 0,
        first: 0,
        second: 0,
        third: 0,
    };
    (n.rate + moved_apart(n, still, components) / 100).min(HIGHEST)
}

// Of the rates of nodes a and b in every scenario.
#[tactic(auto, unfolding(crate::specs::Ranges::range_of))]
pub fn range_of(a: Node, b: Node, components: Components) -> Range
    requires { NodeLimits a × NodeLimits b × ProperComponents components }
    ensures { result ≡ range_of a b components }
{
    let highest = height_of(a, components).max(height_of(b, components));
    Range {
        width: width_of(a, b, components),
        highest,
    }
}
