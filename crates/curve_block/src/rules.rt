// The rules of a curve block, and the first that it breaks.
ghost use Rattle.std.specs.Prelude.{◌≡◌, ◌≤◌, length};
ghost use Rattle.curve_block.specs.Parts.{node_count};
ghost use Rattle.curve_block.specs.Rules.{steps_sound, numbers_sound, gaps_zero, unnamed_zero, breaks_curve, component_sound, node_sound, breaks_node};
ghost use Rattle.curve_block.specs.Verdict.{curve_verdict};

use crate::{components_of, currency_of, node_at, node_count, node_place};
use curve::{Component, Node};
use ground::{Ground, LAST_DAY, Refusal, refuse_if};
use layout::check::{Kind, breaks_check, breaks_place};
use layout::{u16_at, wide, zeros};

#[tactic(auto, unfolding(crate::specs::Rules::steps_sound))]
fn steps_sound(x: Component) -> bool
    ensures { result ≡ steps_sound x }
{
    (x.steps <= 3) & (x.range <= 10_000)
}

#[tactic(auto, unfolding(crate::specs::Rules::numbers_sound))]
fn numbers_sound(b: &[u8], k: u64) -> bool
    requires { length b.now ≡ 512 }
    ensures { result ≡ numbers_sound b.now k }
{
    let currency = currency_of(b);
    let n = node_count(b);
    let x = components_of(b);
    (wide(b[4]) == k)
        & (1 <= currency)
        & (currency <= 3)
        & (2 <= n)
        & (n <= 24)
        & steps_sound(x.first)
        & steps_sound(x.second)
        & steps_sound(x.third)
}

// The two 0 bytes of each node.
fn gaps_zero(b: &[u8]) -> bool
    requires { (length b.now ≡ 512) × (node_count b.now ≤ 24) }
    ensures { result ≡ gaps_zero b.now }
{
    for i in 0..node_count(b) {
        if u16_at(b, node_place(i) + 2) != 0 {
            return false;
        }
    }
    true
}

#[tactic(auto, unfolding(crate::specs::Rules::unnamed_zero))]
fn unnamed_zero(b: &[u8]) -> bool
    requires { (length b.now ≡ 512) × (node_count b.now ≤ 24) }
    ensures { result ≡ unnamed_zero b.now }
{
    let n = node_count(b);
    (b[1] == 0)
        & (u16_at(b, 10) == 0)
        & (u16_at(b, 18) == 0)
        & gaps_zero(b)
        & zeros(b, node_place(n), 508)
}

// Ground 5.
#[tactic(auto, unfolding(crate::specs::Rules::breaks_curve))]
pub fn breaks_curve(b: &[u8], k: u64) -> bool
    requires { length b.now ≡ 512 }
    ensures { result ≡ breaks_curve b.now k }
{
    !(numbers_sound(b, k) && unnamed_zero(b))
}

// A component of a node.
#[tactic(auto, unfolding(crate::specs::Rules::component_sound))]
pub fn component_sound(z: i64) -> bool
    ensures { result ≡ component_sound z }
{
    (-1_000_000 <= z) & (z <= 1_000_000)
}

// Node i, behind a node of day `before`.
#[tactic(auto, unfolding(crate::specs::Rules::node_sound))]
fn node_sound(i: usize, before: u64, n: Node) -> bool
    ensures { result ≡ node_sound i before n }
{
    ((i == 0) | (before < n.day))
        & (n.day <= LAST_DAY)
        & (n.rate <= 1_000_000)
        & component_sound(n.first)
        & component_sound(n.second)
        & component_sound(n.third)
}

// Ground 6, of a node count that ground 5 allows.
pub fn breaks_node(b: &[u8]) -> bool
    requires { (length b.now ≡ 512) × (node_count b.now ≤ 24) }
    ensures { result ≡ breaks_node b.now }
{
    let mut before: u64 = 0;
    for i in 0..node_count(b) {
        let node = node_at(b, i);
        if !node_sound(i, before, node) {
            return true;
        }
        before = node.day;
    }
    false
}

// The verdict on curve block k: grounds 2, 3, 5 and 6, whose test needs the node count that 5 allows.
#[tactic(auto, unfolding(crate::specs::Verdict::curve_verdict))]
pub fn curve_verdict(b: &[u8], k: u64) -> Result<(), Refusal>
    requires { length b.now ≡ 512 }
    ensures { result ≡ curve_verdict b.now k }
{
    refuse_if(breaks_check(b), Ground::Check, k)?;
    refuse_if(breaks_place(b, Kind::Curve as u64, k), Ground::Place, k)?;
    refuse_if(breaks_curve(b, k), Ground::Curve, k)?;
    refuse_if(breaks_node(b), Ground::Node, k)
}
