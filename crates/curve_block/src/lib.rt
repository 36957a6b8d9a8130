// A curve block: what it holds, and its verdict.
#![tactic(auto)]

pub mod rules;

ghost use Rattle.std.specs.Prelude.{◌≡◌, ◌+◌, ◌≤◌, ◌<◌, length};
ghost use Rattle.curve_block.specs.Parts.{currency_of, node_count, node_place, node_at, curve_of, component_at, components_of};

use curve::{Component, Components, Curve, Node};
use layout::{i32_at, u16_at, u32_at, wide};

pub fn currency_of(b: &[u8]) -> u64
    requires { length b.now ≡ 512 }
    ensures { result ≡ currency_of b.now }
{
    wide(b[5])
}

pub fn node_count(b: &[u8]) -> usize
    requires { length b.now ≡ 512 }
    ensures { result ≡ node_count b.now }
{
    b[6] as usize
}

// Where node i starts.
pub fn node_place(i: usize) -> usize
    requires { i ≤ 24 }
    ensures { result ≡ node_place i }
{
    20 + i * 20
}

#[tactic(auto, unfolding(crate::specs::Parts::node_at))]
fn node_at(b: &[u8], i: usize) -> Node
    requires { (length b.now ≡ 512) × (i < 24) }
    ensures { result ≡ node_at b.now i }
{
    let at = node_place(i);
    Node {
        day: u16_at(b, at),
        rate: u32_at(b, at + 4),
        first: i32_at(b, at + 8),
        second: i32_at(b, at + 12),
        third: i32_at(b, at + 16),
    }
}

pub fn curve_of(b: &[u8]) -> Curve
    requires { length b.now ≡ 512 }
    ensures { result ≡ curve_of b.now }
{
    let none = Node {
        day: 0,
        rate: 0,
        first: 0,
        second: 0,
        third: 0,
    };
    // std's array::from_fn tells nothing of what its closure made, where that isn't a bound
    let mut nodes = [none; 24];
    for i in 0..24 {
        nodes[i] = node_at(b, i);
    }
    Curve {
        nodes,
        count: node_count(b),
    }
}

// The component whose steps and range stand at these places.
fn component_at(b: &[u8], steps: usize, range: usize) -> Component
    requires { (steps < length b.now) × (range + 2 ≤ length b.now) }
    ensures { result ≡ component_at b.now steps range }
{
    Component {
        steps: wide(b[steps]),
        range: u16_at(b, range),
    }
}

#[tactic(auto, unfolding(crate::specs::Parts::components_of))]
pub fn components_of(b: &[u8]) -> Components
    requires { length b.now ≡ 512 }
    ensures { result ≡ components_of b.now }
{
    Components {
        first: component_at(b, 7, 12),
        second: component_at(b, 8, 14),
        third: component_at(b, 9, 16),
    }
}
