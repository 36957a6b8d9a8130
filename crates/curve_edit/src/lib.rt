// A curve block with one node more.
#![tactic(auto)]

ghost use Rattle.std.specs.Prelude.{◌≡◌, ◌≤◌, ◌<◌, ◌+◌, length};
ghost use Rattle.layout.specs.Bytes.{put};
ghost use Rattle.curve_block.specs.Parts.{node_count};
ghost use Rattle.curve_edit.specs.Lengthen.{node_bytes, with_node};

use curve::Node;
use curve_block::{node_count, node_place};
use layout::check::seal;
use layout::{put_le, put_signed};

// Writes a node's 20 bytes from a place on.
fn put_node(b: &mut [u8], at: usize, n: Node)
    requires { (length b.old ≡ 512) × (at + 20 ≤ 512) }
    ensures { b.new ≡ put b.old at (node_bytes n) }
{
    put_le(b, at, 2, n.day);
    put_le(b, at + 2, 2, 0);
    put_le(b, at + 4, 4, n.rate);
    put_signed(b, at + 8, 4, n.first);
    put_signed(b, at + 12, 4, n.second);
    put_signed(b, at + 16, 4, n.third);
}

// Adds a node behind the last of a curve block that has a place for it.
pub fn add_node(b: &mut [u8], n: Node)
    requires { (length b.old ≡ 512) × (node_count b.old < 24) }
    ensures { b.new ≡ with_node n b.old }
{
    let count = node_count(b);
    put_node(b, node_place(count), n);
    b[6] = (count + 1) as u8;
    seal(b);
}
