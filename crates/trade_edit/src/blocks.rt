// The bytes of one block changed.
ghost use Rattle.std.specs.Prelude.{◌≡◌, ◌+◌, ◌≤◌, ◌<◌, length, replicate};
ghost use Rattle.layout.specs.Bytes.{put};
ghost use Rattle.trade_edit.specs.Blocks.{with_record, bare_block, with_trade_blocks};

use layout::check::{Kind, seal};
use layout::{copy_in, put_le};

// Puts a record into place n of a block of trades, behind its others.
#[tactic(auto, unfolding(crate::specs::Blocks::with_record))]
pub fn put_record(b: &mut [u8], n: usize, r: [u8; 56])
    requires { (length b.old ≡ 512) × (n < 9) }
    ensures { b.new ≡ with_record b.old n r }
{
    copy_in(b, 4 + n * 56, &r);
    b[1] = (n + 1) as u8;
    seal(b);
}

// A block of trades with no record, not sealed.
#[tactic(auto, unfolding(crate::specs::Blocks::bare_block))]
pub fn bare_block(number: usize) -> [u8; 512]
    ensures { result ≡ bare_block number }
{
    let mut b = [0u8; 512];
    b[0] = Kind::Trades as u8;
    put_le(&mut b, 2, 2, number as u64);
    b
}

// Writes the header's number of trade blocks.
#[tactic(auto, unfolding(crate::specs::Blocks::with_trade_blocks))]
pub fn put_trade_blocks(b: &mut [u8], n: usize)
    requires { length b.old ≡ 512 }
    ensures { b.new ≡ with_trade_blocks b.old n }
{
    put_le(b, 10, 2, n as u64);
    seal(b);
}

// Writes n zeros.
pub fn clear(s: &mut [u8], at: usize, n: usize)
    requires { at + n ≤ length s.old }
    ensures { s.new ≡ put s.old at (replicate n 0) }
{
    s[at..at + n].fill(0);
}
