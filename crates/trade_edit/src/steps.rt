// The steps of an edit, on the lent bytes of a book that no ground refuses.
ghost use Rattle.std.specs.Prelude.{◌≡◌, ◌+◌, ◌-◌, ◌*◌, ◌/◌, ◌≤◌, length};
ghost use Rattle.laws.specs.Walk.{run};
ghost use Rattle.layout.specs.Bytes.{part, put};
ghost use Rattle.book.specs.Parts.{curve_count};
ghost use Rattle.trade_edit.specs.Blocks.{with_new_block, place_of, record_moved, end_of, cut_back, block_sealed};

use crate::blocks::{bare_block, clear, put_record, put_trade_blocks};
use book::parts::{curve_count, trade_blocks};
use layout::check::seal;
use layout::copy_in;

// A new block behind the book, with the record, and the header's count.
pub fn grow(book: &mut [u8], used: usize, r: [u8; 56])
    requires { (512 ≤ used) × (used + 512 ≤ length book.old) }
    ensures { book.new ≡ with_new_block book.old used r }
{
    let blocks = trade_blocks(&book[..]);
    let mut b = bare_block(used / 512);
    put_record(&mut b, 0, r);
    copy_in(book, used, &b);
    put_trade_blocks(&mut book[0..512], blocks + 1);
}

// Where the record at a position stands.
fn place_of(curves: usize, i: usize) -> usize
    requires { (curves ≤ 65536) × (i ≤ 1152) }
    ensures { result ≡ place_of curves i }
{
    (1 + curves + i / 9) * 512 + 4 + i % 9 * 56
}

// Writes the record at one place over another's.
fn move_record(book: &mut [u8], from: usize, to: usize)
    requires { (to + 56 ≤ from) × (from + 56 ≤ length book.old) }
    ensures { book.new ≡ put book.old to (part book.old from 56) }
{
    book.copy_within(from..from + 56, to);
}

// Moves every record behind a position up by one, from block to block too.
pub fn move_up(book: &mut [u8], position: usize, left: usize)
    requires position_le_left { (position ≤ left) × (left ≤ 1152) }
    requires left_in_bounds { (1 + curve_count book.old + left / 9) * 512 + 512 ≤ length book.old }
    ensures { book.new ≡ run (record_moved (curve_count book.old)) position (left - position) book.old }
{
    let curves = curve_count(&book[..]);
    for i in position..left {
        move_record(book, place_of(curves, i + 1), place_of(curves, i));
    }
}

// Where n records end.
fn end_of(curves: usize, n: usize) -> usize
    requires { (curves ≤ 65536) × (n ≤ 1152) }
    ensures { result ≡ end_of curves n }
{
    if n % 9 == 0 {
        return (1 + curves + n / 9) * 512;
    }
    place_of(curves, n)
}

// Leaves n records: zeros behind them, then the count of the last block, its byte 1, and the header's.
pub fn cut_back(book: &mut [u8], used: usize, n: usize)
    requires { (n ≤ 1152) × ((used ≡ (1 + curve_count book.old + n / 9) * 512 + 512) × (used ≤ length book.old)) }
    ensures { book.new ≡ cut_back book.old used n }
{
    let end = end_of(curve_count(&book[..]), n);
    clear(book, end, used - end);
    book[used - 511] = (n % 9) as u8;
    put_trade_blocks(&mut book[0..512], n.div_ceil(9));
}

// Seals the blocks from one up to, not including, another.
pub fn seal_blocks(book: &mut [u8], from: usize, to: usize)
    requires { (to ≤ 128) × (to * 512 ≤ length book.old) }
    ensures { book.new ≡ run block_sealed from (to - from) book.old }
{
    for k in from..to {
        seal(&mut book[k * 512..k * 512 + 512]);
    }
}
