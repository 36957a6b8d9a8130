// The parts of a book, by their places.
ghost use Rattle.std.specs.Prelude.{◌≡◌, ◌+◌, ◌*◌, ◌/◌, ◌≤◌, ◌<◌, [], length, get_or};
ghost use Rattle.curve_block.specs.Parts.{currency_of};
ghost use Rattle.book.specs.Parts.{block_at, record_count, record_place, record_in, header_of, curve_count, trade_blocks, curve_blocks, curves_of, trade_count, record_at};

use layout::{copy_in, u16_at, u32_at, wide};
use record::Curves;

// Block k of the book.
pub fn block_at(book: &[u8], k: usize) -> &[u8]
    requires { k * 512 + 512 ≤ length book.now }
    ensures result_value { result.now ≡ block_at book.now k }
    ensures result_len { length result.now ≡ 512 }
{
    let at = k * 512;
    &book[at..at + 512]
}

// How many records a block of trades says it holds.
pub fn record_count(b: &[u8]) -> usize
    requires { length b.now ≡ 512 }
    ensures value { result ≡ record_count b.now }
    ensures upper_bound { result < 256 }
{
    wide(b[1]) as usize
}

// Where record i of a block of trades starts.
pub fn record_place(i: usize) -> usize
    requires { i ≤ 9 }
    ensures { result ≡ record_place i }
{
    4 + i * 56
}

// Record i of a block of trades.
pub fn record_in(b: &[u8], i: usize) -> &[u8]
    requires { (length b.now ≡ 512) × (i < 9) }
    ensures result_value { result.now ≡ record_in b.now i }
    ensures result_len { length result.now ≡ 56 }
{
    let at = record_place(i);
    &b[at..at + 56]
}

pub fn account(book: &[u8]) -> u64
    requires { 512 ≤ length book.now }
    ensures value { result ≡ (header_of book.now).account }
    ensures upper_bound { result < 4294967296 }
{
    u32_at(book, 4)
}

// As days since 1 January 2000.
pub fn valuation_day(book: &[u8]) -> u64
    requires { 512 ≤ length book.now }
    ensures { result ≡ (header_of book.now).day }
{
    u32_at(book, 12)
}

pub fn curve_count(book: &[u8]) -> usize
    requires { 512 ≤ length book.now }
    ensures value { result ≡ curve_count book.now }
    ensures upper_bound { result < 65536 }
{
    u16_at(book, 8) as usize
}

pub fn trade_blocks(book: &[u8]) -> usize
    requires { 512 ≤ length book.now }
    ensures value { result ≡ trade_blocks book.now }
    ensures upper_bound { result < 65536 }
{
    u16_at(book, 10) as usize
}

// The currency of curve id k + 1; 0 where the book has no such curve.
fn currency_at(book: &[u8], k: usize) -> u64
    requires { (1 + curve_count book.now) * 512 ≤ length book.now }
    ensures { result ≡ currency_of (get_or (curve_blocks book.now) k []) }
{
    if curve_count(book) <= k {
        return 0;
    }
    curve_block::currency_of(block_at(book, 1 + k))
}

// What a record's rules know of the book's curves.
pub fn curves_of(book: &[u8]) -> Curves
    requires { (1 + curve_count book.now) * 512 ≤ length book.now }
    ensures { result ≡ curves_of book.now }
{
    let mut currency = [0u64; 8];
    for k in 0..8 {
        currency[k] = currency_at(book, k);
    }
    Curves {
        count: curve_count(book) as u64,
        currency,
    }
}

pub fn trade_count(book: &[u8]) -> usize
    requires { (1 + curve_count book.now + trade_blocks book.now) * 512 ≤ length book.now }
    ensures { result ≡ trade_count book.now }
{
    let blocks = trade_blocks(book);
    if blocks == 0 {
        return 0;
    }
    let last = block_at(book, curve_count(book) + blocks);
    (blocks - 1) * 9 + record_count(last)
}

// The record at a position from 0, by value.
pub fn record_at(book: &[u8], i: usize) -> [u8; 56]
    requires { (1 + curve_count book.now + i / 9) * 512 + 512 ≤ length book.now }
    ensures { result ≡ record_at book.now i }
{
    let b = block_at(book, 1 + curve_count(book) + i / 9);
    let mut r = [0u8; 56];
    copy_in(&mut r, 0, record_in(b, i % 9));
    r
}
