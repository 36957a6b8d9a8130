// The verdict on a block, by its place.
ghost use Rattle.std.specs.Prelude.{◌≡◌, ◌+◌, ◌*◌, ◌≤◌, length};
ghost use Rattle.book.specs.Parts.{curves_of, record_count};
ghost use Rattle.book.specs.Verdict.{header_verdict, records_verdict, trades_verdict, block_verdict};

use crate::parts::{block_at, record_count, record_in};
use crate::rules::{breaks_header, breaks_trade_block};
use curve_block::rules::curve_verdict;
use flows::verdict::record_verdict;
use ground::{Ground, Refusal, refuse_if};
use layout::check::{Kind, breaks_check, breaks_place};
use record::Curves;
use record::bytes::fields_of;

// The header of a book of so many blocks: grounds 2, 3 and 4.
#[tactic(auto, unfolding(crate::specs::Verdict::header_verdict))]
pub fn header_verdict(b: &[u8], blocks: usize) -> Result<(), Refusal>
    requires { length b.now ≡ 512 }
    ensures { result ≡ header_verdict b.now blocks }
{
    refuse_if(breaks_check(b), Ground::Check, 0)?;
    refuse_if(breaks_place(b, Kind::Header as u64, 0), Ground::Place, 0)?;
    refuse_if(breaks_header(b, blocks), Ground::Header, 0)
}

// The records of a block of trades, each by 8 to 12.
fn records_verdict(curves: Curves, b: &[u8], k: u64) -> Result<(), Refusal>
    requires { (length b.now ≡ 512) × (record_count b.now ≤ 9) }
    ensures { result ≡ records_verdict curves b.now k }
{
    for i in 0..record_count(b) {
        record_verdict(curves, fields_of(record_in(b, i)), k)?;
    }
    Ok(())
}

// A block of trades: grounds 2, 3 and 7, then its records.
#[tactic(auto, unfolding(crate::specs::Verdict::trades_verdict))]
fn trades_verdict(curves: Curves, b: &[u8], k: u64, last: bool) -> Result<(), Refusal>
    requires { length b.now ≡ 512 }
    ensures { result ≡ trades_verdict curves b.now k last }
{
    refuse_if(breaks_check(b), Ground::Check, k)?;
    refuse_if(breaks_place(b, Kind::Trades as u64, k), Ground::Place, k)?;
    refuse_if(breaks_trade_block(b, last), Ground::TradeBlock, k)?;
    records_verdict(curves, b, k)
}

// Block k behind the header, of n: a curve or trades.
pub fn block_verdict(book: &[u8], curves: Curves, n: usize, k: usize) -> Result<(), Refusal>
    requires place { (1 ≤ k) × ((k ≤ 128) × (k * 512 + 512 ≤ length book.now)) }
    requires curves_value { curves ≡ curves_of book.now }
    ensures { result ≡ block_verdict book.now n k }
{
    let b = block_at(book, k);
    let number = k as u64;
    if number <= curves.count {
        return curve_verdict(b, number);
    }
    trades_verdict(curves, b, number, k + 1 == n)
}
