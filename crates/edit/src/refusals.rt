// What refuses a read, an append or a strike.
ghost use Rattle.std.specs.Prelude.{◌≡◌, ◌+◌, ◌*◌, ◌≤◌, length};
ghost use Rattle.book.specs.Parts.{curve_count, trade_blocks};
ghost use Rattle.book.specs.Verdict.{blocks_verdict};
ghost use Rattle.edit.specs.Refusals.{breaks_position, breaks_book_space, position_verdict, new_record_verdict, append_verdict};

use book::parts::{curve_count, curves_of, trade_count};
use flows::verdict::record_verdict;
use ground::{Ground, Refusal, refuse_if};
use record::bytes::fields_of;

// Ground 14.
#[tactic(auto, unfolding(crate::specs::Refusals::breaks_position))]
fn breaks_position(book: &[u8], position: usize) -> bool
    requires { (1 + curve_count book.now + trade_blocks book.now) * 512 ≤ length book.now }
    ensures { result ≡ breaks_position book.now position }
{
    trade_count(book) <= position
}

// Ground 15.
#[tactic(auto, unfolding(crate::specs::Refusals::breaks_book_space))]
fn breaks_book_space(trades: usize, used: usize, lent: usize) -> bool
    requires { used ≤ 65536 }
    ensures { result ≡ breaks_book_space trades used lent }
{
    (trades % 9 == 0) & ((used / 512 == 128) | (lent < used + 512))
}

// A strike or a read: the whole-book check, then 14.
#[tactic(auto, unfolding(crate::specs::Refusals::position_verdict), using(crate::proofs::Size::checked))]
pub fn position_verdict(
    book: &[u8],
    used: usize,
    today: Option<u64>,
    position: usize,
) -> Result<(), Refusal>
    ensures { result ≡ position_verdict book.now used today position }
{
    acceptance::check(book, used, today)?;
    refuse_if(breaks_position(book, position), Ground::Position, 0)
}

// A new record of an accepted book: 8 to 12, of the block that it would take, then 15.
#[tactic(auto, unfolding(crate::specs::Refusals::new_record_verdict), using(crate::proofs::Size::checked))]
fn new_record_verdict(book: &[u8], used: usize, r: [u8; 56]) -> Result<(), Refusal>
    requires { blocks_verdict book.now used ≡ Ok tt }
    ensures { result ≡ new_record_verdict book.now used r }
{
    let trades = trade_count(book);
    let number = (1 + curve_count(book) + trades / 9) as u64;
    record_verdict(curves_of(book), fields_of(&r), number)?;
    refuse_if(
        breaks_book_space(trades, used, book.len()),
        Ground::BookSpace,
        0,
    )
}

// An append: the whole-book check, then the new record's grounds.
#[tactic(auto, unfolding(crate::specs::Refusals::append_verdict), using(crate::proofs::Size::checked))]
pub fn append_verdict(book: &[u8], used: usize, day: u64, r: [u8; 56]) -> Result<(), Refusal>
    ensures { result ≡ append_verdict book.now used day r }
{
    acceptance::check(book, used, Some(day))?;
    new_record_verdict(book, used, r)
}
