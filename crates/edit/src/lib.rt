// Reading, appending and striking records of a book. First it is decided whether a call is refused, from the bytes as they are; then it is
// done. A refusal writes nothing.
#![tactic(auto)]

pub mod refusals;

ghost use Rattle.std.specs.Prelude.{◌≡◌, ◌++◌, ◌-◌, ◌<◌, length, drop, replicate};
ghost use Rattle.book.specs.Parts.{trade_count};
ghost use Rattle.book.specs.Verdict.{blocks_verdict};
ghost use Rattle.edit.specs.Refusals.{new_record_verdict};
ghost use Rattle.edit.specs.Edits.{found, appended_book, append_answer, appended, struck_book, strike_answer, struck};

use book::parts::{curve_count, record_at, trade_count};
use ground::Refusal;
use trade_edit::{blocks, steps};

// The record at a position from 0.
#[tactic(auto, unfolding(crate::specs::Edits::found), using(crate::proofs::Size::checked))]
pub fn read(book: &[u8], used: usize, position: usize) -> Result<[u8; 56], Refusal>
    ensures { result ≡ found book.now used position }
{
    refusals::position_verdict(book, used, None, position)?;
    Ok(record_at(book, position))
}

// Adds a record behind the last of a book that takes it: in the last block, or in a new one if that is full or there is none.
#[tactic(auto, using(crate::proofs::Size::checked))]
pub fn add(book: &mut [u8], used: usize, r: [u8; 56]) -> usize
    requires { (blocks_verdict book.old used ≡ Ok tt) × (new_record_verdict book.old used r ≡ Ok tt) }
    ensures value { result ≡ length (appended_book book.old r) }
    ensures book_after { book.new ≡ appended_book book.old r ++ drop (length (appended_book book.old r)) book.old }
{
    let place = trade_count(&book[..]) % 9;
    if place == 0 {
        steps::grow(book, used, r);
        return used + 512;
    }
    blocks::put_record(&mut book[used - 512..used], place, r);
    used
}

// Appends a record to the book of a used length, given the current day. The answer is the new used length.
#[tactic(auto, unfolding(crate::specs::Edits::append_answer, crate::specs::Edits::appended), using(crate::proofs::Size::checked))]
pub fn append(book: &mut [u8], used: usize, day: u64, r: [u8; 56]) -> Result<usize, Refusal>
    ensures value { result ≡ append_answer book.old used day r }
    ensures book_after { book.new ≡ appended book.old used day r }
{
    refusals::append_verdict(&book[..], used, day, r)?;
    Ok(add(book, used, r))
}

// Takes the record at a position out of a book that has it.
#[tactic(auto, using(crate::proofs::Size::checked))]
fn remove(book: &mut [u8], used: usize, position: usize) -> usize
    requires { (blocks_verdict book.old used ≡ Ok tt) × (position < trade_count book.old) }
    ensures value { result ≡ length (struck_book book.old position) }
    ensures book_after { book.new ≡ struck_book book.old position ++ replicate (used - length (struck_book book.old position)) 0 ++ drop used book.old }
{
    let left = trade_count(&book[..]) - 1;
    let first = 1 + curve_count(&book[..]);
    let end = first + left.div_ceil(9);
    steps::move_up(book, position, left);
    steps::cut_back(book, used, left);
    steps::seal_blocks(book, first + position / 9, end);
    end * 512
}

// Strikes the record at a position from the book of a used length, given the current day. The answer is the new used length.
#[tactic(auto, unfolding(crate::specs::Edits::strike_answer, crate::specs::Edits::struck), using(crate::proofs::Size::checked))]
pub fn strike(book: &mut [u8], used: usize, day: u64, position: usize) -> Result<usize, Refusal>
    ensures value { result ≡ strike_answer book.old used day position }
    ensures book_after { book.new ≡ struck book.old used day position }
{
    refusals::position_verdict(&book[..], used, Some(day), position)?;
    Ok(remove(book, used, position))
}
