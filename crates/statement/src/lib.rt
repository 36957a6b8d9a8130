// The statement entry: from a book to its page.
#![tactic(auto)]

ghost use Rattle.std.specs.Prelude.{◌≡◌, ◌+◌, ◌≤◌, length, Ok};
ghost use Rattle.ground.specs.Verdicts.{or_else, bytes_after};
ghost use Rattle.book.specs.Parts.{records};
ghost use Rattle.book.specs.Verdict.{StartsWithBook};
ghost use Rattle.report.specs.Entry.{margin_in};
ghost use Rattle.text.specs.Text.{lines_of, in_front, TextWritten};
ghost use Rattle.page.specs.Line.{record_line};
ghost use Rattle.statement.specs.Entry.{page_of, page_verdict, statement_answer, statement_bytes};

use book::parts;
use ground::{Ground, Refusal, breaks_space, refuse_if};
use margin::Margin;

// The lines of the trades of an accepted book, from a place on, and the place behind them.
fn put_trades(book: &[u8], out: &mut [u8], at: usize) -> usize
    requires starts_with_book { StartsWithBook book.now }
    requires room { at + length (lines_of record_line 0 (records book.now)) ≤ length out.old }
    ensures { TextWritten out.old at (lines_of record_line 0 (records book.now)) out.new result }
{
    let mut next = at;
    for i in 0..parts::trade_count(book) {
        let r = parts::record_at(book, i);
        next = page::line::put_trade(out, next, i as u64, record::bytes::fields_of(&r));
    }
    next
}

// Writes the page of an accepted book with this margin into the first bytes of a space that holds it, and answers its length.
fn write_page(book: &[u8], m: Margin, out: &mut [u8]) -> usize
    requires starts_with_book { StartsWithBook book.now × (m ≡ margin_in book.now) }
    requires room { length (page_of book.now) ≤ length out.old }
    ensures value { result ≡ length (page_of book.now) }
    ensures out_after { out.new ≡ in_front (page_of book.now) out.old }
{
    let count = parts::curve_count(book);
    let first = page::line::put_title(out, 0, m.account);
    let second = put_trades(book, out, first);
    let third = page::put_curves(out, second, m.curves, count);
    page::put_currencies(out, third, m.curves, count, m.currencies)
}

// Writes the page of an accepted book, where there is space for it.
fn fill_page(book: &[u8], out: &mut [u8]) -> Result<usize, Refusal>
    requires { StartsWithBook book.now }
    ensures value { result ≡ or_else (page_verdict book.now (length out.old)) (Ok (length (page_of book.now))) }
    ensures out_after { out.new ≡ bytes_after (page_verdict book.now (length out.old)) out.old (in_front (page_of book.now) out.old) }
{
    let m = report::margin_of_book(book);
    let needed = page::page_length(parts::trade_count(book), m.curves, parts::curve_count(book));
    refuse_if(breaks_space(needed, out.len()), Ground::ReportSpace, 0)?;
    Ok(write_page(book, m, out))
}

// Writes the page of a book, or answers the first ground that applies and writes nothing, given the current day. Takes every input.
pub fn statement(book: &[u8], used: usize, day: u64, out: &mut [u8]) -> Result<usize, Refusal>
    ensures value { result ≡ statement_answer book.now used day (length out.old) }
    ensures out_after { out.new ≡ statement_bytes book.now used day out.old }
{
    acceptance::check(book, used, Some(day))?;
    fill_page(book, out)
}
