// The text that the list program prints, written into lent bytes.
// Each function writes from a place on and answers the place behind what it wrote.
#![tactic(auto)]

ghost use Rattle.std.specs.Prelude.{◌≡◌, ◌++◌, ◌+◌, ◌*◌, ◌≤◌, length, take, drop};
ghost use Rattle.text.specs.Text.{lines_of, TextWritten};
ghost use Rattle.listing.specs.Listing.{curve_figures, curve_listed, currency_figures, currency_listed, currency_listed_in, listing, refused_line};

use margin::margins::has_currency;
use margin::{CurrencyMargin, CurveMargin, Margin};
use text::{put_currency, put_number, put_signed, put_text};

fn put_curve_figures(out: &mut [u8], at: usize, m: CurveMargin) -> usize
    requires { at + 113 ≤ length out.old }
    ensures text_written { TextWritten out.old at (curve_figures m) out.new result }
    ensures upper_bound { result ≤ at + 113 }
{
    let loss = put_signed(out, at, b" base ", m.base);
    let scenario = put_signed(out, loss, b" loss ", m.worstloss);
    let tolerance = put_number(out, scenario, b" scenario ", m.scenario);
    put_number(out, tolerance, b" tolerance ", m.tolerance)
}

fn put_curve_line(out: &mut [u8], at: usize, k: u64, m: CurveMargin) -> usize
    requires { at + 144 ≤ length out.old }
    ensures text_written { TextWritten out.old at (curve_listed k m) out.new result }
    ensures upper_bound { result ≤ at + 144 }
{
    let currency = put_number(out, at, b"curve ", k);
    let figures = put_currency(out, currency, b" ", m.currency);
    let end = put_curve_figures(out, figures, m);
    put_text(out, end, b"\n")
}

fn put_currency_figures(out: &mut [u8], at: usize, m: CurrencyMargin) -> usize
    requires { at + 87 ≤ length out.old }
    ensures text_written { TextWritten out.old at (currency_figures m) out.new result }
    ensures upper_bound { result ≤ at + 87 }
{
    let variation = put_signed(out, at, b" initial ", m.initial);
    let total = put_signed(out, variation, b" variation ", m.variation);
    put_signed(out, total, b" total ", m.total)
}

// The lines of the curves. This and put_currency_lines stay two: one generic needs a trait with a text and a room, longer than these loops.
fn put_curve_lines(out: &mut [u8], at: usize, curves: &[CurveMargin]) -> usize
    requires { at + 144 * length curves.now ≤ length out.old }
    ensures text_written { TextWritten out.old at (lines_of curve_listed 1 curves.now) out.new result }
    ensures upper_bound { result ≤ at + 144 * length curves.now }
{
    let mut next = at;
    for (i, m) in curves.iter().enumerate() {
        next = put_curve_line(out, next, i as u64 + 1, *m);
    }
    next
}

fn put_currency_line(out: &mut [u8], at: usize, currency: u64, m: CurrencyMargin) -> usize
    requires { at + 100 ≤ length out.old }
    ensures text_written { TextWritten out.old at (currency_listed currency m) out.new result }
    ensures upper_bound { result ≤ at + 100 }
{
    let figures = put_currency(out, at, b"currency ", currency);
    let end = put_currency_figures(out, figures, m);
    put_text(out, end, b"\n")
}

// The lines of the currencies that a curve has.
fn put_currency_lines(
    out: &mut [u8],
    at: usize,
    curves: [CurveMargin; 8],
    count: usize,
    currencies: [CurrencyMargin; 3],
) -> usize
    requires { (count ≤ 8) × (at + 300 ≤ length out.old) }
    ensures text_written { TextWritten out.old at (lines_of (currency_listed_in (take count curves)) 1 currencies) out.new result }
    ensures upper_bound { result ≤ at + 300 }
{
    let mut next = at;
    for (i, m) in currencies.iter().enumerate() {
        let currency = i as u64 + 1;
        if has_currency(curves, count, currency) {
            next = put_currency_line(out, next, currency, *m);
        }
    }
    next
}

// The text of an accepted book of so many curves. 29 bytes hold the account's line, 144 a curve's, 100 a currency's.
pub fn write_listing(out: &mut [u8], count: usize, m: Margin) -> usize
    requires { (count ≤ 8) × (1481 ≤ length out.old) }
    ensures value { result ≡ length (listing count m) }
    ensures out_after { out.new ≡ listing count m ++ drop result out.old }
    ensures upper_bound { result ≤ 1481 }
{
    let end = put_number(out, 0, b"account ", m.account);
    let first = put_text(out, end, b"\n");
    let second = put_curve_lines(out, first, &m.curves[..count]);
    put_currency_lines(out, second, m.curves, count, m.currencies)
}

// The text of a refused book.
pub fn write_refused(out: &mut [u8], number: u64, block: u64) -> usize
    requires { 50 ≤ length out.old }
    ensures value { result ≡ length (refused_line number block) }
    ensures out_after { out.new ≡ refused_line number block ++ drop result out.old }
    ensures upper_bound { result ≤ 50 }
{
    let next = put_number(out, 0, b"refused ", number);
    let end = put_number(out, next, b" ", block);
    put_text(out, end, b"\n")
}
