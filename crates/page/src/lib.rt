// The lines of the account statement, written into lent bytes: here those that show a margin, of curves and of currencies, and the length of a page.
// Each function writes from a place on and answers the place behind what it wrote.
#![tactic(auto)]

pub mod line;

ghost use Rattle.std.specs.Prelude.{◌≡◌, ◌+◌, ◌*◌, ◌≤◌, length, take};
ghost use mathlib.Core.List.{[], ◌∷◌, flat_map};
ghost use Rattle.text.specs.Text.{lines_of, TextWritten};
ghost use Rattle.text.specs.Columns.{amount_column};
ghost use Rattle.page.specs.Page.{curve_left, curve_line, currency_line, currency_part_of, currency_count, page_length};
ghost use Rattle.page.specs.Limits.{CurveLineLimits, CurveLinesLimits, CurrencyLinesLimits};

use margin::margins::has_currency;
use margin::{CurrencyMargin, CurveMargin};
use text::columns::{put_amount, put_blanks};
use text::{put_currency, put_digits, put_letters, put_number, put_text};

// Three amounts, each in its columns.
fn put_amounts(out: &mut [u8], at: usize, first: i64, second: i64, third: i64) -> usize
    requires { at + 66 ≤ length out.old }
    ensures text_written { TextWritten out.old at (flat_map amount_column (first ∷ second ∷ third ∷ [])) out.new result }
    ensures value { result ≡ at + 66 }
{
    let next = put_amount(out, at, first);
    let last = put_amount(out, next, second);
    put_amount(out, last, third)
}

#[tactic(auto, using(crate::proofs::LineLengths::places))]
fn put_curve_left(out: &mut [u8], at: usize, id: u64, m: CurveMargin) -> usize
    requires { (at + 81 ≤ length out.old) × ((id ≤ 8) × CurveLineLimits m) }
    ensures text_written { TextWritten out.old at (curve_left id m) out.new result }
    ensures upper_bound { result ≤ at + 14 }
{
    let scenario = put_digits(out, at, id);
    let currency = put_number(out, scenario, b" ", m.scenario);
    put_currency(out, currency, b" ", m.currency)
}

// The line of a curve.
fn put_curve(out: &mut [u8], at: usize, id: u64, m: CurveMargin) -> usize
    requires { (at + 81 ≤ length out.old) × ((id ≤ 8) × CurveLineLimits m) }
    ensures { TextWritten out.old at (curve_line id m) out.new result }
{
    let left = put_curve_left(out, at, id, m);
    let base = put_blanks(out, left, at + 14 - left);
    let end = put_amounts(out, base, m.base, m.worstloss, m.tolerance as i64);
    put_text(out, end, b"\n")
}

// The line of a currency.
fn put_currency_line(out: &mut [u8], at: usize, currency: u64, m: CurrencyMargin) -> usize
    requires { at + 81 ≤ length out.old }
    ensures { TextWritten out.old at (currency_line currency m) out.new result }
{
    let left = put_letters(out, at, currency);
    let initial = put_blanks(out, left, 11);
    let end = put_amounts(out, initial, m.initial, m.variation, m.total);
    put_text(out, end, b"\n")
}

// The lines of the first count curves. This and put_currencies stay two, as in listing: a trait for their lines is longer than these loops.
pub fn put_curves(out: &mut [u8], at: usize, curves: [CurveMargin; 8], count: usize) -> usize
    requires { CurveLinesLimits count curves × (at + length (lines_of curve_line 1 (take count curves)) ≤ length out.old) }
    ensures { TextWritten out.old at (lines_of curve_line 1 (take count curves)) out.new result }
{
    let mut next = at;
    for (i, m) in curves[..count].iter().enumerate() {
        next = put_curve(out, next, i as u64 + 1, *m);
    }
    next
}

// The lines of the currencies that a curve has.
pub fn put_currencies(
    out: &mut [u8],
    at: usize,
    curves: [CurveMargin; 8],
    count: usize,
    currencies: [CurrencyMargin; 3],
) -> usize
    requires count_bound { (count ≤ 8) × CurrencyLinesLimits currencies }
    requires currencies_in_bounds { at + length (lines_of (currency_part_of (take count curves)) 1 currencies) ≤ length out.old }
    ensures { TextWritten out.old at (lines_of (currency_part_of (take count curves)) 1 currencies) out.new result }
{
    let mut next = at;
    for (i, m) in currencies.iter().enumerate() {
        let currency = i as u64 + 1;
        if has_currency(curves, count, currency) {
            next = put_currency_line(out, next, currency, *m);
        }
    }
    next
}

// How many currencies the first count curves have.
fn currency_count(curves: [CurveMargin; 8], count: usize) -> usize
    requires { count ≤ 8 }
    ensures value { result ≡ currency_count (take count curves) }
    ensures upper_bound { result ≤ 3 }
{
    let lira = has_currency(curves, count, 1);
    let dollar = has_currency(curves, count, 2);
    let euro = has_currency(curves, count, 3);
    lira as usize + dollar as usize + euro as usize
}

// The length of the page of a book with so many trades.
pub fn page_length(trades: usize, curves: [CurveMargin; 8], count: usize) -> usize
    requires { (trades ≤ 1134) × (count ≤ 8) }
    ensures { result ≡ page_length trades count curves }
{
    81 * (1 + trades + count + currency_count(curves, count))
}
