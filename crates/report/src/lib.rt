// The margin entry: from a book to its report.
#![tactic(auto)]

ghost use Rattle.std.specs.Prelude.{◌≡◌, ◌*◌, ◌≤◌, length};
ghost use Rattle.ground.specs.Verdicts.{bytes_after};
ghost use Rattle.book.specs.Parts.{curve_count, trade_count};
ghost use Rattle.book.specs.Verdict.{StartsWithBook};
ghost use Rattle.margin.specs.Margins.{curve_margin};
ghost use Rattle.exposure.specs.Exposures.{exposure_at};
ghost use Rattle.report.specs.Bounded.{Bounded};
ghost use Rattle.report.specs.Entry.{margin_in, report_verdict, margin_verdict, reported, margin_bytes};

use book::parts;
use ground::{Ground, Refusal, breaks_space, refuse_if};
use ladder::Position;
use margin::{CurveMargin, Margin};

// The figures of a curve of an accepted book, by way of its ladder, which has room for three legs of each trade.
fn curve_figures(book: &[u8], curve: usize, ladder: &mut [u64]) -> CurveMargin
    requires { StartsWithBook book.now × (1 ≤ curve) × (curve ≤ curve_count book.now) × (trade_count book.now * 18 ≤ length ladder.old) }
    ensures { result ≡ curve_margin (exposure_at book.now curve) }
{
    let id = curve as u64;
    let schedules = exposure::gather(book, id, ladder);
    let b = parts::block_at(book, curve);
    let position = Position {
        id,
        currency: curve_block::currency_of(b),
        curve: curve_block::curve_of(b),
        components: exposure::components_at(book, curve),
        schedules,
    };
    margin::margins::curve_margin(position, ladder)
}

// The margin of an accepted book, curve by curve in one ladder.
fn margin_with(book: &[u8], ladder: &mut [u64]) -> Margin
    requires { StartsWithBook book.now × (trade_count book.now * 18 ≤ length ladder.old) }
    ensures { result ≡ margin_in book.now }
{
    let count = parts::curve_count(book);
    let mut curves = [margin::margins::no_curve(); 8];
    for k in 0..count {
        curves[k] = curve_figures(book, k + 1, ladder);
    }
    margin::margins::margin_of(parts::account(book), curves, count)
}

// The margin of an accepted book. With one block of trades its ladder is short: less is cleared.
pub fn margin_of_book(book: &[u8]) -> Margin
    requires { StartsWithBook book.now }
    ensures { result ≡ margin_in book.now }
{
    if parts::trade_count(book) <= 9 {
        let mut few = [0u64; 162];
        return margin_with(book, &mut few);
    }
    let mut ladder = [0u64; 20412];
    margin_with(book, &mut ladder)
}

// Writes the report of an accepted book, where there is space for it.
pub fn fill_report(book: &[u8], out: &mut [u8]) -> Result<(), Refusal>
    requires { StartsWithBook book.now }
    ensures value { result ≡ report_verdict (length out.old) }
    ensures out_after { out.new ≡ bytes_after (report_verdict (length out.old)) out.old (reported book.now out.old) }
{
    refuse_if(ground::breaks_space(512, out.len()), Ground::ReportSpace, 0)?;
    report_block::write_report(out, margin_of_book(book));
    Ok(())
}

// Writes the report of a book's margin, or answers the first ground that applies and writes nothing, given the current day. Takes every input.
pub fn margin(book: &[u8], used: usize, day: u64, out: &mut [u8]) -> Result<(), Refusal>
    ensures value { result ≡ margin_verdict book.now used day (length out.old) }
    ensures out_after { out.new ≡ margin_bytes book.now used day out.old }
    ensures bounded { result ≡ Ok tt → Bounded book.now out.new }
{
    acceptance::check(book, used, Some(day))?;
    fill_report(book, out)
}
