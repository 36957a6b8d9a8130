// The lines of the account statement that need no margin, written into lent bytes: that of an account and that of a trade.
// Each function writes from a place on and answers the place behind what it wrote.
ghost use Rattle.std.specs.Prelude.{◌≡◌, ◌+◌, ◌≤◌, length};
ghost use Rattle.text.specs.Text.{TextWritten};
ghost use Rattle.page.specs.Line.{title_line, line_day, trade_left, trade_line};
ghost use Rattle.page.specs.LineLimits.{TradeLineLimits};

use record::Fields;
use record::rules::{has_security, last_payment_day};
use text::columns::{put_blanks, put_right_aligned};
use text::{put_digits, put_number, put_text};

// The line of an account: nothing stands behind its number.
pub fn put_title(out: &mut [u8], at: usize, account: u64) -> usize
    requires { at + 81 ≤ length out.old }
    ensures { TextWritten out.old at (title_line account) out.new result }
{
    let left = put_number(out, at, b"account ", account);
    let end = put_blanks(out, left, at + 80 - left);
    put_text(out, end, b"\n")
}

#[tactic(auto, unfolding(crate::specs::Line::line_day))]
fn line_day(f: Fields) -> u64
    requires { TradeLineLimits f }
    ensures { result ≡ line_day f }
{
    let days = f.days;
    let last = last_payment_day(days.first, days.period, days.payments);
    if has_security(f.form.security) {
        return last;
    }
    days.valueday2
}

#[tactic(auto, using(crate::proofs::LineLengths::places))]
fn put_trade_left(out: &mut [u8], at: usize, position: u64, f: Fields) -> usize
    requires { (at + 81 ≤ length out.old) × TradeLineLimits f }
    ensures text_written { TextWritten out.old at (trade_left position f) out.new result }
    ensures upper_bound { result ≤ at + 58 }
{
    let form = f.form;
    let kind = put_digits(out, at, position);
    let side = put_number(out, kind, b" ", form.kind);
    let day = put_number(out, side, b" ", form.side);
    put_number(out, day, b" ", line_day(f))
}

// The line of a trade.
pub fn put_trade(out: &mut [u8], at: usize, position: u64, f: Fields) -> usize
    requires { (at + 81 ≤ length out.old) × TradeLineLimits f }
    ensures { TextWritten out.old at (trade_line position f) out.new result }
{
    let left = put_trade_left(out, at, position, f);
    let end = put_right_aligned(out, left, at + 80 - left, f.amounts.nominal as i64);
    put_text(out, end, b"\n")
}
