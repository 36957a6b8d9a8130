// The report of a margin, written as one block.
#![tactic(auto)]

ghost use Rattle.std.specs.Prelude.{◌≡◌, ◌+◌, ◌≤◌, length, drop};
ghost use mathlib.Core.List.{◌++◌, flat_map};
ghost use Rattle.layout.specs.Bytes.{put};
ghost use Rattle.report_block.specs.Report.{curve_bytes, currency_bytes, field_bytes, report_bytes};

use layout::check::{Kind, seal};
use layout::{put_le, put_signed};
use margin::{CurrencyMargin, CurveMargin, Margin};

fn put_curve(out: &mut [u8], at: usize, m: CurveMargin)
    requires { at + 32 ≤ length out.old }
    ensures { out.new ≡ put out.old at (curve_bytes m) }
{
    put_signed(out, at, 8, m.base);
    put_signed(out, at + 8, 8, m.worstloss);
    put_le(out, at + 16, 4, m.scenario);
    put_le(out, at + 20, 4, m.currency);
    put_le(out, at + 24, 8, m.tolerance);
}

fn put_currency(out: &mut [u8], at: usize, m: CurrencyMargin)
    requires { at + 24 ≤ length out.old }
    ensures { out.new ≡ put out.old at (currency_bytes m) }
{
    put_signed(out, at, 8, m.initial);
    put_signed(out, at + 8, 8, m.variation);
    put_signed(out, at + 16, 8, m.total);
}

// The curves' records, and below the currencies': a trait over both would be longer than the two loops.
fn put_curves(out: &mut [u8], curves: [CurveMargin; 8])
    requires { 512 ≤ length out.old }
    ensures { out.new ≡ put out.old 8 (flat_map curve_bytes curves) }
{
    for (i, m) in curves.iter().enumerate() {
        put_curve(out, 8 + 32 * i, *m);
    }
}

fn put_currencies(out: &mut [u8], currencies: [CurrencyMargin; 3])
    requires { 512 ≤ length out.old }
    ensures { out.new ≡ put out.old 264 (flat_map currency_bytes currencies) }
{
    for (i, m) in currencies.iter().enumerate() {
        put_currency(out, 264 + 24 * i, *m);
    }
}

// All but the check.
fn put_fields(out: &mut [u8], m: Margin)
    requires { 512 ≤ length out.old }
    ensures { out.new ≡ put out.old 0 (field_bytes m) }
{
    put_le(out, 0, 4, Kind::Report as u64);
    put_le(out, 4, 4, m.account);
    put_curves(out, m.curves);
    put_currencies(out, m.currencies);
    put_le(out, 336, 176, 0);
}

// Writes the report over the first 512 bytes; the bytes past it are kept.
pub fn write_report(out: &mut [u8], m: Margin)
    requires { 512 ≤ length out.old }
    ensures { out.new ≡ report_bytes m ++ drop 512 out.old }
{
    put_fields(out, m);
    seal(&mut out[0..512]);
}
