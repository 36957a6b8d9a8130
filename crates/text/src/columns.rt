// Blanks, and amounts in columns.
ghost use Rattle.std.specs.Prelude.{◌≡◌, ◌+◌, ◌/◌, ◌≤◌, length};
ghost use Rattle.text.specs.Text.{decimal_of, TextWritten};
ghost use Rattle.text.specs.Columns.{blanks, money_text, right_aligned, amount_column};

use crate::{digit_count, put_counted, size_of};

pub fn put_blanks(out: &mut [u8], at: usize, n: usize) -> usize
    requires { at + n ≤ length out.old }
    ensures { TextWritten out.old at (blanks n) out.new result }
{
    let end = at + n;
    out[at..end].fill(b' ');
    end
}

// Kuruş as lira and kuruş, the lira of so many digits.
#[tactic(auto, using(crate::proofs::Amounts::lengths))]
fn put_money(out: &mut [u8], at: usize, count: usize, n: u64) -> usize
    requires { (count ≡ length (decimal_of (n / 100))) × (at + length (money_text n) ≤ length out.old) }
    ensures { TextWritten out.old at (money_text n) out.new result }
{
    let point = put_counted(out, at, count, n / 100);
    let tens = point + 1;
    out[point] = b'.';
    out[tens] = b'0' + (n / 10 % 10) as u8;
    out[tens + 1] = b'0' + (n % 10) as u8;
    tens + 2
}

// An amount, right-aligned in 22 columns or more: of 63 bits it has at most 17 digits before the point, and with its minus 21 characters.
#[tactic(auto, using(crate::proofs::Amounts::lengths))]
pub fn put_right_aligned(out: &mut [u8], at: usize, width: usize, v: i64) -> usize
    requires { (22 ≤ width) × (at + width ≤ length out.old) }
    ensures text_written { TextWritten out.old at (right_aligned width v) out.new result }
    ensures value { result ≡ at + width }
{
    let size = size_of(v);
    let digits = digit_count(size / 100);
    if v < 0 {
        let minus = put_blanks(out, at, width - 4 - digits);
        out[minus] = b'-';
        return put_money(out, minus + 1, digits, size);
    }
    let first = put_blanks(out, at, width - 3 - digits);
    put_money(out, first, digits, size)
}

// An amount in its columns.
pub fn put_amount(out: &mut [u8], at: usize, v: i64) -> usize
    requires { at + 22 ≤ length out.old }
    ensures text_written { TextWritten out.old at (amount_column v) out.new result }
    ensures value { result ≡ at + 22 }
{
    put_right_aligned(out, at, 22, v)
}
