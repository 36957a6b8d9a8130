// Words and numbers written into lent bytes.
// Each function writes from a place on and answers the place behind what it wrote.
#![tactic(auto)]

pub mod columns;

ghost use Rattle.std.specs.Prelude.{◌≡◌, ◌++◌, ◌+◌, ◌≤◌, nat_abs, length};
ghost use Rattle.text.specs.Text.{decimal_of, signed_text, letters, TextWritten};

use layout::copy_in;

pub fn put_text(out: &mut [u8], at: usize, text: &[u8]) -> usize
    requires { at + length text.now ≤ length out.old }
    ensures { TextWritten out.old at text.now out.new result }
{
    copy_in(out, at, text);
    at + text.len()
}

// How many digits a number has.
fn digit_count(n: u64) -> usize
    ensures { result ≡ length (decimal_of n) }
{
    n.max(1).ilog10() as usize + 1
}

// A number of so many digits, from the last to the first.
fn put_counted(out: &mut [u8], at: usize, count: usize, n: u64) -> usize
    requires { (count ≡ length (decimal_of n)) × (at + count ≤ length out.old) }
    ensures { TextWritten out.old at (decimal_of n) out.new result }
{
    let end = at + count;
    let mut rest = n;
    for place in (at..end).rev() {
        out[place] = b'0' + (rest % 10) as u8;
        rest /= 10;
    }
    end
}

pub fn put_digits(out: &mut [u8], at: usize, n: u64) -> usize
    requires { at + length (decimal_of n) ≤ length out.old }
    ensures { TextWritten out.old at (decimal_of n) out.new result }
{
    put_counted(out, at, digit_count(n), n)
}

// Without its sign, and with the bound that its digits need.
pub fn size_of(v: i64) -> u64
    ensures value { result ≡ nat_abs v }
    ensures upper_bound { result ≤ 9223372036854775808 }
{
    v.unsigned_abs()
}

#[tactic(auto, using(crate::proofs::Amounts::lengths))]
pub fn put_integer(out: &mut [u8], at: usize, v: i64) -> usize
    requires { at + 20 ≤ length out.old }
    ensures text_written { TextWritten out.old at (signed_text v) out.new result }
    ensures upper_bound { result ≤ at + 20 }
{
    let size = size_of(v);
    if v < 0 {
        out[at] = b'-';
        return put_digits(out, at + 1, size);
    }
    put_digits(out, at, size)
}

// A word, and behind it a number. This, put_signed and put_currency stay three: a trait for what may follow is longer than the calls it joins.
#[tactic(auto, using(crate::proofs::Amounts::lengths))]
pub fn put_number(out: &mut [u8], at: usize, word: &[u8], n: u64) -> usize
    requires { at + length word.now + 20 ≤ length out.old }
    ensures text_written { TextWritten out.old at (word.now ++ decimal_of n) out.new result }
    ensures upper_bound { result ≤ at + length word.now + 20 }
{
    let from = put_text(out, at, word);
    put_digits(out, from, n)
}

pub fn put_signed(out: &mut [u8], at: usize, word: &[u8], v: i64) -> usize
    requires { at + length word.now + 20 ≤ length out.old }
    ensures text_written { TextWritten out.old at (word.now ++ signed_text v) out.new result }
    ensures upper_bound { result ≤ at + length word.now + 20 }
{
    let from = put_text(out, at, word);
    put_integer(out, from, v)
}

#[tactic(auto, unfolding(crate::specs::Text::letters, crate::specs::Text::ascii))]
fn letters_of(currency: u64) -> [u8; 3]
    ensures { result ≡ letters currency }
{
    match currency {
        1 => *b"TRY",
        2 => *b"USD",
        3 => *b"EUR",
        _ => *b"???",
    }
}

// A currency stays a number, as in the bytes of a book: `letters` is said of every number.
pub fn put_letters(out: &mut [u8], at: usize, currency: u64) -> usize
    requires { at + 3 ≤ length out.old }
    ensures text_written { TextWritten out.old at (letters currency) out.new result }
    ensures value { result ≡ at + 3 }
{
    put_text(out, at, &letters_of(currency))
}

// A word and a currency.
pub fn put_currency(out: &mut [u8], at: usize, word: &[u8], currency: u64) -> usize
    requires { at + length word.now + 3 ≤ length out.old }
    ensures text_written { TextWritten out.old at (word.now ++ letters currency) out.new result }
    ensures value { result ≡ at + length word.now + 3 }
{
    let from = put_text(out, at, word);
    put_letters(out, from, currency)
}
