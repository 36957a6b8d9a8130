// What the list program prints for a book.
ghost use Rattle.std.specs.Prelude.{◌≡◌, ◌++◌, ◌≤◌, length, drop};
ghost use Rattle.list.specs.Text.{list_text, list_answer, list_bytes};

use book::parts;
use ground::{Ground, Refusal, breaks_space, refuse_if};

// Writes the text into the first bytes of a space that suffices for any, and answers its length. Given its own day, a book is judged as
// without one.
fn put_listing(book: &[u8], used: usize, out: &mut [u8]) -> usize
    requires { 1481 ≤ length out.old }
    ensures value { result ≡ length (list_text book.now used) }
    ensures out_after { out.new ≡ list_text book.now used ++ drop result out.old }
    ensures upper_bound { result ≤ 1481 }
{
    match acceptance::check(book, used, None) {
        Ok(()) => {
            let m = report::margin_of_book(book);
            listing::write_listing(out, parts::curve_count(book), m)
        }
        Err(refusal) => listing::write_refused(out, u64::from(refusal.by), refusal.block),
    }
}

// Writes the text into the first bytes lent; the bytes past it are kept. Where it does not fit, nothing is written. Takes every input.
pub fn list_text(book: &[u8], used: usize, out: &mut [u8]) -> Result<usize, Refusal>
    ensures value { result ≡ list_answer book.now used (length out.old) }
    ensures out_after { out.new ≡ list_bytes book.now used out.old }
    ensures bound { length (list_text book.now used) ≤ 1481 }
{
    let mut text = [0u8; 1481];
    let n = put_listing(book, used, &mut text);
    refuse_if(breaks_space(n, out.len()), Ground::ReportSpace, 0)?;
    out[..n].copy_from_slice(&text[..n]);
    Ok(n)
}
