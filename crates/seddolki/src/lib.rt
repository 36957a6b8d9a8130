// The engine's calls from C. Each takes whatever it is lent: it promises its answer, and every lent byte afterwards. The day is the current one,
// in days since 1 January 2000.
#![tactic(auto)]

mod answers;

ghost use Rattle.std.specs.Prelude.{◌≡◌, length, None};
ghost use Rattle.acceptance.specs.Verdict.{book_verdict};
ghost use Rattle.bootstrap.specs.Bootstrap.{bootstrapped};
ghost use Rattle.bootstrap.specs.Bought.{quote_of};
ghost use Rattle.bootstrap.specs.Refusals.{bootstrap_verdict};
ghost use Rattle.discount.specs.Valued.{valued_of};
ghost use Rattle.edit.specs.Edits.{record_found, found, append_answer, appended, strike_answer, struck};
ghost use Rattle.preview.specs.Preview.{preview_verdict, preview_bytes};
ghost use Rattle.report.specs.Bounded.{Bounded};
ghost use Rattle.report.specs.Entry.{margin_verdict, margin_bytes};
ghost use Rattle.statement.specs.Entry.{statement_answer, statement_bytes};
ghost use Rattle.seddolki.specs.Answers.{verdict_answer, written_answer, valued_answer, valued_tolerance};
ghost use Rattle.seddolki.specs.Version.{version};

use answers::done_answer;
use bootstrap::Quote;

// Number 0 is done, and the value is the result; any other number is the ground of refusal, and the value is the block.
#[repr(C)]
#[derive(Clone, Copy)]
pub struct Answer {
    pub number: u64,
    pub value: u64,
}

// The version of the archive, which links with a header of any other.
#[unsafe(no_mangle)]
pub extern "C" fn seddolki_version() -> u64
    ensures { result ≡ version }
{
    7
}

// The check of a whole book; it is given no day.
#[unsafe(no_mangle)]
pub extern "C" fn seddolki_check(book: &[u8], used: usize) -> Answer
    ensures { result ≡ verdict_answer (book_verdict book.now used None) }
{
    acceptance::check(book, used, None).into()
}

// Writes the report of a book's margin into the first 512 bytes of the report space; a refused call writes nothing.
#[unsafe(no_mangle)]
pub extern "C" fn seddolki_margin(book: &[u8], used: usize, day: u32, report: &mut [u8]) -> Answer
    ensures value { result ≡ verdict_answer (margin_verdict book.now used day (length report.old)) }
    ensures report_after { report.new ≡ margin_bytes book.now used day report.old }
    ensures bounded { result.number ≡ 0 → Bounded book.now report.new }
{
    report::margin(book, used, u64::from(day), report).into()
}

// Writes the page of a book into the first bytes of the space lent for it; the value is its length. A refused call writes nothing.
#[unsafe(no_mangle)]
pub extern "C" fn seddolki_statement(book: &[u8], used: usize, day: u32, page: &mut [u8]) -> Answer
    ensures value { result ≡ written_answer (statement_answer book.now used day (length page.old)) }
    ensures page_after { page.new ≡ statement_bytes book.now used day page.old }
{
    statement::statement(book, used, u64::from(day), page).into()
}

// Writes the report of a book's margin as it would be after the append of a record; the book is not written.
#[unsafe(no_mangle)]
pub extern "C" fn seddolki_preview(
    book: &[u8],
    used: usize,
    day: u32,
    record: &[u8; 56],
    report: &mut [u8],
) -> Answer
    ensures value { result ≡ verdict_answer (preview_verdict book.now used day «record».now (length report.old)) }
    ensures report_after { report.new ≡ preview_bytes book.now used day «record».now report.old }
    ensures bounded { result.number ≡ 0 → Bounded (appended book.now used day «record».now) report.new }
{
    preview::preview(book, used, u64::from(day), *record, report).into()
}

// Appends a record; the value is the new used length.
#[unsafe(no_mangle)]
pub extern "C" fn seddolki_append(
    book: &mut [u8],
    used: usize,
    day: u32,
    record: &[u8; 56],
) -> Answer
    ensures value { result ≡ written_answer (append_answer book.old used day «record».now) }
    ensures book_after { book.new ≡ appended book.old used day «record».now }
{
    edit::append(book, used, u64::from(day), *record).into()
}

// Strikes the record at a position; the value is the new used length.
#[unsafe(no_mangle)]
pub extern "C" fn seddolki_strike(book: &mut [u8], used: usize, day: u32, position: usize) -> Answer
    ensures value { result ≡ written_answer (strike_answer book.old used day position) }
    ensures book_after { book.new ≡ struck book.old used day position }
{
    edit::strike(book, used, u64::from(day), position).into()
}

// What a desk gives, its components as numbers of 64 bits.
fn quote_of(curve: usize, bond: [u8; 20], cash: u64, first: i32, second: i32, third: i32) -> Quote
    ensures { result ≡ quote_of curve bond cash first second third }
{
    Quote {
        curve,
        bond,
        cash,
        first: i64::from(first),
        second: i64::from(second),
        third: i64::from(third),
    }
}

// Extends a curve from a coupon bond's price: adds a node on the bond's last payment day. The bond is bytes 12 to 31 of a record.
#[unsafe(no_mangle)]
pub extern "C" fn seddolki_bootstrap(
    book: &mut [u8],
    used: usize,
    day: u32,
    curve: usize,
    bond: &[u8; 20],
    cash: u64,
    first: i32,
    second: i32,
    third: i32,
) -> Answer
    ensures value { result ≡ verdict_answer (bootstrap_verdict book.old used day (quote_of curve bond.now cash first second third)) }
    ensures book_after { book.new ≡ bootstrapped book.old used day (quote_of curve bond.now cash first second third) }
{
    let quote = quote_of(curve, *bond, cash, first, second, third);
    bootstrap::bootstrap(book, used, u64::from(day), quote).into()
}

// Reads the record at a position; a refused call writes zeros.
#[unsafe(no_mangle)]
pub extern "C" fn seddolki_read(
    book: &[u8],
    used: usize,
    position: usize,
    record: &mut [u8; 56],
) -> Answer
    ensures value { result ≡ verdict_answer (found book.now used position) }
    ensures record_after { «record».new ≡ record_found (found book.now used position) }
{
    match reader::read_at(book, used, position) {
        Ok(bytes) => {
            *record = bytes;
            done_answer(0)
        }
        Err(refusal) => {
            *record = [0; 56];
            refusal.into()
        }
    }
}

// One present value and its tolerance; a refused call writes 0 as the tolerance.
#[unsafe(no_mangle)]
pub extern "C" fn seddolki_present_value(
    amount: u64,
    rate: u64,
    day: u64,
    tolerance: &mut u64,
) -> Answer
    ensures value { result ≡ valued_answer (valued_of amount rate day) }
    ensures tolerance_after { tolerance.new ≡ valued_tolerance (valued_of amount rate day) }
{
    match discount::entry::value(amount, rate, day) {
        Ok(worth) => {
            *tolerance = worth.tolerance;
            done_answer(worth.value)
        }
        Err(refusal) => {
            *tolerance = 0;
            refusal.into()
        }
    }
}
