// The preview entry: the report of a book as it would be with one more trade. The trade is added to a copy.
#![tactic(auto)]

ghost use Rattle.std.specs.Prelude.{◌≡◌, length};
ghost use Rattle.edit.specs.Edits.{appended};
ghost use Rattle.report.specs.Bounded.{Bounded};
ghost use Rattle.preview.specs.Preview.{preview_verdict, preview_bytes};

use ground::Refusal;
use layout::copy_in;

// Writes the report of a book's margin as it would be after the append of a record, or answers the first ground that applies, append's
// first, and writes nothing, given the current day. The book is not written: the copy has room for the largest. Takes every input.
#[tactic(auto, unfolding(crate::specs::Preview::preview_verdict, crate::specs::Preview::preview_bytes), using(edit::proofs::Size::checked))]
pub fn preview(
    book: &[u8],
    used: usize,
    day: u64,
    r: [u8; 56],
    out: &mut [u8],
) -> Result<(), Refusal>
    ensures value { result ≡ preview_verdict book.now used day r (length out.old) }
    ensures out_after { out.new ≡ preview_bytes book.now used day r out.old }
    ensures bounded { result ≡ Ok tt → Bounded (appended book.now used day r) out.new }
{
    edit::refusals::append_verdict(book, used, day, r)?;
    let mut copy = [0u8; 65536];
    copy_in(&mut copy, 0, &book[..used]);
    edit::add(&mut copy, used, r);
    report::fill_report(&copy, out)
}
