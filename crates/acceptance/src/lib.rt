// Whether a book is accepted: the check of the whole, with the current day or without.
#![tactic(auto)]

ghost use Rattle.std.specs.Prelude.{◌≡◌};
ghost use Rattle.acceptance.specs.Verdict.{breaks_valuation_day, book_verdict};

use book::blocks_verdict;
use book::parts::valuation_day;
use ground::{Ground, Refusal, refuse_if};

// Ground 19, of a book's valuation day and the current day where an entry is given one, both in days since 1 January 2000.
#[tactic(auto, unfolding(crate::specs::Verdict::breaks_valuation_day))]
fn breaks_valuation_day(day: u64, today: Option<u64>) -> bool
    ensures { result ≡ breaks_valuation_day day today }
{
    match today {
        Some(given) => day != given,
        None => false,
    }
}

// The verdict on a lent book and its used length: its blocks first, then 19. Takes every input.
#[tactic(auto, unfolding(crate::specs::Verdict::book_verdict))]
pub fn check(book: &[u8], used: usize, today: Option<u64>) -> Result<(), Refusal>
    ensures { result ≡ book_verdict book.now used today }
{
    blocks_verdict(book, used)?;
    refuse_if(
        breaks_valuation_day(valuation_day(book), today),
        Ground::ValuationDay,
        0,
    )
}
