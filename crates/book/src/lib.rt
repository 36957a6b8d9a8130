// A book: its parts, and the verdict on its blocks.
#![tactic(auto)]

mod blocks;
pub mod parts;
mod rules;

ghost use Rattle.std.specs.Prelude.{◌≡◌, ◌-◌, ◌*◌, ◌≤◌, length};
ghost use Rattle.book.specs.Parts.{curves_of};
ghost use Rattle.book.specs.Verdict.{first_of, block_verdict, blocks_verdict};

use ground::{Ground, Refusal, refuse_if};
use record::Curves;

// The first refusal of the blocks behind the header.
fn block_by_block(book: &[u8], curves: Curves, n: usize) -> Result<(), Refusal>
    requires n_bound { (n ≤ 128) × (n * 512 ≤ length book.now) }
    requires curves_value { curves ≡ curves_of book.now }
    ensures { result ≡ first_of (block_verdict book.now n) 1 (n - 1) }
{
    for k in 1..n {
        blocks::block_verdict(book, curves, n, k)?;
    }
    Ok(())
}

// The verdict on a lent book's length and blocks, grounds 1 to 12: whatever is lent has an answer. The curves are looked at only once the header has
// said that they are there.
pub fn blocks_verdict(book: &[u8], used: usize) -> Result<(), Refusal>
    ensures { result ≡ blocks_verdict book.now used }
{
    refuse_if(rules::breaks_length(used, book.len()), Ground::Length, 0)?;
    let n = used / 512;
    blocks::header_verdict(parts::block_at(book, 0), n)?;
    block_by_block(book, parts::curves_of(book), n)
}
