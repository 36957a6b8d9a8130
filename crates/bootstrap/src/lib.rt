// Extending a curve of a book from a coupon bond's price. First it is decided, from the bytes as they are, whether the call is refused and which
// node is added; then the curve's block is written. A refusal writes nothing.
#![tactic(auto)]

mod bought;
mod decide;
mod refusals;

ghost use Rattle.std.specs.Prelude.{◌≡◌};
ghost use Rattle.bootstrap.specs.Refusals.{bootstrap_verdict};
ghost use Rattle.bootstrap.specs.Bootstrap.{bootstrapped};

use ground::Refusal;

// What a desk gives: the curve's id, the bond (bytes 12 to 31 of a record), its settlement cash today, and the components of the new node.
#[derive(Clone, Copy)]
pub struct Quote {
    pub curve: usize,
    pub bond: [u8; 20],
    pub cash: u64,
    pub first: i64,
    pub second: i64,
    pub third: i64,
}

// Adds a node to the curve on the bond's last payment day, or answers the first ground that applies, given the current day. Takes every input.
#[tactic(auto, unfolding(crate::specs::Bootstrap::bootstrapped), using(crate::proofs::Added::curve_lent))]
pub fn bootstrap(book: &mut [u8], used: usize, day: u64, q: Quote) -> Result<(), Refusal>
    ensures value { result ≡ bootstrap_verdict book.old used day q }
    ensures book_after { book.new ≡ bootstrapped book.old used day q }
{
    let n = decide::decided(&book[..], used, day, q)?;
    let at = q.curve * 512;
    curve_edit::add_node(&mut book[at..at + 512], n);
    Ok(())
}
