// The rules of a book's length, of its header and of a block of trades.
ghost use Rattle.std.specs.Prelude.{◌≡◌, length};
ghost use Rattle.book.specs.Rules.{breaks_length, breaks_header, count_fits, breaks_trade_block};

use crate::parts::{curve_count, record_count, record_place, trade_blocks};
use layout::zeros;

// Ground 1.
#[tactic(auto, unfolding(crate::specs::Rules::breaks_length))]
pub fn breaks_length(used: usize, lent: usize) -> bool
    ensures { result ≡ breaks_length used lent }
{
    (used == 0) | (used % 512 != 0) | (65_536 < used) | (lent < used)
}

// Ground 4, in a book of so many blocks.
#[tactic(auto, unfolding(crate::specs::Rules::breaks_header))]
pub fn breaks_header(b: &[u8], blocks: usize) -> bool
    requires { length b.now ≡ 512 }
    ensures { result ≡ breaks_header b.now blocks }
{
    let curves = curve_count(b);
    let trades = trade_blocks(b);
    !((1 <= curves)
        & (curves <= 8)
        & (1 + curves + trades == blocks)
        & (b[1] == 0)
        & zeros(b, 16, 508))
}

#[tactic(auto, unfolding(crate::specs::Rules::count_fits))]
fn count_fits(n: usize, last: bool) -> bool
    ensures { result ≡ count_fits n last }
{
    (1 <= n) & (n <= 9) & (last | (n == 9))
}

// Ground 7.
#[tactic(auto, unfolding(crate::specs::Rules::breaks_trade_block))]
pub fn breaks_trade_block(b: &[u8], last: bool) -> bool
    requires { length b.now ≡ 512 }
    ensures { result ≡ breaks_trade_block b.now last }
{
    let n = record_count(b);
    !(count_fits(n, last) && zeros(b, record_place(n), 508))
}
