// Source document 004's own bootstrap (section 4.3), on a book of one curve: the curve is known to day 323, and a bond that pays 5 on day 170 and
// 105 on day 350 costs 99. Of the curve's rates 004 gives one, 10.5% on day 170, which stands here for all: no other counts. The nominal is
// 100 million.
ghost use Rattle.std.specs.Prelude.{◌≡◌};
ghost use Rattle.figures.specs.Extension.{known_header, known_curve, coupon_bond, rate_found};

use bootstrap::Quote;
use layout::check::{Kind, seal};
use layout::{copy_in, put_le, u32_at};

// One curve, and no trades.
fn header() -> [u8; 512]
    ensures { result ≡ known_header }
{
    let mut b = [0u8; 512];
    b[0] = Kind::Header as u8;
    put_le(&mut b, 8, 2, 1);
    seal(&mut b);
    b
}

// Nodes on the days 170 and 323, in lira, not stressed.
fn known_curve() -> [u8; 512]
    ensures { result ≡ known_curve }
{
    let mut b = [0u8; 512];
    b[0] = Kind::Curve as u8;
    put_le(&mut b, 2, 2, 1);
    put_le(&mut b, 4, 1, 1);
    put_le(&mut b, 5, 1, 1);
    put_le(&mut b, 6, 1, 2);
    put_le(&mut b, 20, 2, 170);
    put_le(&mut b, 24, 4, 105_000);
    put_le(&mut b, 40, 2, 323);
    put_le(&mut b, 44, 4, 105_000);
    seal(&mut b);
    b
}

// First payment day, period, payments; a coupon of 5%; the nominal in kurus.
fn coupon_bond() -> [u8; 20]
    ensures { result ≡ coupon_bond }
{
    let mut b = [0u8; 20];
    put_le(&mut b, 0, 2, 170);
    put_le(&mut b, 2, 2, 180);
    put_le(&mut b, 4, 2, 2);
    put_le(&mut b, 8, 4, 50_000);
    put_le(&mut b, 12, 8, 10_000_000_000);
    b
}

// The rate that the engine finds for day 350, in millionths; 0 where it refuses.
pub fn found_rate() -> u64
    ensures { result ≡ rate_found }
{
    let mut book = [0u8; 1024];
    // By copy_from_slice into two parts of the array, its length as a slice stayed open in the proof.
    copy_in(&mut book, 0, &header());
    copy_in(&mut book, 512, &known_curve());
    let quote = Quote {
        curve: 1,
        bond: coupon_bond(),
        cash: 9_900_000_000,
        first: 0,
        second: 0,
        third: 0,
    };
    match bootstrap::bootstrap(&mut book, 1024, 0, quote) {
        Ok(()) => u32_at(&book, 576),
        Err(_) => 0,
    }
}
