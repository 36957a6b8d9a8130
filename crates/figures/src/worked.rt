// A figure by the engine's own functions, in kurus. An input outside the engine's limits is brought into them.
ghost use Rattle.std.specs.Prelude.{◌≡◌, ◌-◌, ◌*◌, ◌≤◌};
ghost use Rattle.decimal.specs.Product.{unit};
ghost use Rattle.decimal.specs.HalfUp.{withholding_on};
ghost use Rattle.discount.specs.Discount.{million};
ghost use Rattle.figures.specs.Worked.{brought, amount_in, rate_in, cash_for, indexed_for, present_for, interest_for, second_leg_for, worked_of};

use crate::figure::Work;
use decimal::round;
use discount::value::present_value;
use flows::amounts;
use trade::price::Clean;

#[tactic(auto, unfolding(crate::specs::Worked::brought))]
fn within(least: u64, most: u64, n: u64) -> u64
    requires { least ≤ most }
    ensures { (result ≡ brought least most n) × (least ≤ result) × (result ≤ most) }
{
    n.clamp(least, most)
}

fn amount(n: u64) -> u64
    ensures { (result ≡ amount_in n) × (result ≤ unit) }
{
    within(0, 1_000_000_000_000, n)
}

fn rate(n: u64) -> u64
    ensures { (result ≡ rate_in n) × (result ≤ million) × (result ≤ 1_000_000) }
{
    within(0, 1_000_000, n)
}

fn settlement(nominal: u64, clean: u64, accrued: u64) -> u64
    ensures { result ≡ cash_for nominal clean accrued }
{
    let price = Clean(within(0, 4_000_000, clean));
    let dirty = price.dirty(rate(accrued));
    amounts::settlement_cash(amount(nominal), dirty)
}

fn indexed(nominal: u64, coupon: u64, settlement: u64, issue: u64) -> u64
    ensures { result ≡ indexed_for nominal coupon settlement issue }
{
    let payment = round::millionths_of(amount(nominal), rate(coupon));
    round::indexed_by(
        within(1, 10_000_000, settlement),
        within(1, 10_000_000, issue),
        payment,
    )
    .unwrap_or(0)
}

fn present(sum: u64, at: u64, days: u64) -> u64
    ensures { result ≡ present_for sum at days }
{
    present_value(amount(sum), rate(at), days)
}

// 0 where more is paid than received.
fn difference(received: u64, paid: u64) -> u64
    ensures { result ≡ received - paid }
{
    received.saturating_sub(paid)
}

fn interest(cash: u64, at: u64, term: u64) -> u64
    ensures { (result ≡ interest_for cash at term) × (result ≤ 2 * unit) }
{
    round::interest_on(amount(cash), rate(at), within(0, 730, term))
}

fn withholding(cash: u64, at: u64, term: u64) -> u64
    ensures { result ≡ withholding_on (interest_for cash at term) }
{
    round::withholding_on(interest(cash, at, term))
}

fn second_leg(cash: u64, at: u64, term: u64) -> u64
    ensures { result ≡ second_leg_for cash at term }
{
    amounts::second_leg_cash(amount(cash), rate(at), within(0, 730, term))
}

pub fn worked(w: Work) -> u64
    ensures { result ≡ worked_of w }
{
    match w {
        Work::Price(clean, accrued) => settlement(10_000, clean, accrued),
        Work::Cash(nominal, clean, accrued) => settlement(nominal, clean, accrued),
        Work::Indexed(nominal, coupon, now, then) => indexed(nominal, coupon, now, then),
        Work::Present(sum, at, days) => present(sum, at, days),
        Work::Variation(a, b) => difference(present(a.0, a.1, a.2), present(b.0, b.1, b.2)),
        Work::Interest(cash, at, term) => interest(cash, at, term),
        Work::Withholding(cash, at, term) => withholding(cash, at, term),
        Work::SecondLeg(cash, at, term) => second_leg(cash, at, term),
    }
}
