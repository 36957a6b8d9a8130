// The amounts of a trade's flows.
ghost use Rattle.std.specs.Prelude.{◌≡◌, ◌≤◌};
ghost use Rattle.decimal.specs.Product.{unit};
ghost use Rattle.flows.specs.Amounts.{settlement_cash, second_leg_cash, coupon_of};

use trade::CouponBond;
use trade::price::Dirty;

// What a bond costs: only a dirty price settles.
#[tactic(auto, unfolding(crate::specs::Amounts::settlement_cash))]
pub fn settlement_cash(nominal: u64, price: Dirty) -> u64
    requires { (nominal ≤ unit) × (price.0 ≤ 5_000_000) }
    ensures { result ≡ settlement_cash nominal price }
{
    decimal::round::millionths_of(nominal, price.0)
}

// What a repo's second leg pays.
#[tactic(auto, using(crate::proofs::Bounds::bounds), unfolding(crate::specs::Amounts::second_leg_cash, decimal::specs::Product::unit))]
pub fn second_leg_cash(cash: u64, rate: u64, term: u64) -> u64
    requires { (cash ≤ unit) × ((rate ≤ 1_000_000) × (term ≤ 730)) }
    ensures { result ≡ second_leg_cash cash rate term }
{
    let interest = decimal::round::interest_on(cash, rate, term);
    let withholding = decimal::round::withholding_on(interest);
    cash + interest - withholding
}

// The coupon of a period.
#[tactic(auto, unfolding(crate::specs::Amounts::coupon_of))]
pub fn coupon_of(b: CouponBond) -> u64
    requires { (b.nominal ≤ unit) × (b.coupon ≤ 1_000_000) }
    ensures value { result ≡ coupon_of b }
    ensures upper_bound { result ≤ unit }
{
    decimal::round::millionths_of(b.nominal, b.coupon)
}
