// A trade's legs, of the payments those that count. An amount above the largest stands as one above the largest.
ghost use Rattle.std.specs.Prelude.{◌≡◌, ◌*◌, ◌≤◌};
ghost use Rattle.decimal.specs.Product.{unit};
ghost use Rattle.flows.specs.Amounts.{indexed_of};
ghost use Rattle.legs.specs.Runs.{one_flow, signed_leg};
ghost use Rattle.legs.specs.Signs.{signs_of};
ghost use Rattle.record.specs.Uses.{has_settled};
ghost use Rattle.flows.specs.Legs.{bond_leg, payments_of, first_payment_of, nominal_of, outright_legs, repo_legs};
ghost use Rattle.trade.specs.declared.Security.TheVariants.{Coupons, Indexed};
ghost use Rattle.flows.specs.Capped.{capped, capped_leg, capped_legs};
ghost use Rattle.legs.specs.Counted.{counted_leg};
ghost use Rattle.flows.specs.Counted.{counted_repo, counted_legs};
ghost use Rattle.flows.specs.Limits.{BondLimits, IndexLimits, SecurityLimits, OutrightLimits, RepoLimits, TradeLimits};

use crate::amounts;
use decimal::round::indexed_by;
use legs::signs::Direction;
use legs::{Leg, Legs, signs, simple_legs, window};
use record::{LARGEST, rules};
use trade::{CouponBond, IndexedBond, OutrightTrade, RepoTrade, Security, Trade};

#[tactic(auto, unfolding(crate::specs::Capped::capped, decimal::specs::Product::unit))]
fn cap(amount: u64) -> u64
    ensures { result ≡ capped amount }
{
    amount.min(LARGEST + 1)
}

fn indexed_payment(i: IndexedBond, payment: u64) -> u64
    requires index_limits { IndexLimits i }
    requires payment_bound { payment ≤ 2 * unit }
    ensures { result ≡ capped (indexed_of i payment) }
{
    indexed_by(i.index, i.issue, payment).unwrap_or(LARGEST + 1)
}

fn bond_leg(b: CouponBond, each: u64, last: u64) -> Leg
    ensures { result ≡ bond_leg b each last }
{
    Leg {
        curve: b.curve,
        received: true,
        first: b.first,
        period: b.period,
        count: b.payments,
        each,
        last,
    }
}

#[tactic(auto, unfolding(decimal::specs::Product::unit))]
fn coupon_leg(b: CouponBond) -> Leg
    requires { BondLimits b }
    ensures { result ≡ capped_leg (payments_of (Coupons b)) }
{
    let coupon = amounts::coupon_of(b);
    bond_leg(b, cap(coupon), cap(coupon + b.nominal))
}

#[tactic(auto, unfolding(decimal::specs::Product::unit))]
fn indexed_leg(i: IndexedBond) -> Leg
    requires { IndexLimits i }
    ensures { result ≡ capped_leg (payments_of (Indexed i)) }
{
    let b = i.bond;
    let coupon = amounts::coupon_of(b);
    bond_leg(
        b,
        indexed_payment(i, coupon),
        indexed_payment(i, coupon + b.nominal),
    )
}

#[tactic(auto, unfolding(crate::specs::Capped::capped, decimal::specs::Product::unit))]
fn payments_of(s: Security) -> Leg
    requires { SecurityLimits s }
    ensures { result ≡ capped_leg (payments_of s) }
{
    match s {
        Security::Nothing => simple_legs::no_leg(),
        Security::Single(p) => simple_legs::one_flow(p.curve, p.first, cap(p.nominal)),
        Security::Coupons(b) => coupon_leg(b),
        Security::Indexed(i) => indexed_leg(i),
    }
}

// The day of a security's first payment, and its nominal: zeros where it has none.
fn first_and_nominal(s: Security) -> (u64, u64)
    ensures { (result.0 ≡ first_payment_of s) × (result.1 ≡ nominal_of s) }
{
    match s {
        Security::Nothing => (0, 0),
        Security::Single(p) => (p.first, p.nominal),
        Security::Coupons(b) | Security::Indexed(IndexedBond { bond: b, .. }) => (
            b.first, b.nominal,
        ),
    }
}

// A leg of one flow of cash.
fn cash_leg(sign: Option<Direction>, curve: u64, day: u64, amount: u64) -> Leg
    ensures { result ≡ capped_leg (signed_leg sign (one_flow curve day amount)) }
{
    simple_legs::signed_leg(sign, simple_legs::one_flow(curve, day, cap(amount)))
}

fn payment_leg(sign: Option<Direction>, s: Security) -> Leg
    requires { SecurityLimits s }
    ensures { result ≡ capped_leg (signed_leg sign (payments_of s)) }
{
    simple_legs::signed_leg(sign, payments_of(s))
}

#[tactic(auto, using(crate::proofs::Bounds::bounds), unfolding(crate::specs::Legs::outright_legs, crate::specs::Capped::capped, decimal::specs::Product::unit))]
fn outright_legs(t: OutrightTrade) -> Legs
    requires { OutrightLimits t }
    ensures { result ≡ capped_legs (outright_legs (signs_of 1 0 t.side) t) }
{
    let s = signs::signs_of(1, 0, t.side);
    let dirty = t.price.dirty(t.accrued);
    let (_, nominal) = first_and_nominal(t.security);
    let cash = amounts::settlement_cash(nominal, dirty);
    Legs {
        first: cash_leg(s.first, t.cashcurve, t.valueday1, cash),
        second: simple_legs::no_leg(),
        payments: payment_leg(s.payments, t.security),
    }
}

// The payments that count. Where all come back with the security, none is worked out.
fn repo_payments(settled: bool, sign: Option<Direction>, t: RepoTrade) -> Leg
    requires { RepoLimits t }
    ensures { result ≡ capped_leg (counted_leg settled t.valueday1 t.valueday2 (signed_leg sign (payments_of t.security))) }
{
    let (first, _) = first_and_nominal(t.security);
    if !settled && t.valueday2 < first {
        return simple_legs::no_leg();
    }
    let payments = payment_leg(sign, t.security);
    window::counted_leg(settled, t.valueday1, t.valueday2, payments)
}

// The legs of a pool repo, of kind 2, or of a specified repo, of kind 3: `signs_of` and `has_settled` are asked by number.
#[tactic(auto, unfolding(crate::specs::Legs::repo_legs))]
fn repo_legs(kind: u64, t: RepoTrade) -> Legs
    requires { RepoLimits t × (2 ≤ kind) × (kind ≤ 3) }
    ensures { result ≡ capped_legs (counted_repo (has_settled kind t.phase) t (repo_legs (signs_of kind t.phase t.side) t)) }
{
    let s = signs::signs_of(kind, t.phase, t.side);
    let settled = rules::has_settled(kind, t.phase);
    let back = amounts::second_leg_cash(t.cash, t.rate, t.term);
    Legs {
        first: cash_leg(s.first, t.cashcurve, t.valueday1, t.cash),
        second: cash_leg(s.second, t.cashcurve, t.valueday2, back),
        payments: repo_payments(settled, s.payments, t),
    }
}

pub fn capped_legs(t: Trade) -> Legs
    requires { TradeLimits t }
    ensures { result ≡ capped_legs (counted_legs t) }
{
    match t {
        Trade::Outright(o) => outright_legs(o),
        Trade::Pool(r) => repo_legs(2, r),
        Trade::Specified(r) => repo_legs(3, r),
    }
}
