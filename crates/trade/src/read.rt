// A trade from a record's fields.
ghost use Rattle.std.specs.Prelude.{◌≡◌};
ghost use Rattle.trade.specs.Read.{single_payment_of, coupon_bond_of, indexed_bond_of, pick_security, security_of};
ghost use Rattle.trade.specs.Read.{outright_of, repo_of, pick_trade, trade_of};

use crate::price::Clean;
use crate::{CouponBond, IndexedBond, OutrightTrade, RepoTrade, Security, SinglePayment, Trade};
use record::Fields;

fn single_payment_of(f: Fields) -> SinglePayment
    ensures { result ≡ single_payment_of f }
{
    SinglePayment {
        curve: f.form.securitycurve,
        first: f.days.first,
        nominal: f.amounts.nominal,
    }
}

fn coupon_bond_of(f: Fields) -> CouponBond
    ensures { result ≡ coupon_bond_of f }
{
    CouponBond {
        curve: f.form.securitycurve,
        first: f.days.first,
        nominal: f.amounts.nominal,
        period: f.days.period,
        payments: f.days.payments,
        coupon: f.amounts.coupon,
    }
}

fn indexed_bond_of(f: Fields) -> IndexedBond
    ensures { result ≡ indexed_bond_of f }
{
    IndexedBond {
        bond: coupon_bond_of(f),
        index: f.amounts.index,
        issue: f.amounts.issue,
    }
}

// The security of a number, from what it would be of each kind.
fn pick_security(
    number: u64,
    single: SinglePayment,
    bond: CouponBond,
    indexed: IndexedBond,
) -> Security
    ensures { result ≡ pick_security number single bond indexed }
{
    match number {
        0 => Security::Nothing,
        1 => Security::Single(single),
        2 => Security::Coupons(bond),
        _ => Security::Indexed(indexed),
    }
}

#[tactic(auto, unfolding(crate::specs::Read::security_of))]
fn security_of(f: Fields) -> Security
    ensures { result ≡ security_of f }
{
    pick_security(
        f.form.security,
        single_payment_of(f),
        coupon_bond_of(f),
        indexed_bond_of(f),
    )
}

fn outright_of(f: Fields) -> OutrightTrade
    ensures { result ≡ outright_of f }
{
    OutrightTrade {
        side: f.form.side,
        cashcurve: f.form.cashcurve,
        valueday1: f.days.valueday1,
        price: Clean(f.amounts.price),
        accrued: f.amounts.accrued,
        security: security_of(f),
    }
}

fn repo_of(f: Fields) -> RepoTrade
    ensures { result ≡ repo_of f }
{
    RepoTrade {
        side: f.form.side,
        phase: f.form.phase,
        cashcurve: f.form.cashcurve,
        valueday1: f.days.valueday1,
        valueday2: f.days.valueday2,
        term: f.days.term,
        cash: f.amounts.cash,
        rate: f.amounts.price,
        security: security_of(f),
    }
}

// The trade of a kind, from what it would be of each.
fn pick_trade(kind: u64, outright: OutrightTrade, repo: RepoTrade) -> Trade
    ensures { result ≡ pick_trade kind outright repo }
{
    match kind {
        1 => Trade::Outright(outright),
        2 => Trade::Pool(repo),
        _ => Trade::Specified(repo),
    }
}

#[tactic(auto, unfolding(crate::specs::Read::trade_of))]
pub fn trade_of(f: Fields) -> Trade
    ensures { result ≡ trade_of f }
{
    pick_trade(f.form.kind, outright_of(f), repo_of(f))
}
