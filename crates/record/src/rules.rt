// The rules 8 to 11 on a record: for each a function of its fields that answers whether it is broken.
ghost use Rattle.std.specs.Prelude.{◌≡◌, ◌≤◌};
ghost use Rattle.ground.specs.Limits.{last_day};
ghost use Rattle.record.specs.Uses.{in_limits, used_in_limits, asked, is_outright, is_pool, is_specified, has_settled, has_security, has_coupons, is_indexed, last_payment_day};
ghost use Rattle.record.specs.Rules.{phase_fits, security_fits, curves_fit, breaks_form};
ghost use Rattle.record.specs.Rules.{in_reach, legs_ahead, second_leg_ahead, value_days_fit, first_payment_fits, counts_fit, coupon_days_fit, breaks_days};
ghost use Rattle.record.specs.Rules.{unused_days_fit, principals_fit, price_fits, coupons_fit, indices_fit, breaks_amounts};
ghost use Rattle.record.specs.Rules.{currency_of_id, breaks_currency};

use crate::{Amounts, Curves, Days, Form, LARGEST};
use ground::LAST_DAY;

fn in_limits(least: u64, x: u64, most: u64) -> bool
    ensures { result ≡ in_limits least x most }
{
    (least..=most).contains(&x)
}

fn used_in_limits(used: bool, least: u64, x: u64, most: u64) -> bool
    ensures { result ≡ used_in_limits used least x most }
{
    if used {
        in_limits(least, x, most)
    } else {
        x == 0
    }
}

fn asked(used: bool, rule: bool) -> bool
    ensures { result ≡ asked used rule }
{
    !used | rule
}

// Kinds, phases and securities stay the numbers of a record's bytes: `breaks_form` is said of every number.

fn is_outright(kind: u64) -> bool
    ensures { result ≡ is_outright kind }
{
    kind == 1
}

fn is_pool(kind: u64) -> bool
    ensures { result ≡ is_pool kind }
{
    kind == 2
}

fn is_specified(kind: u64) -> bool
    ensures { result ≡ is_specified kind }
{
    kind == 3
}

pub fn has_settled(kind: u64, phase: u64) -> bool
    ensures { result ≡ has_settled kind phase }
{
    is_pool(kind) & (phase == 3) | is_specified(kind) & (phase == 2)
}

pub fn has_security(security: u64) -> bool
    ensures { result ≡ has_security security }
{
    security != 0
}

fn has_coupons(security: u64) -> bool
    ensures { result ≡ has_coupons security }
{
    in_limits(2, security, 3)
}

fn is_indexed(security: u64) -> bool
    ensures { result ≡ is_indexed security }
{
    security == 3
}

// ---- 8

fn phase_fits(kind: u64, phase: u64) -> bool
    ensures { result ≡ phase_fits kind phase }
{
    is_outright(kind) & (phase == 0)
        | is_pool(kind) & in_limits(1, phase, 3)
        | is_specified(kind) & in_limits(1, phase, 2)
}

fn security_fits(f: Form) -> bool
    ensures { result ≡ security_fits f }
{
    used_in_limits(!(is_pool(f.kind) & (f.phase == 1)), 1, f.security, 3)
}

fn curves_fit(count: u64, f: Form) -> bool
    ensures { result ≡ curves_fit count f }
{
    in_limits(1, f.cashcurve, count)
        & used_in_limits(has_security(f.security), 1, f.securitycurve, count)
}

#[tactic(auto, unfolding(crate::specs::Rules::breaks_form))]
pub fn breaks_form(curves: Curves, f: Form) -> bool
    ensures { result ≡ breaks_form curves f }
{
    !(phase_fits(f.kind, f.phase)
        & in_limits(1, f.side, 2)
        & security_fits(f)
        & curves_fit(curves.count, f))
}

// ---- 9

fn in_reach(day: u64) -> bool
    ensures { result ≡ in_reach day }
{
    day <= LAST_DAY
}

fn legs_ahead(d: Days) -> bool
    ensures { result ≡ legs_ahead d }
{
    in_limits(1, d.term, 730)
        & (d.valueday1 < d.valueday2)
        & (d.valueday2.saturating_sub(d.valueday1) == d.term)
        & in_reach(d.valueday2)
}

fn second_leg_ahead(d: Days) -> bool
    ensures { result ≡ second_leg_ahead d }
{
    in_limits(1, d.term, 730) & (d.valueday2 <= d.term)
}

fn value_days_fit(f: Form, d: Days) -> bool
    ensures { result ≡ value_days_fit f d }
{
    if is_outright(f.kind) {
        in_reach(d.valueday1)
    } else if has_settled(f.kind, f.phase) {
        second_leg_ahead(d)
    } else {
        legs_ahead(d)
    }
}

fn first_payment_fits(f: Form, d: Days) -> bool
    ensures { result ≡ first_payment_fits f d }
{
    let ahead = if has_settled(f.kind, f.phase) {
        0 < d.first
    } else {
        d.valueday1 < d.first
    };
    ahead & in_reach(d.first)
}

fn counts_fit(period: u64, payments: u64) -> bool
    ensures { result ≡ counts_fit period payments }
{
    in_limits(1, period, 366) & in_limits(1, payments, 120)
}

pub fn last_payment_day(first: u64, period: u64, payments: u64) -> u64
    requires { (first ≤ last_day) × ((period ≤ 366) × (payments ≤ 120)) }
    ensures { result ≡ last_payment_day first period payments }
{
    first + payments.saturating_sub(1) * period
}

// The days are added only where they are known to fit.
fn coupon_days_fit(first: u64, period: u64, payments: u64) -> bool
    ensures { result ≡ coupon_days_fit first period payments }
{
    counts_fit(period, payments)
        && in_reach(first)
        && in_reach(last_payment_day(first, period, payments))
}

#[tactic(auto, unfolding(crate::specs::Rules::breaks_days))]
pub fn breaks_days(f: Form, d: Days) -> bool
    ensures { result ≡ breaks_days f d }
{
    !(value_days_fit(f, d)
        & asked(has_security(f.security), first_payment_fits(f, d))
        & asked(
            has_coupons(f.security),
            coupon_days_fit(d.first, d.period, d.payments),
        ))
}

// ---- 10

fn unused_days_fit(f: Form, d: Days) -> bool
    ensures { result ≡ unused_days_fit f d }
{
    asked(is_outright(f.kind), (d.valueday2 == 0) & (d.term == 0))
        & asked(has_settled(f.kind, f.phase), d.valueday1 == 0)
        & asked(!has_security(f.security), d.first == 0)
        & asked(
            !has_coupons(f.security),
            (d.period == 0) & (d.payments == 0),
        )
}

#[tactic(auto, unfolding(decimal::specs::Product::unit))]
fn principals_fit(f: Form, a: Amounts) -> bool
    ensures { result ≡ principals_fit f a }
{
    used_in_limits(has_security(f.security), 1, a.nominal, LARGEST)
        & used_in_limits(!is_outright(f.kind), 1, a.cash, LARGEST)
}

fn price_fits(f: Form, a: Amounts) -> bool
    ensures { result ≡ price_fits f a }
{
    if is_outright(f.kind) {
        in_limits(1, a.price, 4_000_000)
    } else {
        a.price <= 1_000_000
    }
}

fn coupons_fit(f: Form, a: Amounts) -> bool
    ensures { result ≡ coupons_fit f a }
{
    used_in_limits(is_outright(f.kind), 0, a.accrued, 1_000_000)
        & used_in_limits(has_coupons(f.security), 0, a.coupon, 1_000_000)
}

fn indices_fit(f: Form, a: Amounts) -> bool
    ensures { result ≡ indices_fit f a }
{
    used_in_limits(is_indexed(f.security), 1, a.index, 10_000_000)
        & used_in_limits(is_indexed(f.security), 1, a.issue, 10_000_000)
}

#[tactic(auto, unfolding(crate::specs::Rules::breaks_amounts))]
pub fn breaks_amounts(f: Form, d: Days, a: Amounts) -> bool
    ensures { result ≡ breaks_amounts f d a }
{
    !((f.blank == 0)
        & unused_days_fit(f, d)
        & principals_fit(f, a)
        & price_fits(f, a)
        & coupons_fit(f, a)
        & indices_fit(f, a))
}

// ---- 11

// A curve id's currency, 0 for an id that no book has.
fn currency_of_id(curves: Curves, id: u64) -> u64
    ensures { result ≡ currency_of_id curves id }
{
    if in_limits(1, id, 8) {
        return curves.currency[(id - 1) as usize];
    }
    0
}

#[tactic(auto, unfolding(crate::specs::Rules::breaks_currency))]
pub fn breaks_currency(curves: Curves, f: Form) -> bool
    ensures { result ≡ breaks_currency curves f }
{
    has_security(f.security)
        & (currency_of_id(curves, f.securitycurve) != currency_of_id(curves, f.cashcurve))
}
