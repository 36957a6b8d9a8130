// The figures of a curve, of a currency, and of a whole account.
ghost use Rattle.std.specs.Prelude.{◌≡◌, ◌++◌, ◌-◌, ◌≤◌, length, take, replicate};
ghost use Rattle.ladder.specs.Exposure.{exposure_of, PositionLimits};
ghost use Rattle.margin.specs.Margins.{curve_margin, currency_margin, has_currency, no_curve, assembled, MarginLimits, plus_curve, SumsLimits, PlacesLimits};

use super::choice::worst_of;
use super::{CurrencyMargin, CurveMargin, Margin, ValuedPosition};
use ladder::Position;
use ladder::valuing::value_of;
use logarithm::tables::Rows;

// The figures of a curve, with a position's ladder on it.
pub fn curve_margin(position: Position, ladder: &[u64]) -> CurveMargin
    requires { PositionLimits position ladder.now }
    ensures { result ≡ curve_margin (exposure_of position ladder.now) }
{
    let mut rows = Rows::ZEROS;
    let tables = rows.fill();
    let total = value_of(
        position.id,
        position.curve,
        ladder,
        position.schedules,
        tables,
    );
    let base = total.sum;
    let valued = ValuedPosition { position, base };
    let worst = worst_of(valued, ladder, tables);
    CurveMargin {
        base,
        worstloss: worst.amount,
        scenario: worst.scenario,
        currency: position.currency,
        tolerance: total.tolerance,
    }
}

// The sums of a currency's worst losses and base values.
#[derive(Clone, Copy)]
pub struct Sums {
    pub initial: i64,
    pub variation: i64,
}

impl Sums {
    // With one curve more, if it is of the currency.
    pub fn with_curve(self, currency: u64, m: CurveMargin) -> Sums
        requires { SumsLimits 7 self × MarginLimits m }
        ensures { result ≡ plus_curve currency self m }
    {
        if m.currency != currency {
            return self;
        }
        Sums {
            initial: self.initial + m.worstloss,
            variation: self.variation + m.base,
        }
    }
}

// The figures of a currency, from those of the curves.
pub fn currency_margin(currency: u64, curves: &[CurveMargin]) -> CurrencyMargin
    requires { PlacesLimits curves.now (length curves.now) }
    ensures { result ≡ currency_margin currency curves.now }
{
    let mut t = Sums {
        initial: 0,
        variation: 0,
    };
    for m in curves {
        t = t.with_curve(currency, *m);
    }
    CurrencyMargin {
        initial: t.initial,
        variation: t.variation,
        total: t.variation - t.initial,
    }
}

// Whether one of the first count curves has the currency. The lines of page and listing pass the margin's eight places with their count.
pub fn has_currency(curves: [CurveMargin; 8], count: usize, currency: u64) -> bool
    requires { count ≤ 8 }
    ensures { result ≡ has_currency currency (take count curves) }
{
    curves[..count].iter().any(|m| m.currency == currency)
}

// The figures of a place with no curve.
pub fn no_curve() -> CurveMargin
    ensures { result ≡ no_curve }
{
    CurveMargin {
        base: 0,
        worstloss: 0,
        scenario: 0,
        currency: 0,
        tolerance: 0,
    }
}

// The first count places as they are, and 0 behind them.
fn cleared(mut curves: [CurveMargin; 8], count: usize) -> [CurveMargin; 8]
    requires { count ≤ 8 }
    ensures { result ≡ take count curves ++ replicate (8 - count) no_curve }
{
    curves[count..].fill(no_curve());
    curves
}

// The margin of an account, from the figures of its curves: those in the first count places of the array that report fills.
pub fn margin_of(account: u64, curves: [CurveMargin; 8], count: usize) -> Margin
    requires { PlacesLimits curves count }
    ensures { result ≡ assembled account (take count curves) }
{
    let figures = &curves[..count];
    let currencies = [
        currency_margin(1, figures),
        currency_margin(2, figures),
        currency_margin(3, figures),
    ];
    Margin {
        account,
        curves: cleared(curves, count),
        currencies,
    }
}
