// The payments of a leg in a window of days: a leg again.
ghost use Rattle.std.specs.Prelude.{◌≡◌, ◌≤◌};
ghost use Rattle.legs.specs.Counted.{paid_by, leg_after, leg_up_to, counted_leg};
ghost use Rattle.legs.specs.Limits.{LegLimits};

use crate::{Leg, simple_legs};

// How many of the flows fall on days up to one, of which the first is one.
#[tactic(auto, unfolding(crate::specs::Counted::paid_by))]
fn paid_by(day: u64, l: Leg) -> u64
    requires { l.first ≤ day }
    ensures { result ≡ paid_by day l }
{
    if l.period == 0 {
        return l.count;
    }
    let periods = (day - l.first) / l.period;
    periods.saturating_add(1).min(l.count)
}

// The flows after a day.
#[tactic(auto, using(crate::proofs::Reach::span), unfolding(crate::specs::Counted::leg_after))]
fn leg_after(day: u64, l: Leg) -> Leg
    requires { LegLimits l }
    ensures { result ≡ leg_after day l }
{
    if day < l.first {
        return l;
    }
    let paid = paid_by(day, l);
    if l.count <= paid {
        return simple_legs::no_leg();
    }
    Leg {
        first: l.first + paid * l.period,
        count: l.count - paid,
        ..l
    }
}

// The flows up to a day: the last amount only where the last flow is one of them.
#[tactic(auto, unfolding(crate::specs::Counted::leg_up_to))]
fn leg_up_to(day: u64, l: Leg) -> Leg
    ensures { result ≡ leg_up_to day l }
{
    if day < l.first {
        return simple_legs::no_leg();
    }
    let paid = paid_by(day, l);
    let last = if paid == l.count { l.last } else { l.each };
    Leg {
        count: paid,
        last,
        ..l
    }
}

// The payments that a repo counts: once the first leg has settled those after value day 2, before that those after value day 1 and up to
// value day 2.
pub fn counted_leg(settled: bool, valueday1: u64, valueday2: u64, payments: Leg) -> Leg
    requires { LegLimits payments }
    ensures { result ≡ counted_leg settled valueday1 valueday2 payments }
{
    if settled {
        return leg_after(valueday2, payments);
    }
    leg_up_to(valueday2, leg_after(valueday1, payments))
}
