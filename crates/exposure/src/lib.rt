// What an account has on a curve, from its book: the cash flow ladder, gathered from the trades, and the components.
#![tactic(auto)]

ghost use Rattle.std.specs.Prelude.{◌≡◌, ◌+◌, ◌*◌, ◌≤◌, length};
ghost use Rattle.exposure.specs.Schedules.{stands_on, with_leg, count_with_leg};
ghost use Rattle.exposure.specs.Growth.{Grown, LegsSound};
ghost use Rattle.legs.specs.Runs.{legs_flows};
ghost use Rattle.curve.specs.Limits.{ProperComponents};
ghost use Rattle.curve_block.specs.Parts.{components_of};
ghost use Rattle.book.specs.Parts.{block_at, curve_count, trade_count};
ghost use Rattle.book.specs.Verdict.{StartsWithBook};
ghost use Rattle.ladder.specs.Exposure.{flows_on};
ghost use Rattle.ladder.specs.Ladder.{ladder_flows, LadderLimits};
ghost use Rattle.exposure.specs.Exposures.{flows_in};

use book::parts;
use curve::Components;
use legs::{Leg, Legs};

fn stands_on(curve: u64, leg: Leg) -> bool
    ensures { result ≡ stands_on curve leg }
{
    (leg.curve == curve) & (leg.count != 0)
}

// Adds a leg behind the ladder's schedules, where it stands on the curve. The ladder is a caller's numbers, six a schedule, as the crate ladder reads them.
#[tactic(auto, unfolding(crate::specs::Schedules::with_leg, crate::specs::Schedules::count_with_leg))]
fn push_leg(ladder: &mut [u64], schedules: usize, curve: u64, leg: Leg) -> usize
    requires { schedules * 6 + 6 ≤ length ladder.old }
    ensures value { result ≡ count_with_leg curve leg schedules }
    ensures ladder_after { ladder.new ≡ with_leg curve leg ladder.old schedules }
{
    if !stands_on(curve, leg) {
        return schedules;
    }
    let at = schedules * 6;
    ladder[at..at + 6].copy_from_slice(&[
        leg.first,
        leg.period,
        leg.count,
        leg.each,
        leg.last,
        leg.received as u64,
    ]);
    schedules + 1
}

// Adds the legs of a trade.
fn push_legs(ladder: &mut [u64], schedules: usize, curve: u64, legs: Legs) -> usize
    requires { (schedules * 6 + 18 ≤ length ladder.old) × LegsSound legs }
    ensures { Grown curve (legs_flows legs) ladder.old schedules ladder.new result }
{
    let one = push_leg(ladder, schedules, curve, legs.first);
    let two = push_leg(ladder, one, curve, legs.second);
    push_leg(ladder, two, curve, legs.payments)
}

// The ladder of a curve of an accepted book, which has room for three legs of each trade, and how many schedules it has.
pub fn gather(book: &[u8], curve: u64, ladder: &mut [u64]) -> usize
    requires { StartsWithBook book.now × (trade_count book.now * 18 ≤ length ladder.old) }
    ensures flows { ladder_flows curve ladder.new result ≡ flows_on curve (flows_in book.now) }
    ensures limits { LadderLimits curve ladder.new result }
{
    let mut schedules: usize = 0;
    let count = parts::trade_count(book);
    for i in 0..count {
        let r = parts::record_at(book, i);
        let legs = flows::walk::legs_of(trade::read::trade_of(record::bytes::fields_of(&r)));
        schedules = push_legs(ladder, schedules, curve, legs);
    }
    schedules
}

// The components of a curve of an accepted book: each curve has scenarios of its own.
pub fn components_at(book: &[u8], curve: usize) -> Components
    requires { StartsWithBook book.now × (1 ≤ curve) × (curve ≤ curve_count book.now) }
    ensures value { result ≡ components_of (block_at book.now curve) }
    ensures proper_components { ProperComponents result }
{
    curve_block::components_of(parts::block_at(book, curve))
}
