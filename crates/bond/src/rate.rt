// The smallest rate of the new node at which the bond is worth at most the cash.
ghost use Rattle.std.specs.Prelude.{◌≡◌, false, ◌≤◌};
ghost use Rattle.curve.specs.Limits.{highest_rate};
ghost use Rattle.curve.specs.Rates.{nodes_of};
ghost use Rattle.legs.specs.Runs.{leg_flows};
ghost use Rattle.bond.specs.Limits.{Prepared};
ghost use Rattle.bond.specs.Value.{breaks_rate_range, rate_for};

use crate::value::Extension;
use logarithm::tables::Tables;

// The largest rate.
const HIGHEST: u64 = 1_000_000;

// Ground 18.
#[tactic(auto, unfolding(crate::specs::Value::breaks_rate_range))]
pub fn breaks_rate_range(e: Extension, cash: u64, tables: Tables<'_>) -> bool
    requires { Prepared e }
    ensures { result ≡ breaks_rate_range (nodes_of e.curve) e.node (leg_flows e.payments) cash }
{
    let least = e.value_at(HIGHEST, tables);
    let most = e.value_at(0, tables);
    (cash < least) | (most < cash)
}

// Halves the rates that are left: below `low` the bond is worth more than the cash, at `high` it is not. No range has a method that halves it.
pub fn rate_for(e: Extension, cash: u64, tables: Tables<'_>) -> u64
    requires prepared { Prepared e }
    requires cash_value { breaks_rate_range (nodes_of e.curve) e.node (leg_flows e.payments) cash ≡ false }
    ensures value { result ≡ rate_for (nodes_of e.curve) e.node (leg_flows e.payments) cash }
    ensures upper_bound { result ≤ highest_rate }
{
    let mut low: u64 = 0;
    let mut high = HIGHEST;
    while low < high {
        let middle = (low + high) / 2;
        if e.value_at(middle, tables) <= cash {
            high = middle;
        } else {
            low = middle + 1;
        }
    }
    low
}
