// A factor by tables: the logarithm of a rate's year, times the days, and its antilogarithm. No division but by constants, and no loop.
ghost use Rattle.std.specs.Prelude.{◌≡◌, ◌*◌, ◌/◌, ◌≤◌};
ghost use Rattle.ground.specs.Limits.{last_day};
ghost use Rattle.cheap.specs.Cheap.{cheap_log, cheap_power, cheap_factor};

use logarithm::tables::Tables;

// The logarithm of a rate and a day: a row of the table, what its slope adds to it, and what the slope loses on the way.
// The exponent of fine is by terms of a series in the place of a slope: one function of both would have no line in common but the last.
#[tactic(auto, unfolding(crate::specs::Cheap::cheap_log, crate::specs::Cheap::risen, crate::specs::Cheap::bend))]
fn exponent(tables: Tables<'_>, rate: u64, day: u64) -> u64
    requires { (rate ≤ 1_000_000) × (day ≤ last_day) }
    ensures { result ≡ cheap_log rate * day / 365 }
{
    let i = (rate / 2048) as usize;
    let row = tables.rows.logs[i];
    let slope = tables.rows.slopes[i];
    let rise = rate % 2048 * slope;
    let part = rise / 2_097_152;
    let bend = part * part / 1024;
    (row + (rise - bend)) * day / 365
}

// The power of an exponent, in parts of 2^31: its upper digits from one table, the next ten from the other, the lowest 37 on a line.
// Its products fit a u64: fine's by 128 bits would be no plainer here, and its rows and last factor are others.
#[tactic(auto, unfolding(crate::specs::Cheap::cheap_power))]
fn power(tables: Tables<'_>, x: u64) -> u64
    requires { x / 140_737_488_355_328 ≤ 333 }
    ensures { result ≡ cheap_power x }
{
    let upper = tables.rows.short_uppers[(x / 140_737_488_355_328) as usize];
    let middle = tables.rows.short_middles[(x / 137_438_953_472 % 1024) as usize];
    let two = upper * middle / 2_147_483_648;
    let line = 2_147_483_647 - x % 137_438_953_472 / 1_048_576;
    two * line / 2_147_483_648
}

// The cheap factor of a rate and a day, in parts of 2^31.
#[tactic(auto, unfolding(crate::specs::Cheap::cheap_factor))]
pub fn factor(tables: Tables<'_>, rate: u64, day: u64) -> u64
    requires { (rate ≤ 1_000_000) × (day ≤ last_day) }
    ensures { result ≡ cheap_factor rate day }
{
    power(tables, exponent(tables, rate, day))
}
