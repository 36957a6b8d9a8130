// A factor by tables: the logarithm of a rate's year, times the days, and its antilogarithm. One division by a variable, and no loop.
ghost use Rattle.std.specs.Prelude.{◌≡◌, ◌*◌, ◌/◌, ◌≤◌, ◌<◌};
ghost use Rattle.ground.specs.Limits.{last_day};
ghost use Rattle.logarithm.specs.Logarithms.{fine_whole};
ghost use Rattle.fine.specs.Fine.{log_at, low_power, antilog, fine_factor};

use logarithm::tables::{Tables, scaled, step};

// The logarithm of a rate and a day.
#[tactic(auto, unfolding(crate::specs::Fine::log_at, discount::specs::Discount::million))]
fn exponent(tables: Tables<'_>, rate: u64, day: u64) -> u64
    requires { (rate ≤ 1_000_000) × (day ≤ last_day) }
    ensures { result ≡ log_at rate * day / 365 }
{
    let i = rate / 2048;
    let row = tables.rows.logs[i as usize];
    let more = step(1_000_000 + 2048 * i, rate % 2048);
    (row + more) * day / 365
}

// The power of the lowest digits of an exponent.
#[tactic(auto, unfolding(crate::specs::Fine::low_power, logarithm::specs::Logarithms::fine_whole))]
fn low_power(x: u64) -> u64
    requires { x < 137_438_953_472 }
    ensures { (result ≡ low_power x) × (result ≤ fine_whole) }
{
    let y = x / 512;
    4_398_046_511_102 - y + y * y / 8_796_093_022_208
}

// The power of an exponent, in parts of 2^42.
#[tactic(auto, unfolding(crate::specs::Fine::antilog, crate::specs::Fine::scaled, logarithm::specs::Logarithms::fine_whole))]
fn antilog(tables: Tables<'_>, x: u64) -> u64
    requires { x / 140_737_488_355_328 ≤ 333 }
    ensures { (result ≡ antilog x) × (result ≤ fine_whole) }
{
    let upper = tables.rows.uppers[(x / 140_737_488_355_328) as usize];
    let middle = tables.rows.middles[(x / 137_438_953_472 % 1024) as usize];
    let lowest = low_power(x % 137_438_953_472);
    scaled::<42>(scaled::<42>(upper, middle), lowest)
}

// The fine factor of a rate and a day, in parts of 2^42.
#[tactic(auto, unfolding(crate::specs::Fine::fine_factor))]
pub fn factor(tables: Tables<'_>, rate: u64, day: u64) -> u64
    requires { (rate ≤ 1_000_000) × (day ≤ last_day) }
    ensures { (result ≡ fine_factor rate day) × (result ≤ fine_whole) }
{
    antilog(tables, exponent(tables, rate, day))
}
