// The numbers between which document 01's factor lies, from the fine one.
ghost use Rattle.std.specs.Prelude.{◌≡◌, ◌+◌, ◌-◌, ◌*◌, ◌/◌, ◌≤◌};
ghost use Rattle.ground.specs.Limits.{last_day};
ghost use Rattle.logarithm.specs.Logarithms.{fine_whole};
ghost use Rattle.fine.specs.Fine.{lost, bracket_of, bracket_at, InBracket, BracketLimits};

use super::factor::factor;
use logarithm::tables::Tables;

// In parts of 2^42.
#[derive(Clone, Copy)]
pub struct Bracket {
    pub low: u64,
    pub high: u64,
}

// What the products of the days beyond whole years may lose, in parts of 10^12.
#[tactic(auto, unfolding(crate::specs::Fine::lost, logarithm::specs::Logarithms::fine_whole))]
fn lost(rate: u64, day: u64, c: u64) -> u64
    requires { (rate ≤ 1_000_000) × (c ≤ fine_whole) }
    ensures { (result ≡ lost rate day c) × (result ≤ 1500) }
{
    let years = (c + 12) * (1_000_000 + rate) / 1_000_000 + 1;
    2 * (day % 365) * years / 4_398_046_511_104 + 1
}

// Around a fine factor.
#[tactic(auto, unfolding(crate::specs::Fine::bracket_of, crate::specs::Fine::below, crate::specs::Fine::above, crate::specs::Fine::spread, logarithm::specs::Logarithms::fine_whole))]
fn bracket_of(rate: u64, day: u64, c: u64) -> Bracket
    requires { (rate ≤ 1_000_000) × (day ≤ last_day) × (c ≤ fine_whole) }
    ensures same { result ≡ bracket_of rate day c }
    ensures limits { BracketLimits result }
{
    let spread = (32 * (rate / 2048) + 32) * day / 365 + 2;
    let lost = lost(rate, day, c);
    let under = 4_398_046_511_104 * (lost + 2 * (day / 365)) / 1_000_000_000_000;
    let over = 4_398_046_511_104 * lost / 1_000_000_000_000;
    let short = spread * c / 2_251_799_813_685_248;
    Bracket {
        low: c.saturating_sub(2 + short + under),
        high: c + (13 + over),
    }
}

// At a rate on a day.
#[tactic(auto, unfolding(crate::specs::Fine::bracket_at))]
pub fn bracket_at(tables: Tables<'_>, rate: u64, day: u64) -> Bracket
    requires { (rate ≤ 1_000_000) × (day ≤ last_day) }
    ensures same { result ≡ bracket_at rate day }
    ensures limits { BracketLimits result }
    ensures between { InBracket result rate day }
{
    bracket_of(rate, day, factor(tables, rate, day))
}
