// The tables that factors are read from, filled once a curve.
ghost use Rattle.std.specs.Prelude.{◌≡◌, ◌*◌, ◌/◌, ◌≤◌, ◌<◌, ◌^◌};
ghost use Rattle.logarithm.specs.Logarithms.{power_whole, step, log_of, log_slope, power_row, short_row, middle_base, upper_base, Filled};

// The bases of the two tables of powers.
const MIDDLE_BASE: u64 = 1_152_851_138_010_109_269;

const UPPER_BASE: u64 = 1_083_069_521_826_238_936;

// One, while powers are multiplied: 2^60.
const WHOLE: u64 = 1_152_921_504_606_846_976;

// The logarithms of the years' factors at every 2048th rate with their slopes; and the powers of both bases in parts of 2^42 and, short, in parts of 2^31.
#[derive(Drop)]
pub struct Rows {
    pub logs: [u64; 489],
    pub slopes: [u64; 489],
    pub middles: [u64; 1024],
    pub uppers: [u64; 334],
    pub short_middles: [u64; 1024],
    pub short_uppers: [u64; 334],
}

// Rows that are filled. They are lent: returned by value, their 30 KB were copied three times in the machine code, on a stack that is promised to be small.
#[derive(Clone, Copy)]
pub struct Tables<'a> {
    pub rows: &'a Rows,
    pub ghost logs_are: { Filled log_of 489 rows.now.logs },
    pub ghost slopes_are: { Filled log_slope 489 rows.now.slopes },
    pub ghost middles_are: { Filled (power_row middle_base) 1024 rows.now.middles },
    pub ghost uppers_are: { Filled (power_row upper_base) 334 rows.now.uppers },
    pub ghost short_middles_are: { Filled (short_row middle_base) 1024 rows.now.short_middles },
    pub ghost short_uppers_are: { Filled (short_row upper_base) 334 rows.now.short_uppers },
}

// a * b / 2^BITS, rounded down.
pub fn scaled<const BITS: u32>(a: u64, b: u64) -> u64
    requires shift { BITS < 128 }
    requires fits { a * b / 2 ^ BITS < 2 ^ 64 }
    ensures { result ≡ a * b / 2 ^ BITS }
{
    (u128::from(a) * u128::from(b) >> BITS) as u64
}

// The powers of a base, from the power of 0, in parts of 2^42, and each in parts of 2^31 too.
fn fill_powers<const N: usize>(base: u64, rows: &mut [u64; N], shorts: &mut [u64; N])
    requires { base ≤ power_whole }
    ensures rows { Filled (power_row base) N rows.new }
    ensures shorts { Filled (short_row base) N shorts.new }
{
    let mut x = WHOLE;
    for i in 0..N {
        rows[i] = x / 262_144;
        shorts[i] = x / 536_870_912;
        x = scaled::<60>(x, base);
    }
}

// The logarithm of m / (m + j): two terms of its series.
#[tactic(auto, unfolding(crate::specs::Logarithms::step, crate::specs::Logarithms::first_term, crate::specs::Logarithms::third_term, crate::specs::Logarithms::scale))]
pub fn step(m: u64, j: u64) -> u64
    requires { (1_000_000 ≤ m) × (m ≤ 3_000_000) × (j ≤ 2048) }
    ensures { result ≡ step m j }
{
    let w = 4_503_599_627_370_496 * j / (2 * m + j);
    let a = w / 524_288;
    let b = a * a / 64;
    w + b * a / 6_597_170_429_952
}

// The logarithms of the years' factors at every 2048th rate, from rate 0, and their slopes.
fn fill_logs(logs: &mut [u64; 489], slopes: &mut [u64; 489])
    ensures rows { Filled log_of 489 logs.new }
    ensures slopes { Filled log_slope 489 slopes.new }
{
    let mut log = 0;
    for i in 0..489 {
        let m = 1_000_000 + 2048 * i as u64;
        logs[i] = log;
        slopes[i] = 2_251_799_813_685_248 / m - 4;
        log += step(m, 2048);
    }
}

impl Rows {
    // Before they are filled.
    pub const ZEROS: Rows = Rows {
        logs: [0; 489],
        slopes: [0; 489],
        middles: [0; 1024],
        uppers: [0; 334],
        short_middles: [0; 1024],
        short_uppers: [0; 334],
    };

    // The tables, which are the same each time.
    #[tactic(auto, unfolding(crate::specs::Logarithms::middle_base, crate::specs::Logarithms::upper_base, crate::specs::Logarithms::power_whole))]
    pub fn fill(&mut self) -> Tables<'_> {
        fill_logs(&mut self.logs, &mut self.slopes);
        fill_powers(MIDDLE_BASE, &mut self.middles, &mut self.short_middles);
        fill_powers(UPPER_BASE, &mut self.uppers, &mut self.short_uppers);
        Tables { rows: self }
    }
}
