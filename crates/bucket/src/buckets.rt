// The buckets of a segment of days, and how far a day's discount factor may be from the line between those of its bucket's ends.
ghost use Rattle.std.specs.Prelude.{◌≡◌, ◌+◌, ◌≤◌, ◌<◌};
ghost use Rattle.ground.specs.Limits.{last_day};
ghost use Rattle.bucket.specs.Convexity.{convexity};
ghost use Rattle.bucket.specs.Buckets.{alone, fitting, bucket_on};

// A day's bucket: its first and its last day, how many days are gone since the one and left to the other, and how far the day's factor is from the line
// between theirs at most, in parts of 2^32 of the first day's.
#[derive(Clone, Copy)]
pub struct Bucket {
    pub first: u64,
    pub last: u64,
    pub gone: u64,
    pub left: u64,
    pub error: u64,
}

// How far a factor may be from the line between those of two days at most `span` days apart and not after `day`.
#[tactic(auto, unfolding(crate::specs::Convexity::logs_apart, crate::specs::Convexity::log_off, crate::specs::Convexity::exponents_apart, crate::specs::Convexity::exponent_off, crate::specs::Convexity::squared, crate::specs::Convexity::bent, crate::specs::Convexity::convexity))]
fn convexity(most: u64, jump: u64, span: u64, day: u64) -> u64
    requires { (most ≤ 1_000_000) × (jump ≤ 20_000) × (span ≤ 32) × (day ≤ last_day) }
    ensures { result ≡ convexity most jump span day }
{
    let logs = 2_251_799_814 * jump + 9_700_000;
    let longest = 2_251_799_814 * most + 9_700_000;
    let apart = (364 + logs * day + longest * span) / 365 + 1;
    let line = 2_261_499_814 + 2252 * (jump * jump);
    let off = (1456 + 4 * (day * line) + span * logs) / 1460 + 1;
    let part = apart / 2_147_483_648 + 1;
    let bent = part * part / 256 + 1 + (off / 524_288 + 1);
    bent + bent / 8 + 1
}

// A bucket of one day.
pub fn alone(day: u64) -> Bucket
    ensures { result ≡ alone day }
{
    Bucket {
        first: day,
        last: day,
        gone: 0,
        left: 1,
        error: 0,
    }
}

// A day's bucket, where its rates move little and the line between its ends is near enough; otherwise the day by itself.
#[tactic(auto, unfolding(crate::specs::Buckets::fitting))]
fn fitting(first: u64, last: u64, day: u64, jump: u64, most: u64) -> Bucket
    requires { (most ≤ 1_000_000) × (first ≤ day) × (day ≤ last) × (last ≤ first + 32) × (last ≤ last_day) }
    ensures { result ≡ fitting first last day jump most }
{
    if first == last || 20_000 < jump {
        return alone(day);
    }
    let error = convexity(most, jump, last - first, last);
    if 4_000_000 < error {
        return alone(day);
    }
    Bucket {
        first,
        last,
        gone: day - first,
        left: last - day,
        error,
    }
}

// The bucket of a day in the segment of days from `from` up to `until`, whose rates move by `width` at most and are at most `most`.
#[tactic(auto, unfolding(crate::specs::Buckets::bucket_on))]
pub fn bucket_on(from: u64, until: u64, width: u64, most: u64, day: u64) -> Bucket
    requires { (width ≤ 1_000_000) × (most ≤ 1_000_000) × (until ≤ 10_951) }
    ensures { result ≡ bucket_on from until width most day }
{
    if day < from || until <= day {
        return alone(day);
    }
    let start = day / 16 * 16;
    let first = start.max(from);
    let last = (start + 16).min(until - 1);
    let jump = width * (last - first) / (until - from) + 1;
    fitting(first, last, day, jump, most)
}
