// What a day's net amount is worth at a cheap factor, and how far the value of a flow may be off by that.
ghost use Rattle.std.specs.Prelude.{◌≡◌, ◌*◌, ◌/◌, ◌≤◌, nat_abs};
ghost use Rattle.ground.specs.Limits.{last_day};
ghost use Rattle.cheap.specs.Cheap.{whole};
ghost use Rattle.netting.specs.Netting.{worth, deviation};

// One, in a cheap factor: 2^31; and twice that.
const WHOLE: u64 = 2_147_483_648;

const TWICE: u64 = 4_294_967_296;

// What a net amount is worth at a cheap factor, rounded down.
pub fn worth(net: i64, factor: u64) -> i64
    requires { (nat_abs net ≤ 140_000_000_000_000_000) × (factor ≤ 2_147_483_648) }
    ensures { result ≡ worth factor net }
{
    (i128::from(net) * i128::from(factor) >> 31) as i64
}

// How far a flow's part in the value of netted flows may be from its present value.
#[tactic(auto, unfolding(crate::specs::Netting::deviation, crate::specs::Netting::moved, crate::specs::Netting::distance_up, cheap::specs::Cheap::whole, discount::specs::Discount::products, discount::specs::Discount::year))]
pub fn deviation(amount: u64, day: u64) -> u64
    requires { (amount ≤ 1_000_000_000_000) × (day ≤ last_day) }
    ensures { result ≡ deviation amount day }
{
    let products = day % 365 + day / 365;
    let distance = 16 + (9_700_000 * day / 365 + 2) / 1_048_576 + products * 44 / 10_000;
    (2 * amount * distance + 3 * WHOLE) / TWICE
}
