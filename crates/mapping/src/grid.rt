// The net amounts of a curve's days mapped to the ends of their buckets, less what that may be too much.
ghost use Rattle.std.specs.Prelude.{◌≡◌, ◌+◌, ◌*◌, ◌/◌, ◌≤◌, nat_abs, length};
ghost use Rattle.ground.specs.Limits.{day_count};
ghost use Rattle.curve.specs.Limits.{ProperCurve, ProperComponents};
ghost use Rattle.netting.specs.Netting.{no_nets, net_on, net_with, net_size};
ghost use Rattle.estimate.specs.Values.{Listed};
ghost use Rattle.bucket.specs.Mapped.{BucketLimits, first_flow, last_flow, excess_flow, net_flow};
ghost use Rattle.mapping.specs.Segments.{Grid};
ghost use Rattle.mapping.specs.Mapping.{mapped_nets, mapped_with, LowNets, most_mapped, Mappable, NetFlowLimits, MappedRoom};

use super::segments::{Segment, bucket_in, list_segments};
use bucket::buckets::Bucket;
use curve::{Components, Curve};
use discount::Flow;
use netting::net::net_with;

// A day's net amount as a flow.
fn net_flow(day: u64, net: i64) -> Flow
    requires { nat_abs net ≤ 1_000_000_000_000_000_000 }
    ensures { result ≡ net_flow day net }
{
    Flow {
        curve: 0,
        day,
        received: 0 <= net,
        amount: net.unsigned_abs(),
    }
}

// Adds a flow to the net amount of its day.
fn add_flow(nets: &mut [i64], f: Flow)
    requires { (length nets.old ≡ day_count) × NetFlowLimits f × (nat_abs (net_on nets.old f.day) ≤ 600_000_000_000_000_000) }
    ensures { nets.new ≡ net_with nets.old f }
{
    let day = f.day as usize;
    nets[day] = net_with(nets[day], f);
}

// What of a flow goes to the last day of its bucket.
#[tactic(auto, unfolding(bucket::specs::Mapped::last_part))]
fn last_flow(f: Flow, k: Bucket) -> Flow
    requires { NetFlowLimits f × BucketLimits k }
    ensures { result ≡ last_flow k f }
{
    Flow {
        day: k.last,
        amount: f.amount * k.gone / (k.gone + k.left),
        ..f
    }
}

// And what to the first: the rest.
fn first_flow(f: Flow, k: Bucket) -> Flow
    requires { NetFlowLimits f × BucketLimits k }
    ensures { result ≡ first_flow k f }
{
    Flow {
        day: k.first,
        amount: f.amount - last_flow(f, k).amount,
        ..f
    }
}

// amount * error / 2^32 + 1.
fn excess(amount: u64, error: u64) -> u64
    requires { (amount ≤ most_mapped) × (error ≤ 4_000_000) }
    ensures { result ≡ amount * error / 4_294_967_296 + 1 }
{
    (u128::from(amount) * u128::from(error) >> 32) as u64 + 1
}

// What the two may be worth too much, paid.
#[tactic(auto, unfolding(bucket::specs::Mapped::excess))]
fn excess_flow(f: Flow, k: Bucket) -> Flow
    requires { NetFlowLimits f × BucketLimits k }
    ensures { result ≡ excess_flow k f }
{
    Flow {
        day: k.first,
        received: false,
        amount: excess(f.amount, k.error),
        ..f
    }
}

// Adds a flow, mapped to the ends of its bucket.
fn add_mapped(nets: &mut [i64], f: Flow, k: Bucket)
    requires { MappedRoom nets.old × NetFlowLimits f × BucketLimits k }
    ensures { nets.new ≡ mapped_with nets.old f k }
{
    add_flow(nets, first_flow(f, k));
    add_flow(nets, last_flow(f, k));
    add_flow(nets, excess_flow(f, k));
}

// Adds the net amounts of some days to those of the ends of their buckets.
fn map_days(segments: &[Segment], days: &[u16], nets: &[i64], mapped: &mut [i64])
    requires { Grid segments.now × Mappable nets.now days.now × (mapped.old ≡ no_nets) }
    ensures { mapped.new ≡ mapped_nets segments.now nets.now days.now }
{
    for day in days {
        let at = usize::from(*day);
        let k = bucket_in(segments, at as u64);
        add_mapped(mapped, net_flow(at as u64, nets[at]), k);
    }
}

// The net amounts of a curve's listed days mapped to the ends of their buckets.
pub fn map_nets(
    curve: Curve,
    components: Components,
    days: &[u16],
    nets: &[i64],
    mapped: &mut [i64],
)
    requires { ProperCurve curve × ProperComponents components × Mappable nets.now days.now × (mapped.old ≡ no_nets) }
    ensures { LowNets curve components nets.now days.now mapped.new }
{
    let none = Segment {
        from: 0,
        until: 0,
        width: 0,
        highest: 0,
    };
    let mut segments = [none; 25];
    list_segments(curve, components, &mut segments);
    map_days(&segments[..curve.count + 1], days, nets, mapped);
}

// How much the net amounts of the listed days are, whatever their signs.
pub fn size_of(days: &[u16], nets: &[i64]) -> u64
    requires { Listed nets.now days.now }
    ensures { result ≡ net_size nets.now days.now }
{
    let mut sum: u64 = 0;
    for day in days {
        sum += nets[usize::from(*day)].unsigned_abs();
    }
    sum
}
