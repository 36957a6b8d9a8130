// The segments of days of a curve: those before its first node, from each node to the next, and from the last on. The rates of a segment are straight in every
// scenario.
ghost use Rattle.std.specs.Prelude.{◌≡◌, ◌+◌, length, take};
ghost use Rattle.curve.specs.Limits.{ProperCurve, ProperComponents};
ghost use Rattle.mapping.specs.Segments.{segment_of, Segments, SegmentsLimits, bucket_in};

use super::ranges::{Range, range_of};
use bucket::buckets::{Bucket, alone, bucket_on};
use curve::{Components, Curve};

// The days from one to before another: how far their rates move at most, and how high they are at most.
#[derive(Clone, Copy)]
pub struct Segment {
    pub from: u64,
    pub until: u64,
    pub width: u64,
    pub highest: u64,
}

impl Segment {
    fn new(from: u64, until: u64, range: Range) -> Segment
        ensures { result ≡ segment_of from until range }
    {
        Segment {
            from,
            until,
            width: range.width,
            highest: range.highest,
        }
    }
}

// Lists the segments of a curve: one more than its nodes.
pub fn list_segments(curve: Curve, components: Components, segments: &mut [Segment])
    requires { ProperCurve curve × ProperComponents components × (length segments.old ≡ 25) }
    ensures kept { length segments.new ≡ length segments.old }
    ensures each { Segments curve components (take (curve.count + 1) segments.new) }
{
    let first = curve.nodes[0];
    segments[0] = Segment::new(0, first.day, range_of(first, first, components));
    for i in 1..curve.count {
        let a = curve.nodes[i - 1];
        let b = curve.nodes[i];
        segments[i] = Segment::new(a.day, b.day, range_of(a, b, components));
    }
    let last = curve.nodes[curve.count - 1];
    segments[curve.count] = Segment::new(last.day, 10_951, range_of(last, last, components));
}

// The bucket of a day.
pub fn bucket_in(segments: &[Segment], day: u64) -> Bucket
    requires { SegmentsLimits segments.now }
    ensures { result ≡ bucket_in segments.now day }
{
    for segment in segments {
        if day < segment.until {
            return bucket_on(
                segment.from,
                segment.until,
                segment.width,
                segment.highest,
                day,
            );
        }
    }
    alone(day)
}
