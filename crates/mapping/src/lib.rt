// Cash flow mapping: the segments of a curve's days, the bucket of a day in them, and net amounts mapped to the ends of their buckets.
#![tactic(auto)]

pub mod grid;
pub mod ranges;
pub mod segments;
