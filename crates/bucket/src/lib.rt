// Buckets of days for cash flow mapping: the bucket that a day is in, and how far its discount factor may be from the line between those of the ends.
#![tactic(auto)]

pub mod buckets;
