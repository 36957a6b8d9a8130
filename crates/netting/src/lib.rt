// Flows netted by day, and what the net amounts are worth at cheap factors.
#![tactic(auto)]

pub mod net;
pub mod value;
