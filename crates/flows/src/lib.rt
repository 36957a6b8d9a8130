// A trade's cash flows.
#![tactic(auto)]

pub mod amounts;
pub mod trade_legs;
pub mod verdict;
pub mod walk;
