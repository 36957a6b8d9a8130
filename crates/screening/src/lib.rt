// The scenarios that mapped amounts rule out: an estimate of each scenario, from every day only where mapped amounts leave it open.
#![tactic(auto)]

pub mod least;
pub mod low;
pub mod refine;
pub mod screen;
