// A bond on a curve that gets one node more: its value by that node's rate, and the smallest rate at which it is worth at most some cash.
#![tactic(auto)]

pub mod rate;
pub mod value;
