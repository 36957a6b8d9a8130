// The cheap value of a curve's net amounts in every scenario: the loop that a margin spends its time in.
#![tactic(auto)]

pub mod days;
pub mod ends;
pub mod lines;
pub mod parts;
pub mod values;
