// The cheap factor: near document 01's at every rate and day, at a hundredth of its price.
#![tactic(auto)]

pub mod factor;
