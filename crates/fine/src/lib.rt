// The fine factor, near document 01's to some units of 10^-12 at a hundredth of its price, and the present values that are known from it.
#![tactic(auto)]

pub mod bracket;
pub mod factor;
pub mod value;
