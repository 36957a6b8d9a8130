// Arithmetic on amounts and factors that fits 64 bits: products of fixed-point numbers, and quotients rounded half up.
#![tactic(auto)]

pub mod product;
pub mod round;
