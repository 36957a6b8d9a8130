// Discounting: the factor of a rate and a day, present values and how far they may be off.
#![tactic(auto)]

pub mod daily;
pub mod entry;
pub mod factor;
pub mod guess;
pub mod pair;
pub mod value;

// A dated cash flow of an account: on which curve it is discounted, on which day it falls, whether it is received or paid, and how much.
#[derive(Clone, Copy)]
pub struct Flow {
    pub curve: u64,
    pub day: u64,
    pub received: bool,
    pub amount: u64,
}
