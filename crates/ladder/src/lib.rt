// What an account has on a curve: a position, and beside it the curve's cash flow ladder, with its payments in turn, their net amounts, their
// values, and their total.
#![tactic(auto)]

pub mod kept;
pub mod net;
pub mod payments;
pub mod total;
pub mod valuing;

use curve::{Components, Curve};

// What an account has on a curve: the curve's id and currency, the curve with the components that stress it, and how many schedules its ladder has.
#[derive(Clone, Copy)]
pub struct Position {
    pub id: u64,
    pub currency: u64,
    pub curve: Curve,
    pub components: Components,
    pub schedules: usize,
}
