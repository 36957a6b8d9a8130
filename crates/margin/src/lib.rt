// The margin of a book: per curve its base value, its worst loss and its tolerance; per currency initial, variation and total.
#![tactic(auto)]

pub mod choice;
pub mod estimates;
pub mod losses;
pub mod margins;

use ladder::Position;

// A position with its base value.
#[derive(Clone, Copy)]
pub struct ValuedPosition {
    pub position: Position,
    pub base: i64,
}

// The figures of a curve. Its currency stays a number, 1 to 3, and 0 in a place without a curve: the report has it in its bytes, and demand 3 (`Bounded`)
// is said of the currencies by number.
#[derive(Clone, Copy)]
pub struct CurveMargin {
    pub base: i64,
    pub worstloss: i64,
    pub scenario: u64,
    pub currency: u64,
    pub tolerance: u64,
}

// The figures of a currency.
#[derive(Clone, Copy)]
pub struct CurrencyMargin {
    pub initial: i64,
    pub variation: i64,
    pub total: i64,
}

// The margin of an account's book. Places of curves and currencies that the book does not have are 0.
#[derive(Clone, Copy)]
pub struct Margin {
    pub account: u64,
    pub curves: [CurveMargin; 8],
    pub currencies: [CurrencyMargin; 3],
}
