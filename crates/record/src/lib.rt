// A trade record: its fields as numbers, and the rules on them.
#![tactic(auto)]

pub mod bytes;
pub mod rules;

// The largest amount.
pub const LARGEST: u64 = 1_000_000_000_000;

// What kind of trade it is, and the curves that it stands on; `blank` is bytes 6-7. These are the numbers that stand in a record's bytes,
// whatever they are: the rules 8 to 11 judge them, and a trade keeps its side and phase as they stand.
#[derive(Clone, Copy)]
pub struct Form {
    pub kind: u64,
    pub side: u64,
    pub phase: u64,
    pub securitycurve: u64,
    pub cashcurve: u64,
    pub security: u64,
    pub blank: u64,
}

// Its value days, first payment day, days between payments, number of payments and repo term.
#[derive(Clone, Copy)]
pub struct Days {
    pub valueday1: u64,
    pub valueday2: u64,
    pub first: u64,
    pub period: u64,
    pub payments: u64,
    pub term: u64,
}

// Its amounts and prices. `price` is the clean price or the repo rate; `index` is that at settlement, `issue` that at issue.
#[derive(Clone, Copy)]
pub struct Amounts {
    pub coupon: u64,
    pub nominal: u64,
    pub cash: u64,
    pub price: u64,
    pub accrued: u64,
    pub index: u64,
    pub issue: u64,
}

// The fields of a record.
#[derive(Clone, Copy)]
pub struct Fields {
    pub form: Form,
    pub days: Days,
    pub amounts: Amounts,
}

// What the rules know of the book's curves: how many there are, and the currency of curve id k at k - 1.
#[derive(Clone, Copy)]
pub struct Curves {
    pub count: u64,
    pub currency: [u64; 8],
}
