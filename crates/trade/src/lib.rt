// A trade as an enum of its kinds, with the security inside, made from a record's fields.
#![tactic(auto)]

pub mod price;
pub mod read;

use price::Clean;

#[derive(Clone, Copy)]
pub struct SinglePayment {
    pub curve: u64,
    pub first: u64,
    pub nominal: u64,
}

// Payments from the first day on, `period` days apart. `coupon` is that of a period, in millionths.
#[derive(Clone, Copy)]
pub struct CouponBond {
    pub curve: u64,
    pub first: u64,
    pub nominal: u64,
    pub period: u64,
    pub payments: u64,
    pub coupon: u64,
}

// `index` is that at settlement, `issue` that at issue.
#[derive(Clone, Copy)]
pub struct IndexedBond {
    pub bond: CouponBond,
    pub index: u64,
    pub issue: u64,
}

#[derive(Clone, Copy)]
pub enum Security {
    Nothing,
    Single(SinglePayment),
    Coupons(CouponBond),
    Indexed(IndexedBond),
}

// A trade's side and phase are the numbers of its record: `trade_of` takes every record, and `trade-fields-trade` is said of every number.
#[derive(Clone, Copy)]
pub struct OutrightTrade {
    pub side: u64,
    pub cashcurve: u64,
    pub valueday1: u64,
    pub price: Clean,
    pub accrued: u64,
    pub security: Security,
}

#[derive(Clone, Copy)]
pub struct RepoTrade {
    pub side: u64,
    pub phase: u64,
    pub cashcurve: u64,
    pub valueday1: u64,
    pub valueday2: u64,
    pub term: u64,
    pub cash: u64,
    pub rate: u64,
    pub security: Security,
}

#[derive(Clone, Copy)]
pub enum Trade {
    Outright(OutrightTrade),
    Pool(RepoTrade),
    Specified(RepoTrade),
}
