// The blocks of trades changed, and the header's count of them: a record more, a gap closed, a block more or fewer.
#![tactic(auto)]

pub mod blocks;
pub mod steps;
