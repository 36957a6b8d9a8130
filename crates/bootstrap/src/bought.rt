// The bond of a quote as an outright trade.
ghost use Rattle.std.specs.Prelude.{◌≡◌, ◌≤◌};
ghost use Rattle.flows.specs.Limits.{SoundTrade};
ghost use Rattle.bootstrap.specs.Bought.{bond_fields, bond_trade, bond_payments};

use crate::Quote;
use legs::Leg;
use record::bytes::fields_of;
use record::{Amounts, Fields, Form};

#[tactic(auto, unfolding(crate::specs::Bought::bond_fields, crate::specs::Bought::bond_record))]
pub fn bond_fields(q: Quote) -> Fields
    ensures { result ≡ bond_fields q }
{
    let mut bytes = [0u8; 56];
    bytes[12..32].copy_from_slice(&q.bond);
    let f = fields_of(&bytes);
    let curve = q.curve as u64;
    let form = Form {
        kind: 1,
        side: 1,
        phase: 0,
        securitycurve: curve,
        cashcurve: curve,
        security: 2,
        blank: 0,
    };
    Fields {
        form,
        amounts: Amounts {
            price: 1,
            ..f.amounts
        },
        ..f
    }
}

// The payments of a bond that keeps the rules.
pub fn payments_of(q: Quote) -> Leg
    requires { SoundTrade (bond_trade q) × (1 ≤ (bond_payments q).count) }
    ensures { result ≡ bond_payments q }
{
    flows::trade_legs::capped_legs(trade::read::trade_of(bond_fields(q))).payments
}
