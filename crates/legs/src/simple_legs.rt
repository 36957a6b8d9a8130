// A leg: none, one of one flow, and a leg by its sign.
ghost use Rattle.std.specs.Prelude.{◌≡◌};
ghost use Rattle.legs.specs.Runs.{no_leg, one_flow, signed_leg};

use crate::Leg;
use crate::signs::Direction;

pub fn no_leg() -> Leg
    ensures { result ≡ no_leg }
{
    Leg {
        curve: 0,
        received: true,
        first: 0,
        period: 0,
        count: 0,
        each: 0,
        last: 0,
    }
}

pub fn one_flow(curve: u64, day: u64, amount: u64) -> Leg
    ensures { result ≡ one_flow curve day amount }
{
    Leg {
        curve,
        received: true,
        first: day,
        period: 0,
        count: 1,
        each: amount,
        last: amount,
    }
}

// A leg whose flows go as its sign says.
#[tactic(auto, unfolding(crate::specs::Runs::signed_leg))]
pub fn signed_leg(sign: Option<Direction>, l: Leg) -> Leg
    ensures { result ≡ signed_leg sign l }
{
    match sign {
        Some(Direction::In) => Leg {
            received: true,
            ..l
        },
        Some(Direction::Out) => Leg {
            received: false,
            ..l
        },
        None => no_leg(),
    }
}
