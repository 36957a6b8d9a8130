// Which flows a trade has: a fixed table by kind, phase and side.
ghost use Rattle.std.specs.Prelude.{◌≡◌, ◌≤◌};
ghost use Rattle.legs.specs.Signs.{signs_of};

// Which way a leg's flows go.
#[derive(Clone, Copy, PartialEq, Eq, Debug)]
pub enum Direction {
    In,
    Out,
}

// The signs of a trade's flows: in, out, or None where there is no such flow.
#[derive(Clone, Copy, PartialEq, Eq, Debug)]
pub struct Signs {
    pub first: Option<Direction>,
    pub second: Option<Direction>,
    pub payments: Option<Direction>,
}

const IN: Option<Direction> = Some(Direction::In);

const OUT: Option<Direction> = Some(Direction::Out);

// The signs of side 1 and of side 2, where there are no flows.
const NO_FLOWS: [[Option<Direction>; 3]; 2] = [[None, None, None], [None, None, None]];

// First leg, second leg and payments, by kind, phase and side. What no trade can be has no flows.
static SIGNS: [[[[Option<Direction>; 3]; 2]; 4]; 3] = [
    // outright
    [
        // the buyer's settlement cash goes out, and the payments come in
        [[OUT, None, IN], [IN, None, OUT]],
        NO_FLOWS,
        NO_FLOWS,
        NO_FLOWS,
    ],
    // pool repo
    [
        NO_FLOWS,
        [[IN, OUT, None], [OUT, IN, None]],
        // payments while the security is away
        [[IN, OUT, OUT], [OUT, IN, IN]],
        [[None, OUT, IN], [None, None, None]], // the reverse-repo member has no flows here
    ],
    // specified repo
    [
        NO_FLOWS,
        [[IN, OUT, OUT], [OUT, IN, IN]], // the reverse-repo member gets what is paid while it has the security
        [[None, OUT, IN], [None, IN, OUT]],
        NO_FLOWS,
    ],
];

// By number: `rule` of the table is said of all 24 kinds, phases and sides, and what no trade can be has no flows.
pub fn signs_of(kind: u64, phase: u64, side: u64) -> Signs
    requires { (1 ≤ kind) × ((kind ≤ 3) × ((phase ≤ 3) × ((1 ≤ side) × (side ≤ 2)))) }
    ensures { result ≡ signs_of kind phase side }
{
    let [first, second, payments] = SIGNS[(kind - 1) as usize][phase as usize][(side - 1) as usize];
    Signs {
        first,
        second,
        payments,
    }
}
