// The grounds on which a call is refused, a refusal, and a limit that several crates share.
#![tactic(auto)]

ghost use Rattle.std.specs.Prelude.{◌≡◌};
ghost use Rattle.ground.specs.Number.{number_of};
ghost use Rattle.ground.specs.Space.{breaks_space};
ghost use Rattle.ground.specs.Verdicts.{unless};

// The last day of a field or flow.
pub const LAST_DAY: u64 = 10_950;

// A case for each rule of documents 01 and 02, with its number in them.
#[derive(Clone, Copy, Debug, PartialEq, Eq)]
pub enum Ground {
    Length = 1,
    Check = 2,
    Place = 3,
    Header = 4,
    Curve = 5,
    Node = 6,
    TradeBlock = 7,
    Form = 8,
    Days = 9,
    Amounts = 10,
    Currency = 11,
    FlowLimit = 12,
    ReportSpace = 13,
    Position = 14,
    BookSpace = 15,
    ValueRange = 16,
    CurveEnd = 17,
    RateRange = 18,
    ValuationDay = 19,
}

impl From<Ground> for u64 {
    ghost from_gives = { λ g n. n ≡ number_of g };

    fn from(g: Ground) -> u64 {
        g as u64
    }
}

// Why a call is refused: the first ground that applies, and the block that it was found in.
#[derive(Clone, Copy, Debug, PartialEq, Eq)]
pub struct Refusal {
    pub by: Ground,
    pub block: u64,
}

// Refused where a rule is broken.
pub fn refuse_if(broken: bool, by: Ground, block: u64) -> Result<(), Refusal>
    ensures { result ≡ unless broken by block (Ok tt) }
{
    if broken {
        return Err(Refusal { by, block });
    }
    Ok(())
}

// Ground 13, of a space for so many bytes.
pub fn breaks_space(needed: usize, space: usize) -> bool
    ensures { result ≡ breaks_space needed space }
{
    space < needed
}
