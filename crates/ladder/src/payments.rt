// The schedules of a cash flow ladder as legs.
ghost use Rattle.std.specs.Prelude.{◌≡◌, ◌+◌, ◌*◌, ◌≤◌, length};
ghost use Rattle.ladder.specs.Ladder.{leg_at};

use legs::Leg;

// Schedule i as a leg on a curve. A schedule is six numbers and no struct, since `LadderLimits`, which every crate above asks for, says so.
pub fn leg_at(curve: u64, ladder: &[u64], i: usize) -> Leg
    requires { i * 6 + 6 ≤ length ladder.now }
    ensures { result ≡ leg_at curve ladder.now i }
{
    let at = i * 6;
    Leg {
        curve,
        received: ladder[at + 5] != 0,
        first: ladder[at],
        period: ladder[at + 1],
        count: ladder[at + 2],
        each: ladder[at + 3],
        last: ladder[at + 4],
    }
}
