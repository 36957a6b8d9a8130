// The least of some values.
ghost use Rattle.std.specs.Prelude.{◌≤◌, ◌<◌, length};
ghost use Rattle.screening.specs.Screening.{Least};

// The place of the least of the first n values.
pub fn least_of(values: &[i64], n: u64) -> u64
    requires { (0 < n) × (n ≤ length values.now) }
    ensures { Least values.now n result }
{
    let mut least: u64 = 0;
    for s in 1..n {
        if values[s as usize] < values[least as usize] {
            least = s;
        }
    }
    least
}
