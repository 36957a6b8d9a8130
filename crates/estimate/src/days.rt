// The days of net amounts.
ghost use Rattle.std.specs.Prelude.{◌≡◌, ◌≤◌, length, take};
ghost use Rattle.netting.specs.Netting.{listed};

// Lists the days that have a net amount, in order, and answers how many they are. Each day is written, and only counted where it has one: so no branch
// waits on the amounts.
pub fn list_days(nets: &[i64], days: &mut [u16]) -> usize
    requires { (length nets.now ≤ length days.old) × (length nets.now ≤ 65_536) }
    ensures kept { length days.new ≡ length days.old }
    ensures list { (result ≤ length nets.now) × (take result days.new ≡ listed nets.now) }
{
    let mut count: usize = 0;
    for (day, net) in nets.iter().enumerate() {
        days[count] = day as u16;
        count += usize::from(*net != 0);
    }
    count
}
