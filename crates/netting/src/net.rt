// A net amount with one flow more.
ghost use Rattle.std.specs.Prelude.{◌≡◌, ◌≤◌, nat_abs, ◌+ℤ◌};
ghost use Rattle.discount.specs.Flows.{signed};

use discount::Flow;

pub fn net_with(net: i64, f: Flow) -> i64
    requires { (nat_abs net ≤ 1_000_000_000_000_000_000) × (f.amount ≤ 1_000_000_000_000_000_000) }
    ensures { result ≡ net +ℤ signed f.received f.amount }
{
    let amount = f.amount as i64;
    if f.received {
        net + amount
    } else {
        net - amount
    }
}
