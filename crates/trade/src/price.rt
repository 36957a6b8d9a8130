// The two prices of a bond, in millionths of its nominal. Only a dirty price settles.
ghost use Rattle.std.specs.Prelude.{◌≡◌, ◌≤◌};
ghost use Rattle.trade.specs.Prices.{dirty_of};

// The price that is quoted.
#[derive(Clone, Copy)]
pub struct Clean(pub u64);

// The price that is paid.
#[derive(Clone, Copy)]
pub struct Dirty(pub u64);

impl Clean {
    pub fn dirty(self, accrued: u64) -> Dirty
        requires { (self.0 ≤ 4_000_000) × (accrued ≤ 1_000_000) }
        ensures { result ≡ dirty_of self accrued }
    {
        Dirty(self.0 + accrued)
    }
}
