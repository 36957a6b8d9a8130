// The check of a block of 512 bytes, and its place: one definition, specs/Check.antt, for whoever reads a block, writes one or makes a report.
ghost use Rattle.std.specs.Prelude.{◌≡◌, length};
ghost use Rattle.layout.specs.Check.{check_of, sealed, breaks_check, breaks_place};

use crate::{put_le, u16_at, wide, word_at};

// What a block holds, with the number that its first byte has.
#[derive(Clone, Copy, Debug, PartialEq, Eq)]
pub enum Kind {
    Header = 1,
    Curve = 2,
    Trades = 3,
    Report = 9,
}

#[tactic(auto, unfolding(crate::specs::Check::words))]
pub fn check_of(b: &[u8]) -> u32
    requires { length b.now ≡ 512 }
    ensures { result ≡ check_of b.now }
{
    let mut sum: u32 = 1;
    for i in 0..127 {
        sum = sum.wrapping_add(word_at(b, i * 4));
    }
    sum
}

// Ground 2: the block's last word is not its check.
#[tactic(auto, unfolding(crate::specs::Check::breaks_check))]
pub fn breaks_check(b: &[u8]) -> bool
    requires { length b.now ≡ 512 }
    ensures { result ≡ breaks_check b.now }
{
    word_at(b, 508) != check_of(b)
}

// Writes the check into the block's last word.
#[tactic(auto, unfolding(crate::specs::Check::sealed))]
pub fn seal(b: &mut [u8])
    requires { length b.old ≡ 512 }
    ensures { b.new ≡ sealed b.old }
{
    let sum = check_of(b);
    put_le(b, 508, 4, u64::from(sum));
}

// Ground 3: the kind or the number is not the one that the place calls for. Any number may be asked for: laws speak of every kind.
#[tactic(auto, unfolding(crate::specs::Check::breaks_place))]
pub fn breaks_place(b: &[u8], kind: u64, number: u64) -> bool
    requires { length b.now ≡ 512 }
    ensures { result ≡ breaks_place b.now kind number }
{
    (wide(b[0]) != kind) | (u16_at(b, 2) != number)
}
