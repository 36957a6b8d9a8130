// A record's 56 bytes as fields.
ghost use Rattle.std.specs.Prelude.{◌≡◌, length};
ghost use Rattle.record.specs.Bytes.{form_of, days_of, amounts_of, fields_of};

use crate::{Amounts, Days, Fields, Form};
use layout::{u16_at, u32_at, u64_at, wide};

#[tactic(auto, unfolding(crate::specs::Bytes::form_of))]
fn form_of(s: &[u8]) -> Form
    requires { length s.now ≡ 56 }
    ensures { result ≡ form_of s.now }
{
    Form {
        kind: wide(s[0]),
        side: wide(s[1]),
        phase: wide(s[2]),
        securitycurve: wide(s[3]),
        cashcurve: wide(s[4]),
        security: wide(s[5]),
        blank: u16_at(s, 6),
    }
}

#[tactic(auto, unfolding(crate::specs::Bytes::days_of))]
fn days_of(s: &[u8]) -> Days
    requires { length s.now ≡ 56 }
    ensures { result ≡ days_of s.now }
{
    Days {
        valueday1: u16_at(s, 8),
        valueday2: u16_at(s, 10),
        first: u16_at(s, 12),
        period: u16_at(s, 14),
        payments: u16_at(s, 16),
        term: u16_at(s, 18),
    }
}

#[tactic(auto, unfolding(crate::specs::Bytes::amounts_of))]
fn amounts_of(s: &[u8]) -> Amounts
    requires { length s.now ≡ 56 }
    ensures { result ≡ amounts_of s.now }
{
    Amounts {
        coupon: u32_at(s, 20),
        nominal: u64_at(s, 24),
        cash: u64_at(s, 32),
        price: u32_at(s, 40),
        accrued: u32_at(s, 44),
        index: u32_at(s, 48),
        issue: u32_at(s, 52),
    }
}

#[tactic(auto, unfolding(crate::specs::Bytes::fields_of))]
pub fn fields_of(s: &[u8]) -> Fields
    requires { length s.now ≡ 56 }
    ensures { result ≡ fields_of s.now }
{
    Fields {
        form: form_of(s),
        days: days_of(s),
        amounts: amounts_of(s),
    }
}
