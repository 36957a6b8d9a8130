// Fields of a byte slice, read and written; bytes written over bytes.
// Every unsigned field is answered as a u64, so that no caller casts.
#![tactic(auto)]

pub mod check;

ghost use Rattle.std.specs.Prelude.{◌≡◌, ◌+◌, ◌<◌, ◌≤◌, length, unsigned_abs};
ghost use Rattle.layout.specs.Bytes.{put, zeros};
ghost use Rattle.layout.specs.Field.{u16_at, u32_at, u64_at, i32_at, bytes_of, twos};

pub fn wide(x: u8) -> u64
    ensures value { result ≡ x }
    ensures upper_bound { result < 256 }
{
    u64::from(x)
}

#[tactic(auto, unfolding(crate::specs::Field::number_at))]
pub fn u16_at(s: &[u8], at: usize) -> u64
    requires { at + 2 ≤ length s.now }
    ensures value { result ≡ u16_at s.now at }
    ensures upper_bound { result < 65536 }
{
    u64::from(u16::from_le_bytes([s[at], s[at + 1]]))
}

// A field of 32 bits as it is.
#[tactic(auto, unfolding(crate::specs::Field::number_at))]
fn word_at(s: &[u8], at: usize) -> u32
    requires { at + 4 ≤ length s.now }
    ensures { result ≡ u32_at s.now at }
{
    u32::from_le_bytes([s[at], s[at + 1], s[at + 2], s[at + 3]])
}

pub fn u32_at(s: &[u8], at: usize) -> u64
    requires { at + 4 ≤ length s.now }
    ensures value { result ≡ u32_at s.now at }
    ensures upper_bound { result < 4294967296 }
{
    u64::from(word_at(s, at))
}

#[tactic(auto, unfolding(crate::specs::Field::number_at))]
pub fn u64_at(s: &[u8], at: usize) -> u64
    requires { at + 8 ≤ length s.now }
    ensures { result ≡ u64_at s.now at }
{
    u64::from_le_bytes([
        s[at],
        s[at + 1],
        s[at + 2],
        s[at + 3],
        s[at + 4],
        s[at + 5],
        s[at + 6],
        s[at + 7],
    ])
}

// An i32 field, as an i64.
pub fn i32_at(s: &[u8], at: usize) -> i64
    requires { at + 4 ≤ length s.now }
    ensures value { result ≡ i32_at s.now at }
    ensures result_bound { unsigned_abs result ≤ 2147483648 }
{
    i64::from(word_at(s, at).cast_signed())
}

// Whether all bytes from one place up to, not including, another are 0.
pub fn zeros(s: &[u8], from: usize, to: usize) -> bool
    requires { (from ≤ to) × (to ≤ length s.now) }
    ensures { result ≡ zeros s.now from to }
{
    s[from..to].iter().all(|b| *b == 0)
}

// Writes the n low bytes of v, the lowest first: one writer for every width.
pub fn put_le(out: &mut [u8], at: usize, n: usize, v: u64)
    requires { at + n ≤ length out.old }
    ensures { out.new ≡ put out.old at (bytes_of n v) }
{
    let mut rest = v;
    for byte in out[at..at + n].iter_mut() {
        *byte = (rest % 256) as u8;
        rest /= 256;
    }
}

// Writes the n low bytes of a signed number in two's complement.
pub fn put_signed(out: &mut [u8], at: usize, n: usize, v: i64)
    requires { at + n ≤ length out.old }
    ensures { out.new ≡ put out.old at (bytes_of n (twos v)) }
{
    put_le(out, at, n, v.cast_unsigned());
}

// Copies all of src over dst from a place on.
pub fn copy_in(dst: &mut [u8], at: usize, src: &[u8])
    requires { at + length src.now ≤ length dst.old }
    ensures { dst.new ≡ put dst.old at src.now }
{
    dst[at..at + src.len()].copy_from_slice(src);
}
