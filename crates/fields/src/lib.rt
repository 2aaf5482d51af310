// Little-endian fields, of four and eight bytes read at once and of every width written by one loop, and the checksum.

#![tactic(auto)]

ghost use Rattle.std.specs.Prelude.{◌≡◌, ◌+◌, ◌*◌, ◌%◌, ◌^◌, ◌≤◌, ◌<◌, length};
ghost use Rattle.rules.specs.Fields.{le, le_bytes, splice, signed_of, stamp_bytes, byte_sum, checks, checksum_of, up_to_zero};

use units::Offset;

// A byte as a number; that it is below 256 is said once, here.
pub fn wide(x: u8) -> u64
    ensures { (result ≡ x) × (result < 256) }
{
    u64::from(x)
}

// The bytes are written out, so that no part is cut out of s: the machine reads them at once then.
pub fn le64_at(s: &[u8], at: Offset) -> u64
    requires { at.0 + 8 ≤ length s.now }
    ensures { result ≡ le 8 s.now at.0 }
{
    let i = at.index();
    u64::from_le_bytes([
        s[i],
        s[i + 1],
        s[i + 2],
        s[i + 3],
        s[i + 4],
        s[i + 5],
        s[i + 6],
        s[i + 7],
    ])
}

pub fn le32_at(s: &[u8], at: Offset) -> u32
    requires { at.0 + 4 ≤ length s.now }
    ensures { result ≡ le 4 s.now at.0 }
{
    let i = at.index();
    u32::from_le_bytes([s[i], s[i + 1], s[i + 2], s[i + 3]])
}

// Writes the w lowest bytes of v from `at` on.
pub fn put_le(s: &mut [u8], at: Offset, w: usize, v: u64)
    requires { at.0 + w ≤ length s.old }
    ensures { s.new ≡ splice s.old at.0 (le_bytes w v) }
{
    let start = at.index();
    let end = start + w;
    let mut x = v;
    for byte in &mut s[start..end] {
        *byte = (x % 256) as u8;
        x /= 256;
    }
}

// A stamp by its bits. That they are below 2 ^ 64, as the rules' stamp has them, is said once, here.
pub fn put_stamp(s: &mut [u8], at: Offset, bits: u64)
    requires { at.0 + 8 ≤ length s.old }
    ensures { s.new ≡ splice s.old at.0 (stamp_bytes (signed_of bits)) }
{
    put_le(s, at, 8, bits);
}

// The sum of the bytes, modulo 256.
pub fn sum_of(s: &[u8]) -> u64
    ensures { result ≡ byte_sum s.now % 256 }
{
    let mut r: u8 = 0;
    for &b in s {
        r = r.wrapping_add(b);
    }
    u64::from(r)
}

// Whether the bytes sum to 0 modulo 256.
pub fn sums_to_zero(s: &[u8]) -> bool
    ensures { result ≡ checks s.now }
{
    sum_of(s) == 0
}

// The byte that makes these sum to 0 with it.
pub fn checksum(s: &[u8]) -> u8
    ensures { result ≡ checksum_of s.now }
{
    ((256 - sum_of(s)) % 256) as u8
}

// Where the first zero byte lies; the length where there is none.
pub fn zero_at(s: &[u8]) -> usize
    ensures { (result ≡ length (up_to_zero s.now)) × (result ≤ length s.now) }
{
    s.iter().position(|b| *b == 0).unwrap_or(s.len())
}
