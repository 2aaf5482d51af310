// Text written into a lent output. Each function writes from a place on and returns the place behind what it wrote.

#![tactic(auto)]

ghost use Rattle.std.specs.Prelude.{◌≡◌, [], ◌∷◌, ◌++◌, ◌+◌, ◌-◌, ◌^◌, ◌≤◌, ◌<◌, length, nat_abs};
ghost use Rattle.std.specs.Int.Signed.{mag};
ghost use Rattle.rules.specs.Fields.{signed_of};
ghost use Rattle.rules.specs.Text.{digit, decimal, widened};
ghost use Rattle.rules.specs.Dates.{year_text, two_digits, moment_of, moment_text};
ghost use Rattle.rules.specs.Dates.Text.{date_text, time_text};
ghost use Rattle.text.specs.Wrote.{Wrote};

// One byte.
pub fn put_byte(out: &mut [u8], at: usize, b: u8) -> usize
    requires { at < length out.old }
    ensures { Wrote out.old at (b ∷ []) out.new result }
{
    out[at] = b;
    at + 1
}

// All of src: a part of the output is lent on.
pub fn put_bytes(out: &mut [u8], at: usize, src: &[u8]) -> usize
    requires { at + length src.now ≤ length out.old }
    ensures { Wrote out.old at src.now out.new result }
{
    let end = at + src.len();
    copying::copy_into(&mut out[at..end], src);
    end
}

fn digit_of(n: u64) -> u8
    ensures { result ≡ digit n }
{
    b'0' + (n % 10) as u8
}

// The number n in decimal, with zeros in front where it has fewer than w digits: the last digit stands behind those of n / 10.
pub fn put_number(out: &mut [u8], at: usize, n: u64, w: u64) -> usize
    requires { at + length (widened w (decimal n)) ≤ length out.old }
    ensures { Wrote out.old at (widened w (decimal n)) out.new result }
{
    let last = digit_of(n);
    if n < 10 && w < 2 {
        return put_byte(out, at, last);
    }
    let end = put_number(out, at, n / 10, w.saturating_sub(1));
    put_byte(out, end, last)
}

// Words, and then a number.
pub fn put_counted(out: &mut [u8], at: usize, words: &[u8], n: u64) -> usize
    requires { at + (length words.now + length (decimal n)) ≤ length out.old }
    ensures { Wrote out.old at (words.now ++ decimal n) out.new result }
{
    let end = put_bytes(out, at, words);
    put_number(out, end, n, 1)
}

// At least four digits, with a minus sign below 0.
pub fn put_year(out: &mut [u8], at: usize, year: i64) -> usize
    requires { at + length (year_text year) ≤ length out.old }
    ensures { Wrote out.old at (year_text year) out.new result }
{
    let n = year.unsigned_abs();
    if year < 0 {
        let end = put_byte(out, at, b'-');
        return put_number(out, end, n, 4);
    }
    put_number(out, at, n, 4)
}

// A mark and two digits.
fn put_two(out: &mut [u8], at: usize, mark: u8, n: u64) -> usize
    requires { (at + 3 ≤ length out.old) × (n < 100) }
    ensures { Wrote out.old at (mark ∷ two_digits n) out.new result × (result ≡ at + 3) }
{
    let end = put_byte(out, at, mark);
    put_number(out, end, n, 2)
}

fn put_date(out: &mut [u8], at: usize, year: i64, month: u64, day: u64) -> usize
    requires { (at + 20 ≤ length out.old) × (mag year < 2 ^ 40) × (month < 100) × (day < 100) }
    ensures { Wrote out.old at (date_text year month day) out.new result × (result ≤ at + 20) }
{
    let y = put_year(out, at, year);
    let m = put_two(out, y, b'-', month);
    put_two(out, m, b'-', day)
}

fn put_time(out: &mut [u8], at: usize, hour: u64, minute: u64, second: u64) -> usize
    requires { (at + 10 ≤ length out.old) × (hour < 100) × (minute < 100) × (second < 100) }
    ensures { Wrote out.old at (time_text hour minute second) out.new result × (result ≡ at + 10) }
{
    let h = put_two(out, at, b'T', hour);
    let m = put_two(out, h, b':', minute);
    let s = put_two(out, m, b':', second);
    put_byte(out, s, b'Z')
}

// The date and the time of a stamp, which is given as its 64 bits.
pub fn put_moment(out: &mut [u8], at: usize, stamp: u64) -> usize
    requires { at + 30 ≤ length out.old }
    ensures { Wrote out.old at (moment_text (moment_of (signed_of stamp))) out.new result × (result ≤ at + 30) }
{
    let m = stamps::moment_of(stamps::from_bits(stamp));
    let d = m.date;
    let end = put_date(out, at, d.year, d.month, d.day);
    put_time(out, end, m.hour, m.minute, m.second)
}
