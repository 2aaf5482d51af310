// Stamps: signed numbers of 64 bits and their bits, rounded-down division, and the date of any stamp.

#![tactic(auto)]

ghost use Rattle.std.specs.Prelude.{◌≡◌, pos, nat_abs, ◌+ℤ◌, ◌*ℤ◌, ◌<ℤ◌};
ghost use Prim.Native.Nat.{◌+◌, ◌-◌, ◌<◌, ◌^◌};
ghost use Rattle.std.specs.Int.Signed.{mag};
ghost use Rattle.rules.specs.Fields.{signed_of, bits_of};
ghost use Rattle.rules.specs.Dates.{floor_div, floor_mod, date_of, moment_of};
ghost use Rattle.rules.specs.Dates.Quick.{year_of, day_of, month_of, month_start, calendar_month, carry, date_at};
ghost use Rattle.rules.specs.Dates.Range.{InRange};
ghost use Rattle.stamps.specs.View.{date_view, moment_view};

// The signed number whose bits are `x`.
pub fn from_bits(x: u64) -> i64
    ensures { result ≡ signed_of x }
{
    x.cast_signed()
}

// The bits of `z`.
pub fn to_bits(z: i64) -> u64
    ensures { result ≡ bits_of z }
{
    z.cast_unsigned()
}

// The quotient of `a` by `b`, rounded down.
pub fn floor_div(a: i64, b: i64) -> i64
    requires { pos 0 <ℤ b }
    ensures { result ≡ floor_div a (nat_abs b) }
{
    a.div_euclid(b)
}

// What is left of `a` after that quotient: from 0 up to `b`.
// Kept: by the sign of `a`. `rem_euclid` takes no divisor from 2^63 on, and `!a`, which is -1 - a, needs no room.
pub fn floor_mod(a: i64, b: u64) -> u64
    requires { 0 < b }
    ensures { result ≡ floor_mod a b }
{
    if a < 0 {
        b - 1 - (!a) as u64 % b
    } else {
        a as u64 % b
    }
}

#[derive(Clone, Copy)]
pub struct Date {
    pub year: i64,
    pub month: u64,
    pub day: u64,
}

#[derive(Clone, Copy)]
struct YearDay {
    year: u64,
    day: u64,
}

// The year of a day of an era, and the day of that year.
fn year_day(e: u64) -> YearDay
    requires { e < 146097 }
    ensures { (result.year ≡ year_of e) × (result.day ≡ day_of e) }
{
    let c = (e / 36524).min(3);
    let r = e - 36524 * c;
    let y = (r % 1461 / 365).min(3);
    YearDay {
        year: 100 * c + 4 * (r / 1461) + y,
        day: r % 1461 - 365 * y,
    }
}

#[derive(Clone, Copy)]
struct MonthDay {
    month: u64,
    day: u64,
    carry: u64,
}

// The month of a day of a year, its day there, and how many years further the calendar's year is.
fn month_day(d: u64) -> MonthDay
    requires { d < 366 }
    ensures { (result.month ≡ calendar_month (month_of d)) × (result.day ≡ d - month_start (month_of d) + 1) × (result.carry ≡ carry (month_of d)) }
{
    let m = (5 * d + 2) / 153;
    let day = d - (153 * m + 2) / 5 + 1;
    if m < 10 {
        MonthDay {
            month: m + 3,
            day,
            carry: 0,
        }
    } else {
        MonthDay {
            month: m - 9,
            day,
            carry: 1,
        }
    }
}

fn year_at(era: i64, y: u64) -> i64
    requires { (mag era < 2 ^ 30) × (y < 1000) }
    ensures { result ≡ era *ℤ pos 400 +ℤ pos y }
{
    era * 400 + y as i64
}

fn date_at(era: i64, e: u64) -> Date
    requires { (mag era < 2 ^ 30) × (e < 146097) }
    ensures { date_view result ≡ date_at era e }
{
    let yd = year_day(e);
    let md = month_day(yd.day);
    Date {
        year: year_at(era, yd.year + md.carry),
        month: md.month,
        day: md.day,
    }
}

// The date of a day that is counted from 1970-01-01.
fn date_of(days: i64) -> Date
    requires { mag days < 2 ^ 40 }
    ensures { date_view result ≡ date_of days }
{
    let z = days + 719468;
    date_at(floor_div(z, 146097), floor_mod(z, 146097))
}

#[derive(Clone, Copy)]
pub struct Moment {
    pub date: Date,
    pub hour: u64,
    pub minute: u64,
    pub second: u64,
}

// The date and the time of day of any stamp; its parts are in range, as a writer of text needs them.
pub fn moment_of(stamp: i64) -> Moment
    ensures { (moment_view result ≡ moment_of stamp) × InRange (moment_view result) }
{
    let seconds = floor_div(stamp, 65536);
    let date = date_of(floor_div(seconds, 86400));
    let s = floor_mod(seconds, 86400);
    Moment {
        date,
        hour: s / 3600,
        minute: s / 60 % 60,
        second: s % 60,
    }
}
