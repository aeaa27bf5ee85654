// The calendar over Date and the timestamps of kinds 13 to 15: year, month and day of a Date and back, a Duration added to an instant,
// and windows of instants. Proleptic Gregorian, with a year 0; every entry takes constant time.
#![tactic(auto)]

ghost use Rattle.std.specs.Prelude.{◌≡◌, ◌+◌, ◌*◌, ◌≤◌, ◌<◌, ◌^◌};
ghost use Rattle.std.proofs.Math.IntN.{sub_ℕ};
ghost use Rattle.base.specs.Refusal.{outcome_of};
ghost use Rattle.calendar.specs.Calendar.{civil_of};
ghost use Rattle.calendar.specs.Instants.{ranged, date_of, date_sum, stamp_sum, sum, is_instant, number_in, window_holds};
ghost use Rattle.calendar.specs.Origin.{epoch, counted_from};

use base::refusal::Refusal;
use duration::Duration;
use gregorian::{Counted, Instant};
use scalar::Scalar;

// A day by its year, month and day of the month.
#[derive(Clone, Copy)]
pub struct Civil {
    pub year: i32,
    pub month: u32,
    pub day: u32,
}

// 1 January 1970 and the year 0, counted from 1 January of the year -4,000,000,000.
const EPOCH: u64 = 1460970719528;

const YEAR_ZERO: u64 = 4000000000;

// ---- signed numbers, counted from an origin

// A number from -k on, counted from -k, and back.
fn from_i32(k: u64, z: i32) -> u64
    requires { (0x8000_0000 ≤ k) × (k < 2 ^ 42) }
    ensures { result ≡ counted_from k z }
{
    (k as i64 + z as i64) as u64
}

fn to_i32(k: u64, n: u64) -> i32
    requires { (k ≤ n + 0x8000_0000) × (n < k + 0x8000_0000) }
    ensures { result ≡ sub_ℕ n k }
{
    (n as i128 - k as i128) as i32
}

// A day so counted as a Date.
fn to_date(n: u64) -> Result<i32, Refusal>
    requires { n < 2 ^ 62 }
    ensures { outcome_of result ≡ ranged (2 ^ 31) (sub_ℕ n epoch) }
{
    i32::try_from(n as i64 - EPOCH as i64).or(Err(Refusal::OutsideCalendar))
}

// An instant of a timestamp, by its day and the part of the day.
fn split(u: u64, z: i64) -> Instant
    requires { (86400000 ≤ u) × (u ≤ 86400000000000) }
    ensures { (result.day * u + result.rest ≡ counted_from (epoch * u) z) × (result.day < 2 ^ 41) × (result.rest < u) }
{
    Instant {
        day: (EPOCH as i64 + z.div_euclid(u as i64)) as u64,
        rest: z.rem_euclid(u as i64) as u64,
    }
}

// And back.
fn join(u: u64, s: Instant) -> Result<i64, Refusal>
    requires { (86400000 ≤ u) × (u ≤ 86400000000000) × (s.rest < u) }
    ensures { outcome_of result ≡ ranged (2 ^ 63) (sub_ℕ (s.day * u + s.rest) (epoch * u)) }
{
    let days = s.day as i128 - EPOCH as i128;
    i64::try_from(days * u as i128 + s.rest as i128).or(Err(Refusal::OutsideCalendar))
}

// ---- the days of the calendar

// The year, month and day of a Date.
pub fn civil_of(date: i32) -> Civil
    ensures { result ≡ civil_of date }
{
    let c = gregorian::day_with(from_i32(EPOCH, date));
    Civil {
        year: to_i32(YEAR_ZERO, c.year),
        month: c.month as u32,
        day: c.day as u32,
    }
}

// The Date of a year, month and day. Refused, 27: the day isn't in the calendar, or outside Date.
pub fn date_of(civil: Civil) -> Result<i32, Refusal>
    ensures { outcome_of result ≡ date_of civil }
{
    let m = civil.month as u64;
    let d = civil.day as u64;
    let y = from_i32(YEAR_ZERO, civil.year);
    if !(1..=12).contains(&m) {
        return Err(Refusal::OutsideCalendar);
    }
    let last = gregorian::month_length(gregorian::is_leap(y), m);
    if !(1..=last).contains(&d) {
        return Err(Refusal::OutsideCalendar);
    }
    to_date(gregorian::number_of(Counted {
        year: y,
        month: m,
        day: d,
    }))
}

// ---- a Duration added

// To a Date: months, then days.
fn add_date(z: i32, d: Duration) -> Result<i32, Refusal>
    ensures { outcome_of result ≡ date_sum z d }
{
    let s = Instant {
        day: from_i32(EPOCH, z),
        rest: 0,
    };
    let r = gregorian::add_over(1, 0, s, d.months.0, d.days.0, 0);
    to_date(r.day)
}

// To a timestamp of p units to a millisecond: months, then days, then milliseconds.
fn add_stamp(p: u64, z: i64, d: Duration) -> Result<i64, Refusal>
    requires { (1 ≤ p) × (p ≤ 1000000) }
    ensures { outcome_of result ≡ stamp_sum p z d }
{
    let u = 86400000 * p;
    join(
        u,
        gregorian::add_over(u, p, split(u, z), d.months.0, d.days.0, d.millis.0),
    )
}

// Refused: 26 milliseconds added to a Date; 27 the outcome, or a step on the way, leaves the kind's range; 6 another kind.
pub fn add(instant: Scalar, duration: Duration) -> Result<Scalar, Refusal>
    ensures { outcome_of result ≡ sum instant duration }
{
    match instant {
        Scalar::Date(z) => {
            if duration.millis.0 != 0 {
                return Err(Refusal::MillisOnDate);
            }
            Ok(Scalar::Date(add_date(z, duration)?))
        }
        Scalar::TimestampMillis(z) => Ok(Scalar::TimestampMillis(add_stamp(1, z, duration)?)),
        Scalar::TimestampMicros(z) => Ok(Scalar::TimestampMicros(add_stamp(1000, z, duration)?)),
        Scalar::TimestampNanos(z) => Ok(Scalar::TimestampNanos(add_stamp(1000000, z, duration)?)),
        _ => Err(Refusal::Unsuited),
    }
}

// ---- windows

// Whether a kind's byte is that of a Date or of a timestamp of kinds 13 to 15.
fn is_instant(k: u8) -> bool
    ensures { result ≡ is_instant k }
{
    matches!(k, 0x10 | 0x13..=0x15)
}

// An instant's number, and 0 for any other kind.
fn number_in(s: Scalar) -> i64
    ensures { result ≡ number_in s }
{
    match s {
        Scalar::Date(z) => z as i64,
        Scalar::TimestampMillis(z) => z,
        Scalar::TimestampMicros(z) => z,
        Scalar::TimestampNanos(z) => z,
        _ => 0,
    }
}

// Whether the window from opening to before closing holds the instant. Refused, 6: other kinds, or mixed ones.
pub fn holds(opening: Scalar, closing: Scalar, instant: Scalar) -> Result<bool, Refusal>
    ensures { outcome_of result ≡ window_holds opening closing instant }
{
    let k = opening.kind();
    if !is_instant(k) || closing.kind() != k || instant.kind() != k {
        return Err(Refusal::Unsuited);
    }
    let window = number_in(opening)..number_in(closing);
    Ok(window.contains(&number_in(instant)))
}
