// The proleptic Gregorian calendar in constant time, over numbers from 0 on: years are counted from a year that is a multiple of 400, and
// days from its 1 January.
#![tactic(auto)]

ghost use Rattle.std.specs.Prelude.{◌≡◌, ◌+◌, ◌*◌, ◌≤◌, ◌<◌, ◌^◌};
ghost use Rattle.gregorian.specs.Rules.{year_length, month_length, month_start};
ghost use Rattle.gregorian.specs.Counted.{leap_at, years_to, Within, number_of, day_with, months_on, all_after};

// A day by its counted year, its month and its day of the month.
#[derive(Clone, Copy)]
pub struct Counted {
    pub year: u64,
    pub month: u64,
    pub day: u64,
}

// An instant by its day and the part of the day, of u units to a day.
#[derive(Clone, Copy)]
pub struct Instant {
    pub day: u64,
    pub rest: u64,
}

// ---- the rules

pub fn is_leap(y: u64) -> bool
    ensures { result ≡ leap_at y }
{
    y % 4 == 0 && (y % 100 != 0 || y % 400 == 0)
}

pub fn month_length(l: bool, m: u64) -> u64
    ensures { result ≡ month_length l m }
{
    match m {
        2 if l => 29,
        2 => 28,
        4 | 6 | 9 | 11 => 30,
        _ => 31,
    }
}

// ---- the count of days

// Of all years before a year.
fn year_start(y: u64) -> u64
    requires { y < 2 ^ 40 }
    ensures { result ≡ years_to y }
{
    365 * y + (y + 3) / 4 + (y + 399) / 400 - (y + 99) / 100
}

// Of the first k months of a year. Were February 30 days long, they would be (367 k + 5) / 12.
fn month_start(l: bool, k: u64) -> u64
    requires { k ≤ 12 }
    ensures { result ≡ month_start l k }
{
    let t = (367 * k + 5) / 12;
    if k < 2 {
        t
    } else if l {
        t - 1
    } else {
        t - 2
    }
}

// ---- the day with a number

// Its year. 400 years have 146,097 days; the guess is at most one too high.
fn year_at(n: u64) -> u64
    requires { n < 2 ^ 42 }
    ensures { (years_to result ≤ n) × (n < years_to (result + 1)) × (result < 2 ^ 40) }
{
    let y = 400 * (n + 1) / 146097;
    if year_start(y) <= n { y } else { y - 1 }
}

// How many months of its year are before it, by the day's place in the year. The guess is at most one too low.
fn month_at(l: bool, d: u64) -> u64
    requires { d < year_length l }
    ensures { (month_start l result ≤ d) × (d < month_start l (result + 1)) × (result < 12) }
{
    let k = d / 32;
    if month_start(l, k + 1) <= d { k + 1 } else { k }
}

// Both together.
pub fn day_with(n: u64) -> Counted
    requires { n < 2 ^ 42 }
    ensures { result ≡ day_with n }
{
    let y = year_at(n);
    let l = is_leap(y);
    let d = n - year_start(y);
    let k = month_at(l, d);
    Counted {
        year: y,
        month: k + 1,
        day: d - month_start(l, k) + 1,
    }
}

// The number of a day.
pub fn number_of(c: Counted) -> u64
    requires { Within c × (c.year < 2 ^ 40) }
    ensures { result ≡ number_of c }
{
    let l = is_leap(c.year);
    year_start(c.year) + month_start(l, c.month - 1) + (c.day - 1)
}

// ---- addition

// Months are added. A day past the end of the month becomes its last day.
fn months_on(c: Counted, k: u32) -> Counted
    requires { Within c × (c.year < 2 ^ 39) }
    ensures { result ≡ months_on c k }
{
    let t = c.month - 1 + (k as u64);
    let y = c.year + t / 12;
    let m = t % 12 + 1;
    let last = month_length(is_leap(y), m);
    Counted {
        year: y,
        month: m,
        day: c.day.min(last),
    }
}

// A duration is added, of p units to a millisecond: months, then days, then milliseconds.
pub fn add_over(u: u64, p: u64, s: Instant, months: u32, days: u32, millis: u32) -> Instant
    requires { (0 < u) × (u ≤ 86400000000000) × (p ≤ 1000000) × (s.day < 2 ^ 41) × (s.rest < u) }
    ensures { (result.day * u + result.rest ≡ all_after u p (s.day * u + s.rest) months days millis) × (result.day < 2 ^ 54) × (result.rest < u) }
{
    let day = s.day;
    let c = months_on(day_with(day), months);
    let n = number_of(c) + (days as u64);
    let t = s.rest + (millis as u64) * p;
    Instant {
        day: n + t / u,
        rest: t % u,
    }
}
