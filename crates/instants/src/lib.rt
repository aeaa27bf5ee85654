// The calendar's entries in the forms that C has: instants and durations as value frames, days and Dates in slots of 32-bit numbers, and
// the answer as one signed number, a refusal's negated.
#![tactic(auto)]

ghost use Rattle.std.specs.Prelude.{◌≡◌, List, ℕ, pos, neg_ℤ, length, get_or};
ghost use Rattle.base.specs.Refusal.{number_of, outcome_of};
ghost use Rattle.std.proofs.Math.Option.{some};
ghost use Rattle.text.specs.Measured.{Reads};
ghost use Rattle.duration.specs.Duration.{duration_of};
ghost use Rattle.frame.specs.Kind;
ghost use Rattle.frame.specs.Tree.{Value, octets};
ghost use Rattle.frame.specs.ValueFrame.{read_value, encode_value};
ghost use Rattle.buffer.specs.After.{checked_result, buffer_after, code_for};
ghost use Rattle.types.specs.Contract.{value_of};
ghost use Rattle.instants.specs.Frames.{instant_in, frame_sum, sum_for, held_for, held_code, civil_for, date_in, date_for};

use base::refusal::Refusal;
use calendar::Civil;
use duration::Duration;
use frame::kind;
use scalar::Scalar;

// The number or the time that a node is; Int 0 for any other kind, which is no instant.
fn instant_in(v: &[u8]) -> Scalar
    requires { Reads (read_value 16 v.now) }
    ensures { (w : Value) (u : List ℕ) → read_value 16 v.now ≡ some (w, u) → result ≡ instant_in w }
{
    if scalar::is_scalar(v[0]) {
        casts::scalar_at(v, 16)
    } else {
        Scalar::Int(0)
    }
}

// The months, days and milliseconds of a Duration's node.
fn duration_in(v: &[u8]) -> Duration
    requires { Reads (read_value 16 v.now) × (get_or v.now 0 0 ≡ Kind.Duration) }
    ensures { (w : Value) (u : List ℕ) → read_value 16 v.now ≡ some (w, u) → result ≡ duration_of (octets w) }
{
    let mut b = [0u8; 12];
    buffer::copy(&mut b, &v[1..13]);
    Duration::from_bytes(b)
}

// The sum of an instant's frame and a Duration's: 5 for either, then 6, 26 or 27.
fn frame_sum(instant: &[u8], duration: &[u8]) -> Result<Scalar, Refusal>
    ensures { outcome_of result ≡ frame_sum instant.now duration.now }
{
    if !value::is_frame(instant) || !value::is_frame(duration) {
        return Err(Refusal::RecordNoFrame);
    }
    if duration[0] != kind::DURATION {
        return Err(Refusal::Unsuited);
    }
    calendar::add(instant_in(instant), duration_in(duration))
}

// A refusal's number, negated.
fn negated(e: Refusal) -> i32
    ensures { result ≡ neg_ℤ (pos (number_of e)) }
{
    -i32::from(e.number())
}

// A scalar's frame into the front of the buffer, if it fits: its length, or 18.
fn hand_out(s: Scalar, res: &mut [u8]) -> i32
    ensures answer { result ≡ code_for (checked_result (length res.old) (encode_value (value_of s))) }
    ensures contents { res.new ≡ buffer_after (checked_result (length res.old) (encode_value (value_of s))) res.old }
{
    let mut b = [0u8; 9];
    let n = casts::put_scalar(&mut b, s);
    if res.len() < n {
        return negated(Refusal::ResultTooLong);
    }
    buffer::copy(res, &b[..n]);
    n as i32
}

// A Duration added to an instant.
pub fn add(instant: &[u8], duration: &[u8], res: &mut [u8]) -> i32
    ensures answer { result ≡ code_for (sum_for instant.now duration.now (length res.old)) }
    ensures contents { res.new ≡ buffer_after (sum_for instant.now duration.now (length res.old)) res.old }
{
    match frame_sum(instant, duration) {
        Ok(s) => hand_out(s, res),
        Err(e) => negated(e),
    }
}

// Whether the window from opening to before closing holds an instant: 1 or 0.
pub fn holds(opening: &[u8], closing: &[u8], instant: &[u8]) -> i32
    ensures { result ≡ held_code (held_for opening.now closing.now instant.now) }
{
    if !value::is_frame(opening) || !value::is_frame(closing) || !value::is_frame(instant) {
        return negated(Refusal::RecordNoFrame);
    }
    match calendar::holds(
        instant_in(opening),
        instant_in(closing),
        instant_in(instant),
    ) {
        Ok(held) => i32::from(held),
        Err(e) => negated(e),
    }
}

// The year, month and day of a Date in the first three slots: 3, or 18.
pub fn civil(date: i32, slots: &mut [i32]) -> i32
    ensures answer { result ≡ code_for (civil_for date (length slots.old)) }
    ensures contents { slots.new ≡ buffer_after (civil_for date (length slots.old)) slots.old }
{
    if slots.len() < 3 {
        return negated(Refusal::ResultTooLong);
    }
    let c = calendar::civil_of(date);
    slots[0] = c.year;
    slots[1] = c.month as i32;
    slots[2] = c.day as i32;
    3
}

// The Date of a year, month and day, of which the last two may be below 0.
fn date_in(year: i32, month: i32, day: i32) -> Result<i32, Refusal>
    ensures { outcome_of result ≡ date_in year month day }
{
    if month < 0 || day < 0 {
        return Err(Refusal::OutsideCalendar);
    }
    calendar::date_of(Civil {
        year,
        month: month as u32,
        day: day as u32,
    })
}

// The Date of a year, month and day in the first slot: 1, or 27, then 18.
pub fn date(year: i32, month: i32, day: i32, slots: &mut [i32]) -> i32
    ensures answer { result ≡ code_for (date_for year month day (length slots.old)) }
    ensures contents { slots.new ≡ buffer_after (date_for year month day (length slots.old)) slots.old }
{
    match date_in(year, month, day) {
        Ok(z) => {
            if slots.is_empty() {
                return negated(Refusal::ResultTooLong);
            }
            slots[0] = z;
            1
        }
        Err(e) => negated(e),
    }
}
