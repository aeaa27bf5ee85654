// The `resolve_` functions of src/types.rs for a String, a Fixed, a Decimal, a Uuid and a Duration: each takes a part that holds a value and
// writes the result into what is left of the result buffer.
#![tactic(auto)]

ghost use Rattle.std.specs.Prelude.{◌≡◌, List, ◌∷◌, ◌++◌, true, ℕ, ◌<◌, ◌≤◌, length, drop};
ghost use Rattle.base.specs.Base.{after};
ghost use Rattle.base.specs.Refusal.{number_of};
ghost use Rattle.number.specs.Number.{bytes_of};
ghost use Rattle.utf8.specs.Utf8.{is_utf8, code_points, all_latin1};
ghost use Rattle.text.specs.Measured.{Reads};
ghost use Rattle.text.specs.Read.{read_counted};
ghost use Rattle.uuid_text.specs.Uuid.{uuid_of_text};
ghost use Rattle.frame.specs.Kind;
ghost use Rattle.frame.specs.Tree.{UuidForm};
ghost use Rattle.frame.specs.ValueFrame.{read_value};
ghost use Rattle.buffer.specs.Built.{Built, Wrote};
ghost use Rattle.types.specs.Types.{resolve_string, resolve_fixed, resolve_decimal, resolve_uuid, resolve_duration, string_of_bytes, fixed_of_bytes, decimal_of_bytes, duration_of_bytes, fixed_too_short, text_points, uuid_of_bytes, parsed_uuid};
ghost use Rattle.types.specs.Contract.{encoded, option_of, on_read, points, HoldsBytes};

use base::refusal::Refusal;
use duration::Duration;
use frame::kind;

// The bytes behind a node's kind and length.
pub fn content(v: &[u8]) -> &[u8]
    requires { Reads (read_counted (drop 1 v.now)) }
    ensures { HoldsBytes v.now result.now }
{
    text::content(&v[1..])
}

// A node of a kind, a length and bytes.
pub fn put_counted(out: &mut [u8], kind: u8, t: &[u8]) -> usize
    requires { length t.now < 65536 }
    ensures { Built (kind ∷ (bytes_of 2 (length t.now) ++ t.now)) out.new result }
{
    let n = t.len();
    let h = [kind, (n / 256) as u8, (n % 256) as u8];
    let at = buffer::put(out, &h);
    buffer::append(out, at, t)
}

// A node of a kind and bytes, as many as its kind has.
pub fn put_plain(out: &mut [u8], kind: u8, t: &[u8]) -> usize
    ensures { Built (kind ∷ t.now) out.new result }
{
    let at = buffer::put(out, &[kind]);
    buffer::append(out, at, t)
}

fn string_of(t: &[u8], out: &mut [u8]) -> Result<usize, Refusal>
    requires { length t.now < 65536 }
    ensures { Wrote (encoded (string_of_bytes t.now)) out.new result }
{
    if utf8::is_utf8(t) {
        Ok(put_counted(out, kind::STRING, t))
    } else {
        Err(Refusal::NotUtf8)
    }
}

pub fn resolve_string(v: &[u8], out: &mut [u8], depth: usize) -> Result<usize, Refusal>
    requires { Reads (read_value depth v.now) }
    ensures { Wrote (on_read (λ w. encoded (resolve_string w)) (read_value depth v.now)) out.new result }
{
    match v[0] {
        kind::STRING => Ok(put_counted(out, kind::STRING, content(v))),
        kind::BYTES | kind::FIXED => string_of(content(v), out),
        _ => Err(Refusal::Unsuited),
    }
}

fn fixed_of(size: usize, t: &[u8], out: &mut [u8]) -> Result<usize, Refusal>
    requires { length t.now < 65536 }
    ensures { Wrote (encoded (fixed_of_bytes size t.now)) out.new result }
{
    if t.len() == size {
        Ok(put_counted(out, kind::FIXED, t))
    } else {
        Err(Refusal::SizeDiffers)
    }
}

pub fn resolve_fixed(size: usize, v: &[u8], out: &mut [u8], depth: usize) -> Result<usize, Refusal>
    requires { Reads (read_value depth v.now) }
    ensures { Wrote (on_read (λ w. encoded (resolve_fixed size w)) (read_value depth v.now)) out.new result }
{
    match v[0] {
        kind::STRING => fixed_of(size, content(v), out),
        kind::BYTES | kind::FIXED => fixed_of(size, content(v), out),
        _ => Err(Refusal::Unsuited),
    }
}

// 16 bytes are a UUID; any other length is refused.
fn uuid_of(refusal: Refusal, t: &[u8], out: &mut [u8]) -> Result<usize, Refusal>
    ensures { Wrote (encoded (uuid_of_bytes (number_of refusal) t.now)) out.new result }
{
    if t.len() == 16 {
        Ok(put_plain(out, kind::UUID, t))
    } else {
        Err(refusal)
    }
}

fn uuid_text(t: &[u8], out: &mut [u8]) -> Result<usize, Refusal>
    ensures { Wrote (encoded (parsed_uuid (uuid_of_text t.now))) out.new result }
{
    match uuid_text::parse_str(t) {
        Some(b) => Ok(put_plain(out, kind::UUID, &b)),
        None => Err(Refusal::UuidWrong),
    }
}

// resolve_uuid for a Uuid on bytes. There are three functions, one for each form, since each takes other kinds of values.
pub fn resolve_uuid_bytes(v: &[u8], out: &mut [u8], depth: usize) -> Result<usize, Refusal>
    requires { Reads (read_value depth v.now) }
    ensures { Wrote (on_read (λ w. encoded (resolve_uuid UuidForm.bytes w)) (read_value depth v.now)) out.new result }
{
    match v[0] {
        kind::UUID => Ok(put_plain(out, kind::UUID, &v[1..17])),
        kind::BYTES => uuid_of(Refusal::UuidWrong, content(v), out),
        _ => Err(Refusal::Unsuited),
    }
}

// resolve_uuid for a Uuid on a string.
pub fn resolve_uuid_string(v: &[u8], out: &mut [u8], depth: usize) -> Result<usize, Refusal>
    requires { Reads (read_value depth v.now) }
    ensures { Wrote (on_read (λ w. encoded (resolve_uuid UuidForm.string w)) (read_value depth v.now)) out.new result }
{
    match v[0] {
        kind::UUID => Ok(put_plain(out, kind::UUID, &v[1..17])),
        kind::STRING => uuid_text(content(v), out),
        _ => Err(Refusal::Unsuited),
    }
}

// resolve_uuid for a Uuid on a fixed, whose size is not looked at.
pub fn resolve_uuid_fixed(
    size: usize,
    v: &[u8],
    out: &mut [u8],
    depth: usize,
) -> Result<usize, Refusal>
    requires { Reads (read_value depth v.now) }
    ensures { Wrote (on_read (λ w. encoded (resolve_uuid (UuidForm.fixed size) w)) (read_value depth v.now)) out.new result }
{
    match v[0] {
        kind::UUID => Ok(put_plain(out, kind::UUID, &v[1..17])),
        kind::FIXED | kind::STRING => uuid_of(Refusal::SizeDiffers, content(v), out),
        _ => Err(Refusal::Unsuited),
    }
}

// 12 bytes as a Duration: its months, days and milliseconds are taken, and written.
fn put_duration(t: &[u8], out: &mut [u8]) -> usize
    requires { length t.now ≡ 12 }
    ensures { Built (Kind.Duration ∷ t.now) out.new result }
{
    let mut b = [0u8; 12];
    buffer::copy(&mut b, t);
    let d = Duration::from_bytes(b).to_bytes();
    put_plain(out, kind::DURATION, &d)
}

fn duration_of(t: &[u8], out: &mut [u8]) -> Result<usize, Refusal>
    ensures { Wrote (encoded (duration_of_bytes t.now)) out.new result }
{
    if t.len() == 12 {
        Ok(put_duration(t, out))
    } else {
        Err(Refusal::SizeDiffers)
    }
}

pub fn resolve_duration(v: &[u8], out: &mut [u8], depth: usize) -> Result<usize, Refusal>
    requires { Reads (read_value depth v.now) }
    ensures { Wrote (on_read (λ w. encoded (resolve_duration w)) (read_value depth v.now)) out.new result }
{
    match v[0] {
        kind::DURATION => Ok(put_duration(&v[1..13], out)),
        kind::FIXED => duration_of(content(v), out),
        _ => Err(Refusal::Unsuited),
    }
}

fn fixed_too_short(precision: u32, size: Option<usize>) -> bool
    ensures { result ≡ fixed_too_short precision (option_of size) }
{
    size.is_some_and(|size| decimal::too_short_for(precision, size))
}

fn decimal_of(precision: u32, t: &[u8], out: &mut [u8]) -> Result<usize, Refusal>
    requires { length t.now < 65536 }
    ensures { Wrote (encoded (decimal_of_bytes precision t.now)) out.new result }
{
    if decimal::too_short_for(precision, t.len()) {
        return Err(Refusal::BytesTooFew);
    }
    Ok(put_counted(out, kind::DECIMAL, t))
}

// A text's n code points, a byte for each, at the front of a slice, if they fit.
fn put_points(t: &[u8], n: usize, out: &mut [u8]) -> usize
    requires { (is_utf8 t.now ≡ true) × (all_latin1 (points t.now) ≡ true) × (n ≡ length (points t.now)) }
    ensures { Built (points t.now) out.new result }
{
    let r = buffer::room(n, 65536);
    if n <= out.len() {
        utf8::latin1(t, out);
        return r;
    }
    r
}

// A text's code points behind a result of `at` bytes.
fn append_points(t: &[u8], n: usize, out: &mut [u8], at: usize) -> usize
    requires { (is_utf8 t.now ≡ true) × (all_latin1 (points t.now) ≡ true) × (n ≡ length (points t.now)) × (at ≤ 65536) }
    ensures { (b : List ℕ) → Built b out.old at → Built (b ++ points t.now) out.new result }
{
    let o = buffer::room(at, out.len());
    let m = put_points(t, n, &mut out[o..]);
    buffer::joined(at, m)
}

// A text's n code points as a Decimal, a byte for each, where they are enough for the precision.
fn decimal_points(precision: u32, t: &[u8], n: usize, out: &mut [u8]) -> Result<usize, Refusal>
    requires { (is_utf8 t.now ≡ true) × (all_latin1 (points t.now) ≡ true) × (n ≡ length (points t.now)) × (length t.now < 65536) }
    ensures { Wrote (encoded (decimal_of_bytes precision (points t.now))) out.new result }
{
    if decimal::too_short_for(precision, n) {
        return Err(Refusal::BytesTooFew);
    }
    let h = [kind::DECIMAL, (n / 256) as u8, (n % 256) as u8];
    let at = buffer::put(out, &h);
    Ok(append_points(t, n, out, at))
}

// A text as a Decimal. A code point above 255, which is no byte, is refused before the precision is looked at.
fn decimal_text(precision: u32, t: &[u8], out: &mut [u8]) -> Result<usize, Refusal>
    requires { (is_utf8 t.now ≡ true) × (length t.now < 65536) }
    ensures { Wrote (encoded (after (text_points (code_points t.now)) (λ s. decimal_of_bytes precision s))) out.new result }
{
    match utf8::latin1_len(t) {
        Some(n) => decimal_points(precision, t, n, out),
        None => Err(Refusal::Unsuited),
    }
}

pub fn resolve_decimal(
    precision: u32,
    scale: u32,
    size: Option<usize>,
    v: &[u8],
    out: &mut [u8],
    depth: usize,
) -> Result<usize, Refusal>
    requires { Reads (read_value depth v.now) }
    ensures { Wrote (on_read (λ w. encoded (resolve_decimal precision scale (option_of size) w)) (read_value depth v.now)) out.new result }
{
    if precision < scale {
        return Err(Refusal::ScaleExceedsPrecision);
    }
    if fixed_too_short(precision, size) {
        return Err(Refusal::FixedTooSmall);
    }
    match v[0] {
        kind::DECIMAL => decimal_of(precision, content(v), out),
        kind::BYTES | kind::FIXED => decimal_of(precision, content(v), out),
        kind::STRING => decimal_text(precision, content(v), out),
        _ => Err(Refusal::Unsuited),
    }
}
