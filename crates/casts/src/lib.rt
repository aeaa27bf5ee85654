// The `resolve_` functions of src/types.rs for Null, Boolean, the numbers, and the dates and times. A number or a time is read as a scalar,
// converted, and written as the scalar that comes out.
#![tactic(auto)]

ghost use Rattle.std.specs.Prelude.{◌≡◌, List, ◌∷◌, true, ℕ, ◌≤◌, ◌<◌, get_or};
ghost use Rattle.std.specs.Option.{ok_or};
ghost use Rattle.std.proofs.Math.Option.{some};
ghost use Rattle.text.specs.Read.{read_counted};
ghost use Rattle.text.specs.Measured.{Reads};
ghost use Rattle.scalar.specs.Conversion.{parse_special_float};
ghost use Rattle.scalar.specs.Scalars.{is_scalar};
ghost use Rattle.bits.specs.Special.{special_of};
ghost use Rattle.frame.specs.Tree.{Value};
ghost use Rattle.frame.specs.ValueFrame.{read_value, encode_value};
ghost use Rattle.buffer.specs.Built.{Built, Wrote};
ghost use Rattle.types.specs.Types.{resolve_null, resolve_boolean, resolve_int, resolve_long, float_of_bits, double_of_bits, resolve_float, resolve_double, resolve_plain};
ghost use Rattle.types.specs.Contract.{encoded, on_read, value_of, scalar_of, cast_outcome};

use base::refusal::Refusal;
use frame::kind;
use scalar::{CastError, Scalar};

// A node of a kind and a number, by the number's bytes.
fn put_node<const N: usize>(out: &mut [u8], kind: u8, number: [u8; N]) -> usize
    requires { N ≤ 8 }
    ensures { Built (kind ∷ number.entry) out.new result }
{
    let mut node = [kind; 9];
    node[1..N + 1].copy_from_slice(&number);
    buffer::put(out, &node[..N + 1])
}

// A scalar as a node.
pub fn put_scalar(out: &mut [u8], s: Scalar) -> usize
    ensures { Built (encode_value (value_of s)) out.new result }
{
    let k = s.kind();
    let n = s.content();
    if scalar::is_short(k) {
        put_node(out, k, ((n % 0x1_0000_0000) as u32).to_be_bytes())
    } else {
        put_node(out, k, n.to_be_bytes())
    }
}

// What a conversion gave: a node, or what stops the record.
fn put_cast(out: &mut [u8], cast: Result<Scalar, CastError>) -> Result<usize, Refusal>
    ensures { Wrote (encoded (cast_outcome cast)) out.new result }
{
    Ok(put_scalar(out, cast?))
}

// The number or the time that a node holds.
pub fn scalar_at(v: &[u8], depth: usize) -> Scalar
    requires { Reads (read_value depth v.now) × (is_scalar (get_or v.now 0 0) ≡ true) }
    ensures { (w : Value) (u : List ℕ) → read_value depth v.now ≡ some (w, u) → result ≡ scalar_of w }
{
    let k = v[0];
    if scalar::is_short(k) {
        Scalar::of_content(k, number::read4(v, 1) as u64)
    } else {
        Scalar::of_content(k, number::read8(v, 1))
    }
}

fn resolve_null(v: &[u8], out: &mut [u8], depth: usize) -> Result<usize, Refusal>
    requires { Reads (read_value depth v.now) }
    ensures { Wrote (on_read (λ w. encoded (resolve_null w)) (read_value depth v.now)) out.new result }
{
    if v[0] == kind::NULL {
        Ok(buffer::put(out, &v[..1]))
    } else {
        Err(Refusal::Unsuited)
    }
}

fn resolve_boolean(v: &[u8], out: &mut [u8], depth: usize) -> Result<usize, Refusal>
    requires { Reads (read_value depth v.now) }
    ensures { Wrote (on_read (λ w. encoded (resolve_boolean w)) (read_value depth v.now)) out.new result }
{
    if v[0] == kind::BOOLEAN {
        Ok(buffer::put(out, &v[..2]))
    } else {
        Err(Refusal::Unsuited)
    }
}

// A node as an Int.
pub fn as_int(v: &[u8], depth: usize) -> Result<Scalar, CastError>
    requires { Reads (read_value depth v.now) }
    ensures { (w : Value) (u : List ℕ) → read_value depth v.now ≡ some (w, u) → cast_outcome result ≡ resolve_int w }
{
    if scalar::is_scalar(v[0]) {
        scalar_at(v, depth).to_int()
    } else {
        Err(CastError::Unsuited)
    }
}

fn resolve_int(v: &[u8], out: &mut [u8], depth: usize) -> Result<usize, Refusal>
    requires { Reads (read_value depth v.now) }
    ensures { Wrote (on_read (λ w. encoded (resolve_int w)) (read_value depth v.now)) out.new result }
{
    put_cast(out, as_int(v, depth))
}

fn resolve_long(v: &[u8], out: &mut [u8], depth: usize) -> Result<usize, Refusal>
    requires { Reads (read_value depth v.now) }
    ensures { Wrote (on_read (λ w. encoded (resolve_long w)) (read_value depth v.now)) out.new result }
{
    if scalar::is_scalar(v[0]) {
        put_cast(out, scalar_at(v, depth).to_long())
    } else {
        Err(Refusal::Unsuited)
    }
}

// A Float as a node, unless it is a NaN.
fn put_float(out: &mut [u8], b: u32) -> Result<usize, Refusal>
    ensures { Wrote (encoded (float_of_bits b)) out.new result }
{
    if 0x7f80_0000 < b % 0x8000_0000 {
        return Err(Refusal::NotANumber);
    }
    Ok(put_node(out, kind::FLOAT, b.to_be_bytes()))
}

// A Double as a node, unless it is a NaN. Apart from a Float's: a function of both would need a trait with the kind and the infinity of each.
fn put_double(out: &mut [u8], b: u64) -> Result<usize, Refusal>
    ensures { Wrote (encoded (double_of_bits b)) out.new result }
{
    if 0x7ff0_0000_0000_0000 < b % 0x8000_0000_0000_0000 {
        return Err(Refusal::NotANumber);
    }
    Ok(put_node(out, kind::DOUBLE, b.to_be_bytes()))
}

// The bits of the Float that a text stands for: one of those that parse_special_float knows.
fn float_of_text(s: &[u8]) -> Result<u32, Refusal>
    requires { Reads (read_counted s.now) }
    ensures { (t u : List ℕ) → read_counted s.now ≡ some (t, u) → result ≡ ok_or (special_of (parse_special_float t)) Refusal.Unsuited }
{
    bits::parse_special_float(text::content(s)).ok_or(Refusal::Unsuited)
}

// To Float and to Double from each kind by itself: as one function, by way of a Scalar, they take twice the time.
fn resolve_float(v: &[u8], out: &mut [u8], depth: usize) -> Result<usize, Refusal>
    requires { Reads (read_value depth v.now) }
    ensures { Wrote (on_read (λ w. encoded (resolve_float w)) (read_value depth v.now)) out.new result }
{
    let b = match v[0] {
        kind::INT => bits::int_to_float(number::read4(v, 1)),
        kind::LONG => bits::long_to_float(number::read8(v, 1)),
        kind::FLOAT => bits::float_to_float(number::read4(v, 1)),
        kind::DOUBLE => bits::double_to_float(number::read8(v, 1)),
        kind::STRING => float_of_text(&v[1..])?,
        _ => return Err(Refusal::Unsuited),
    };
    put_float(out, b)
}

fn resolve_double(v: &[u8], out: &mut [u8], depth: usize) -> Result<usize, Refusal>
    requires { Reads (read_value depth v.now) }
    ensures { Wrote (on_read (λ w. encoded (resolve_double w)) (read_value depth v.now)) out.new result }
{
    let b = match v[0] {
        kind::INT => bits::int_to_double(number::read4(v, 1)),
        kind::LONG => bits::long_to_double(number::read8(v, 1)),
        kind::FLOAT => bits::float_to_double(number::read4(v, 1)),
        kind::DOUBLE => bits::double_to_double(number::read8(v, 1)),
        kind::STRING => bits::float_to_double(float_of_text(&v[1..])?),
        _ => return Err(Refusal::Unsuited),
    };
    put_double(out, b)
}

// resolve_date to resolve_local_timestamp_nanos, by the kind.
fn resolve_time(v: &[u8], out: &mut [u8], depth: usize, kind: u8) -> Result<usize, Refusal>
    requires { Reads (read_value depth v.now) × (0x10 ≤ kind) × (kind ≤ 0x18) }
    ensures { Wrote (on_read (λ w. encoded (resolve_plain kind w)) (read_value depth v.now)) out.new result }
{
    if scalar::is_scalar(v[0]) {
        put_cast(out, scalar_at(v, depth).to_time(kind))
    } else {
        Err(Refusal::Unsuited)
    }
}

// The resolution of a schema that is its kind alone. Bytes and String are not among these kinds.
pub fn resolve_plain(v: &[u8], out: &mut [u8], depth: usize, kind: u8) -> Result<usize, Refusal>
    requires { Reads (read_value depth v.now) × (kind ≤ 0x18) × (5 < kind → 0x10 ≤ kind) }
    ensures { Wrote (on_read (λ w. encoded (resolve_plain kind w)) (read_value depth v.now)) out.new result }
{
    match kind {
        kind::NULL => resolve_null(v, out, depth),
        kind::BOOLEAN => resolve_boolean(v, out, depth),
        kind::INT => resolve_int(v, out, depth),
        kind::LONG => resolve_long(v, out, depth),
        kind::FLOAT => resolve_float(v, out, depth),
        kind::DOUBLE => resolve_double(v, out, depth),
        _ => resolve_time(v, out, depth, kind),
    }
}
