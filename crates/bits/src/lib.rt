// Conversions between numbers from bits to bits, each through the scalar; and the texts that are a Float.
#![tactic(auto)]

ghost use Rattle.std.specs.Prelude.{◌≡◌};
ghost use Rattle.scalar.specs.Conversion.{long_of_int, float_of_int, float_of_long, double_of_int, double_of_long, float_of_double, double_of_float, parse_special_float};
ghost use Rattle.scalar.specs.Scalars.{of_content, cast_content, float_cast};
ghost use Rattle.bits.specs.Special.{special_of};

use scalar::Scalar;

// A number's content as a Float, from content to content. The kind is an argument so that where it is
// known, as in each caller below, only its own way is compiled.
fn float_content(k: u8, b: u64) -> u64
    ensures { result ≡ cast_content (float_cast (of_content k b)) }
{
    scalar::content_or_zero(Scalar::of_content(k, b).to_float())
}

pub fn int_to_long(b: u32) -> u64
    ensures { result ≡ long_of_int b }
{
    scalar::content_or_zero(Scalar::of_int(b).to_long())
}

pub fn int_to_float(b: u32) -> u32
    ensures { result ≡ float_of_int b }
{
    float_content(0x02, b as u64) as u32
}

pub fn int_to_double(b: u32) -> u64
    ensures { result ≡ double_of_int b }
{
    scalar::content_or_zero(Scalar::of_int(b).to_double())
}

pub fn long_to_float(b: u64) -> u32
    ensures { result ≡ float_of_long b }
{
    float_content(0x03, b) as u32
}

pub fn long_to_double(b: u64) -> u64
    ensures { result ≡ double_of_long b }
{
    scalar::content_or_zero(Scalar::of_long(b).to_double())
}

pub fn float_to_float(b: u32) -> u32
    ensures { result ≡ b }
{
    float_content(0x04, b as u64) as u32
}

pub fn float_to_double(b: u32) -> u64
    ensures { result ≡ double_of_float b }
{
    scalar::content_or_zero(Scalar::of_float(b).to_double())
}

pub fn double_to_float(b: u64) -> u32
    ensures { result ≡ float_of_double b }
{
    float_content(0x05, b) as u32
}

pub fn double_to_double(b: u64) -> u64
    ensures { result ≡ b }
{
    scalar::content_or_zero(Scalar::of_double(b).to_double())
}

// The bits of the Float that a text stands for, if it is one of the five of no number.
pub fn parse_special_float(s: &[u8]) -> Option<u32>
    ensures { result ≡ special_of (parse_special_float s.now) }
{
    if text::same(s, b"NaN") {
        Some(0x7fc0_0000)
    } else if text::same(s, b"INF") || text::same(s, b"Infinity") {
        Some(0x7f80_0000)
    } else if text::same(s, b"-INF") || text::same(s, b"-Infinity") {
        Some(0xff80_0000)
    } else {
        None
    }
}
