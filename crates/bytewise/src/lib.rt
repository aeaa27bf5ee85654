// resolve_bytes and try_u8 of src/types.rs: a Bytes is kept, a String gives its bytes, and an Array of numbers gives a byte for
// each item.
#![tactic(auto)]

ghost use Rattle.std.specs.Prelude.{◌≡◌};
ghost use Rattle.base.specs.Refusal.{outcome_of};
ghost use Rattle.text.specs.Measured.{Reads};
ghost use Rattle.frame.specs.Readers.{read_list};
ghost use Rattle.frame.specs.ValueFrame.{read_value};
ghost use Rattle.buffer.specs.Built.{Wrote};
ghost use Rattle.types.specs.Types.{in_byte, int_byte, try_u8, resolve_bytes};
ghost use Rattle.types.specs.Contract.{encoded, on_read};
ghost use Rattle.bytewise.specs.Items.{items_as_bytes};

use base::refusal::Refusal;
use frame::kind;

// The content of an Int as a byte.
fn in_byte(n: u64) -> Result<u8, Refusal>
    ensures { outcome_of result ≡ in_byte n }
{
    u8::try_from(n).map_err(|_| Refusal::ItemOutsideByte)
}

// A value that is resolved as an Int, as a byte.
fn int_byte(v: &[u8], depth: usize) -> Result<u8, Refusal>
    requires { Reads (read_value depth v.now) }
    ensures { outcome_of result ≡ on_read int_byte (read_value depth v.now) }
{
    let s = casts::as_int(v, depth)?;
    in_byte(s.content())
}

// An item as a byte: of a Union, what it holds.
fn try_u8(v: &[u8], depth: usize) -> Result<u8, Refusal>
    requires { Reads (read_value depth v.now) }
    ensures { outcome_of result ≡ on_read try_u8 (read_value depth v.now) }
{
    if v[0] == kind::UNION {
        int_byte(&v[5..], depth - 1)
    } else {
        int_byte(v, depth)
    }
}

// A count and as many items as Bytes, up to the first item that is no byte.
fn byte_items(v: &[u8], out: &mut [u8], depth: usize) -> Result<usize, Refusal>
    requires { Reads (read_list (read_value depth) v.now) }
    ensures { Wrote (on_read (λ vs. encoded (items_as_bytes vs)) (read_list (read_value depth) v.now)) out.new result }
{
    let count = number::read2(v, 0);
    let h = [kind::BYTES, (count / 256) as u8, (count % 256) as u8];
    let mut n = buffer::put(out, &h);
    let mut at = 2;
    for _ in 0..count {
        let b = try_u8(&v[at..], depth)?;
        n = buffer::append(out, n, &[b]);
        at += value::value_len(&v[at..], depth);
    }
    Ok(n)
}

pub fn resolve_bytes(v: &[u8], out: &mut [u8], depth: usize) -> Result<usize, Refusal>
    requires { Reads (read_value depth v.now) }
    ensures { Wrote (on_read (λ w. encoded (resolve_bytes w)) (read_value depth v.now)) out.new result }
{
    match v[0] {
        kind::BYTES | kind::STRING => {
            Ok(octets::put_counted(out, kind::BYTES, octets::content(v)))
        }
        kind::ARRAY => byte_items(&v[1..], out, depth - 1),
        _ => Err(Refusal::Unsuited),
    }
}
