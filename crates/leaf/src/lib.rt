// A schema that has no child: its own resolve_ function, by the kind byte. What that function needs of the schema, a size
// or a precision, is read from the part behind the kind byte.
#![tactic(auto)]

ghost use Rattle.std.specs.Prelude.{◌≡◌, get_or};
ghost use Rattle.text.specs.Measured.{Reads};
ghost use Rattle.frame.specs.Kind;
ghost use Rattle.frame.specs.ValueFrame.{read_value};
ghost use Rattle.frame.specs.SchemaFrame.{read_schema};
ghost use Rattle.buffer.specs.Built.{Wrote};
ghost use Rattle.types.specs.Contract.{on_both};
ghost use Rattle.leaf.specs.Leaf.{Childless, peeled_bytes};

use base::refusal::Refusal;
use frame::kind;

fn leaf_fixed(s: &[u8], v: &[u8], out: &mut [u8], ds: usize, dv: usize) -> Result<usize, Refusal>
    requires { Reads (read_schema ds s.now) × Reads (read_value dv v.now) × (get_or s.now 0 0 ≡ Kind.Fixed) }
    ensures { Wrote (on_both peeled_bytes (read_schema ds s.now) (read_value dv v.now)) out.new result }
{
    octets::resolve_fixed(number::read2(s, 1) as usize, v, out, dv)
}

// Precision, scale, and the size if the decimal is on a fixed.
fn leaf_decimal(s: &[u8], v: &[u8], out: &mut [u8], ds: usize, dv: usize) -> Result<usize, Refusal>
    requires { Reads (read_schema ds s.now) × Reads (read_value dv v.now) × (get_or s.now 0 0 ≡ Kind.Decimal) }
    ensures { Wrote (on_both peeled_bytes (read_schema ds s.now) (read_value dv v.now)) out.new result }
{
    let precision = number::read4(s, 1);
    let scale = number::read4(s, 5);
    let size = if s[9] == 1 {
        Some(number::read2(s, 10) as usize)
    } else {
        None
    };
    octets::resolve_decimal(precision, scale, size, v, out, dv)
}

// The form byte: on bytes, on a string, or on a fixed.
fn leaf_uuid(s: &[u8], v: &[u8], out: &mut [u8], ds: usize, dv: usize) -> Result<usize, Refusal>
    requires { Reads (read_schema ds s.now) × Reads (read_value dv v.now) × (get_or s.now 0 0 ≡ Kind.Uuid) }
    ensures { Wrote (on_both peeled_bytes (read_schema ds s.now) (read_value dv v.now)) out.new result }
{
    match s[1] {
        0 => octets::resolve_uuid_bytes(v, out, dv),
        1 => octets::resolve_uuid_string(v, out, dv),
        _ => octets::resolve_uuid_fixed(number::read2(s, 2) as usize, v, out, dv),
    }
}

// The kinds with content, Bytes and String first; the others are resolved by their kind alone.
pub fn resolve_leaf(
    s: &[u8],
    v: &[u8],
    out: &mut [u8],
    ds: usize,
    dv: usize,
) -> Result<usize, Refusal>
    requires { Reads (read_schema ds s.now) × Reads (read_value dv v.now) × Childless s.now }
    ensures { Wrote (on_both peeled_bytes (read_schema ds s.now) (read_value dv v.now)) out.new result }
{
    let k = s[0];
    match k {
        kind::BYTES => bytewise::resolve_bytes(v, out, dv),
        kind::STRING => octets::resolve_string(v, out, dv),
        kind::ENUM => symbols::resolve_enum(s, ds, v, out, dv),
        kind::FIXED => leaf_fixed(s, v, out, ds, dv),
        kind::DECIMAL => leaf_decimal(s, v, out, ds, dv),
        kind::UUID => leaf_uuid(s, v, out, ds, dv),
        kind::DURATION => octets::resolve_duration(v, out, dv),
        _ => casts::resolve_plain(v, out, dv, k),
    }
}
