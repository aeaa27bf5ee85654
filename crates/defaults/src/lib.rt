// Number 4: whether every default that its union's first variant accepts is at most 4,096 bytes there. A default is resolved
// against a variant whose own defaults are known to be short, so inner schemas come first.
#![tactic(auto)]

ghost use Rattle.std.specs.Prelude.{◌<◌, ◌^◌, ◌≡◌, get_or};
ghost use Rattle.frame.specs.ValueFrame.{read_value};
ghost use Rattle.frame.specs.SchemaFrame.{read_schema, read_field};
ghost use Rattle.frame.specs.Sound.{default_kinds, schema_sound};
ghost use Rattle.avro.specs.Resolve.{start_default};
ghost use Rattle.avro.specs.Defaults.{defaults_short, short_start};
ghost use Rattle.types.specs.Contract.{on_both};
ghost use Rattle.variants.specs.Ways.{Ready};
ghost use Rattle.schema.specs.Parts.{field_sound};
ghost use Rattle.defaults.specs.Shortness.{SoundRead, ShortLen, field_short, test_read};

use field::field_at;
use frame::kind;
use schema::schema_len;
use walk::{Walk, resolve_node};

// Whether every default of the schema is short. `out` is scratch: what it holds afterwards is not said.
pub fn defaults_short(s: &[u8], out: &mut [u8], ds: usize) -> bool
    requires { SoundRead schema_sound (read_schema ds s.now) }
    ensures { result ≡ test_read defaults_short (read_schema ds s.now) }
{
    short_len(s, out, ds).is_some()
}

// The length of a schema node, if its defaults are all short: whoever walks on need not measure it. Only a union is measured
// once it was walked, with the tables behind its variants.
#[cycle(shortness)]
fn short_len(s: &[u8], out: &mut [u8], ds: usize) -> Option<usize>
    requires { SoundRead schema_sound (read_schema ds s.now) }
    ensures { ShortLen defaults_short (read_schema ds s.now) s.now result }
{
    match s[0] {
        kind::ARRAY | kind::MAP => Some(1 + short_len(&s[1..], out, ds - 1)?),
        kind::UNION => {
            if variants_short(s, out, ds) {
                Some(schema_len(s, ds))
            } else {
                None
            }
        }
        kind::RECORD => fields_short(s, out, ds),
        _ => Some(schema_len(s, ds)),
    }
}

// The variants of a union.
#[cycle(shortness)]
fn variants_short(s: &[u8], out: &mut [u8], ds: usize) -> bool
    requires { SoundRead schema_sound (read_schema ds s.now) × (get_or s.now 0 0 ≡ 10) }
    ensures { result ≡ test_read defaults_short (read_schema ds s.now) }
{
    let mut at = 3;
    for _ in 0..number::read2(s, 1) {
        match short_len(&s[at..], out, ds - 1) {
            Some(n) => at += n,
            None => return false,
        }
    }
    true
}

// The length of a record, if its fields are all short.
#[cycle(shortness)]
fn fields_short(s: &[u8], out: &mut [u8], ds: usize) -> Option<usize>
    requires { SoundRead schema_sound (read_schema ds s.now) × (get_or s.now 0 0 ≡ 11) }
    ensures { ShortLen defaults_short (read_schema ds s.now) s.now result }
{
    let mut at = 3;
    for _ in 0..number::read2(s, 1) {
        at += field_short(&s[at..], out, ds - 1)?;
    }
    Some(at)
}

// The length of a field, if it is short: the defaults inside its schema come first, and then its own.
#[cycle(shortness)]
fn field_short(s: &[u8], out: &mut [u8], ds: usize) -> Option<usize>
    requires { SoundRead field_sound (read_field (read_schema ds) s.now) }
    ensures { ShortLen field_short (read_field (read_schema ds) s.now) s.now result }
{
    let f = field_at(s, ds);
    let at = f.schema_at;
    let end = at + short_len(&s[at..], out, ds)?;
    match f.default {
        Some(d) => start_short(&s[at..], &s[d..], out, ds).then_some(end),
        None => Some(end),
    }
}

// What the default d becomes in the first variant of s. A schema that is no union leaves it as it is, and a Null variant gives
// Null. Behind a union's count of variants, at 3, stands the first of them.
fn start_short(s: &[u8], d: &[u8], out: &mut [u8], ds: usize) -> bool
    requires { Ready ds s.now × SoundRead default_kinds (read_value 16 d.now) }
    ensures { result ≡ short_start (on_both start_default (read_schema ds s.now) (read_value 16 d.now)) }
{
    if s[0] != kind::UNION || s[3] == kind::NULL {
        return true;
    }
    let first = Walk {
        schema: ds - 1,
        value: 16,
    };
    match resolve_node(first, &s[3..], d, out) {
        Ok(n) => n <= 4096,
        Err(_) => true,
    }
}
