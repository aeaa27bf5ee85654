// Schema nodes without children: what stands behind their kind byte.
ghost use Rattle.std.specs.Prelude.{◌≤◌, ◌<◌};
ghost use Rattle.text.specs.Read.{read_number, read_text};
ghost use Rattle.text.specs.Measured.{Measured};
ghost use Rattle.frame.specs.Kind;
ghost use Rattle.frame.specs.Readers.{read_list, read_option};
ghost use Rattle.schema_parts.specs.Leaf.{ChecksLeaf};

use frame::{Checked, kind};
use number::read2;
use text::text_len;

// A count and as many texts.
fn texts_measured(s: &[u8]) -> Option<usize>
    ensures { Measured (read_list read_text s.now) s.now result }
{
    if s.len() < 2 {
        return None;
    }
    let count = read2(s, 0);
    let mut at = 2;
    for _ in 0..count {
        at += text_len(&s[at..])?;
    }
    Some(at)
}

// 00, or 01 and a text.
fn option_text_len(s: &[u8]) -> Option<usize>
    ensures { Measured (read_option read_text s.now) s.now result }
{
    match s {
        [0, ..] => Some(1),
        [1, rest @ ..] => Some(1 + text_len(rest)?),
        _ => None,
    }
}

// 00, or 01 and a size.
fn option_size_len(s: &[u8]) -> Option<usize>
    ensures { Measured (read_option (read_number 2) s.now) s.now result }
{
    match s {
        [0, ..] => Some(1),
        [1, _, _, ..] => Some(3),
        _ => None,
    }
}

// Symbols and default.
fn enum_check(s: &[u8]) -> Option<Checked>
    ensures { ChecksLeaf Kind.Enum s.now result }
{
    let a = texts_measured(s)?;
    let b = option_text_len(&s[a..])?;
    Some(Checked {
        len: a + b,
        sound: true,
    })
}

// Precision, scale and size.
fn decimal_check(s: &[u8]) -> Option<Checked>
    ensures { ChecksLeaf Kind.Decimal s.now result }
{
    if s.len() < 8 {
        return None;
    }
    let m = option_size_len(&s[8..])?;
    Some(Checked {
        len: 8 + m,
        sound: true,
    })
}

fn fixed_check(s: &[u8]) -> Option<Checked>
    ensures { ChecksLeaf Kind.Fixed s.now result }
{
    if s.len() < 2 {
        return None;
    }
    Some(Checked {
        len: 2,
        sound: true,
    })
}

// The form of a UUID; one of fixed size has 16 bytes.
fn uuid_check(s: &[u8]) -> Option<Checked>
    ensures { ChecksLeaf Kind.Uuid s.now result }
{
    match s {
        [0 | 1, ..] => Some(Checked {
            len: 1,
            sound: true,
        }),
        [2, _, _, ..] => Some(Checked {
            len: 3,
            sound: read2(s, 1) == 16,
        }),
        _ => None,
    }
}

// The size of a Duration is 12.
fn duration_check(s: &[u8]) -> Option<Checked>
    ensures { ChecksLeaf Kind.Duration s.now result }
{
    if s.len() < 2 {
        return None;
    }
    Some(Checked {
        len: 2,
        sound: read2(s, 0) == 12,
    })
}

// The content of a kind that has no child nodes.
pub fn leaf_check(s: &[u8], kind: u8) -> Option<Checked>
    requires { Kind.Array ≤ kind → Kind.Record < kind }
    ensures { ChecksLeaf kind s.now result }
{
    match kind {
        kind::NULL..=kind::STRING | kind::DATE..=kind::LOCAL_TIMESTAMP_NANOS => Some(Checked {
            len: 0,
            sound: true,
        }),
        kind::ENUM => enum_check(s),
        kind::FIXED => fixed_check(s),
        kind::DECIMAL => decimal_check(s),
        kind::UUID => uuid_check(s),
        kind::DURATION => duration_check(s),
        _ => None,
    }
}
