// What the content of a value node is made of, by its kind, and the leaves of a value.
#![tactic(auto)]

ghost use Rattle.std.specs.Prelude.{◌≡◌, ◌≤◌};
ghost use Rattle.text.specs.Measured.{Measured};
ghost use Rattle.frame.specs.Kind;
ghost use Rattle.frame.specs.Readers.{read_flag};
ghost use Rattle.frame.specs.ValueFrame.{kind_content};
ghost use Rattle.value_parts.specs.Shape.{shape, keyless};

use frame::{Checked, kind};

// What the content of a kind is made of.
#[derive(Clone, Copy)]
pub enum Shape {
    Fixed(usize),
    Flag,
    Counted,
    Text,
    Array,
    Map,
    Union,
    Entries,
    Symbol,
    Unknown,
}

// The shape of a kind's content.
pub fn shape_of(k: u8) -> Shape
    ensures { result ≡ shape (kind_content k) }
{
    // Measured: comparisons in this order and no match of the kinds, so that a leaf needs no jump table and saves no registers.
    if k <= kind::STRING {
        if k <= kind::NULL {
            return Shape::Fixed(0);
        }
        if k <= kind::BOOLEAN {
            return Shape::Flag;
        }
        if k <= kind::INT {
            return Shape::Fixed(4);
        }
        if k <= kind::LONG {
            return Shape::Fixed(8);
        }
        if k <= kind::FLOAT {
            return Shape::Fixed(4);
        }
        if k <= kind::DOUBLE {
            return Shape::Fixed(8);
        }
        if k <= kind::BYTES {
            return Shape::Counted;
        }
        return Shape::Text;
    }
    if k <= kind::ENUM {
        if k <= kind::ARRAY {
            return Shape::Array;
        }
        if k <= kind::MAP {
            return Shape::Map;
        }
        if k <= kind::UNION {
            return Shape::Union;
        }
        if k <= kind::RECORD {
            return Shape::Entries;
        }
        return Shape::Symbol;
    }
    if k <= kind::DECIMAL {
        return Shape::Counted;
    }
    if k <= kind::UUID {
        return Shape::Fixed(16);
    }
    if k <= kind::TIME_MILLIS {
        return Shape::Fixed(4);
    }
    if k <= kind::LOCAL_TIMESTAMP_NANOS {
        return Shape::Fixed(8);
    }
    if k <= kind::DURATION {
        return Shape::Fixed(12);
    }
    Shape::Unknown
}

// The length of a content that holds no map.
#[tactic(auto, unfolding(crate::specs::Shape::keyless))]
pub fn keyless_len(l: Option<usize>) -> Option<Checked>
    ensures { result ≡ keyless l }
{
    l.map(|len| Checked { len, sound: true })
}

// 00 or 01.
pub fn flag_len(s: &[u8]) -> Option<usize>
    ensures { Measured (read_flag s.now) s.now result }
{
    match s {
        [0 | 1, ..] => Some(1),
        _ => None,
    }
}
