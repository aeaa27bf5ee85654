// The ways into a union schema: its variants, its two tables, and the kinds that lead to them (src/schema/union.rs).
#![tactic(auto)]

ghost use Rattle.std.specs.Prelude.{◌≡◌, List, ◌∷◌, ◌++◌, ℕ, ◌+◌, ◌-◌, ◌*◌, ◌<◌, ◌≤◌, drop, get_or, length};
ghost use Rattle.number.specs.Number.{bytes_of, number_at};
ghost use Rattle.text.specs.Measured.{Reads};
ghost use Rattle.frame.specs.Tree.{schema_kind};
ghost use Rattle.frame.specs.Readers.{read_list};
ghost use Rattle.frame.specs.SchemaFrame.{read_lead, read_schema};
ghost use Rattle.buffer.specs.Built.{Built};
ghost use Rattle.avro.specs.Union.{must_be_tried, named_kind, table_lookup, unnamed_kind};
ghost use Rattle.variants.specs.Ways.{found_of, kind_table, named_table, wanted_of, Among, Numbers, OnRead, VariantAt, base_read, is_at, lookup_read};

use buffer::joined;
use frame::kind;
use schema::schema_len;

// Where the positions of named_index stand, and how many there are.
#[derive(Clone, Copy)]
pub struct Positions {
    pub at: usize,
    pub count: usize,
}

// value_to_base_schemakind: the base kind of the named variants to try for a value of kind k, if any are.
pub fn named_kind(k: u8) -> Option<u8>
    ensures { wanted_of result ≡ named_kind k }
{
    match k {
        kind::NULL..=kind::ARRAY => None,
        kind::MAP => Some(kind::RECORD),
        kind::UNION => None,
        kind::RECORD..=kind::FIXED => Some(k),
        kind::DECIMAL..=kind::UUID => Some(kind::FIXED),
        kind::DURATION => Some(kind::FIXED),
        _ => None,
    }
}

// value_to_base_schemakind: the kind to look up in variant_index for a value of kind k, if one is.
pub fn unnamed_kind(k: u8) -> Option<u8>
    ensures { wanted_of result ≡ unnamed_kind k }
{
    match k {
        kind::NULL..=kind::UNION => Some(k),
        kind::RECORD..=kind::FIXED => None,
        kind::DECIMAL => Some(kind::BYTES),
        kind::UUID => Some(kind::STRING),
        kind::DATE..=kind::TIME_MILLIS => Some(kind::INT),
        kind::TIME_MICROS..=kind::LOCAL_TIMESTAMP_NANOS => Some(kind::LONG),
        kind::DURATION => None,
        _ => Some(k),
    }
}

// schema_to_base_schemakind of the schema at the front.
pub fn base_kind(s: &[u8], depth: usize) -> u8
    requires { Reads (read_schema depth s.now) }
    ensures { result ≡ base_read (read_schema depth s.now) }
{
    let k = s[0];
    match k {
        kind::NULL..=kind::FIXED => k,
        kind::DECIMAL => {
            if s[9] == 0x00 {
                kind::BYTES
            } else {
                kind::FIXED
            }
        }
        kind::UUID => match s[1] {
            0x00 => kind::BYTES,
            0x01 => kind::STRING,
            _ => kind::FIXED,
        },
        kind::DATE..=kind::TIME_MILLIS => kind::INT,
        kind::TIME_MICROS..=kind::LOCAL_TIMESTAMP_NANOS => kind::LONG,
        _ => kind::FIXED,
    }
}

// Where a union's variant i stands; behind the last of them, where its kind table does.
pub fn variant_at(s: &[u8], i: usize, depth: usize) -> usize
    requires { Reads (read_schema depth s.now) × (get_or s.now 0 0 ≡ 10) × (i ≤ number_at s.now 1 2) }
    ensures { VariantAt depth s.now i result }
{
    let mut at: usize = 3;
    for _ in 0..i {
        at += schema_len(&s[at..], depth - 1);
    }
    at
}

// Where the positions of a union's named_index stand.
pub fn named_at(s: &[u8], depth: usize) -> Positions
    requires { Reads (read_schema depth s.now) × (get_or s.now 0 0 ≡ 10) }
    ensures { OnRead (λ t. Numbers s.now (named_table t) result) (read_schema depth s.now) }
{
    let n = number::read2(s, 1) as usize;
    let kinds = variant_at(s, n, depth);
    let k = number::read2(s, kinds) as usize;
    let named = kinds + 2 + 3 * k;
    let count = number::read2(s, named) as usize;
    Positions {
        at: named + 2,
        count,
    }
}

// Whether i is one of the n positions at a place.
pub fn stands_in(s: &[u8], at: usize, n: usize, i: usize) -> bool
    requires { at + 2 * n ≤ length s.now }
    ensures { Among s.now at n i result }
{
    for j in 0..n {
        if number::read2(s, at + 2 * j) as usize == i {
            return true;
        }
    }
    false
}

// Whether the place that was found is i.
pub fn is_at(found: Option<usize>, i: usize) -> bool
    ensures { result ≡ is_at found i }
{
    found == Some(i)
}

// The position that a kind table gives for a kind.
fn look_up(s: &[u8], kind: u8) -> Option<usize>
    requires { Reads (read_list read_lead s.now) }
    ensures { result ≡ found_of (lookup_read kind (read_list read_lead s.now)) }
{
    let count = number::read2(s, 0);
    let mut at: usize = 2;
    for _ in 0..count {
        if s[at] == kind {
            return Some(number::read2(s, at + 1) as usize);
        }
        at += 3;
    }
    None
}

// The position that a union's kind table gives for a kind, if there is one to look for.
pub fn table_position(s: &[u8], kind: Option<u8>, depth: usize) -> Option<usize>
    requires { Reads (read_schema depth s.now) × (get_or s.now 0 0 ≡ 10) }
    ensures { OnRead (λ t. result ≡ found_of (table_lookup (kind_table t) (wanted_of kind))) (read_schema depth s.now) }
{
    let k = kind?;
    let n = number::read2(s, 1) as usize;
    let at = variant_at(s, n, depth);
    look_up(&s[at..], k)
}

// Whether the kind of the schema at the front is one that is not taken untried.
pub fn is_tried(s: &[u8], depth: usize) -> bool
    requires { Reads (read_schema depth s.now) }
    ensures { OnRead (λ t. result ≡ must_be_tried (schema_kind t)) (read_schema depth s.now) }
{
    s[0] == kind::MAP || s[0] == kind::ARRAY
}

// Writes the kind and the index of a Union before what stands from the sixth byte on, m bytes.
pub fn put_index(out: &mut [u8], i: usize, m: usize) -> usize
    requires { (i < 65536) × (m ≤ 65536) }
    ensures { (c : List ℕ) → Built c (drop 5 out.old) m → Built (10 ∷ bytes_of 4 i ++ c) out.new result }
{
    let n = joined(5, m);
    if out.len() < 5 {
        return n;
    }
    out[0] = kind::UNION;
    number::put4(out, 1, i as u32);
    n
}
