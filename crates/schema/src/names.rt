// The names of a record's fields: whether one stands twice. Each name leaves its mark in a slot of each of two tables; one
// whose mark is missing there is new, and only the others are looked for among the earlier fields.
ghost use Rattle.std.specs.Prelude.{◌≡◌, ◌<◌};
ghost use Rattle.text.specs.Measured.{Reads};
ghost use Rattle.frame.specs.Readers.{read_many, read_list};
ghost use Rattle.frame.specs.SchemaFrame.{read_field, read_schema, fields_of};
ghost use Rattle.frame.specs.Sound.{has_field};
ghost use Rattle.schema.specs.Parts.{names_differ, Says};
ghost use Rattle.schema.specs.Slot.{mark_of, marked, may_be};

use crate::skip::field_len;
use number::read2;

// The mark of a name.
fn name_mark(h: usize) -> u8
    ensures { result ≡ mark_of h }
{
    1 + (h % 251) as u8
}

// What a slot holds once a name with the mark v took it.
fn take(slot: u8, v: u8) -> u8
    ensures { result ≡ marked slot v }
{
    if slot == 0 || slot == v { v } else { 255 }
}

// Whether a slot may be that of a name with the mark v.
fn may_be(slot: u8, v: u8) -> bool
    ensures { result ≡ may_be slot v }
{
    slot == v || slot == 255
}

// Whether one of the n fields at the front of a part has the name.
fn has_field(s: &[u8], n: usize, name: &[u8], depth: usize) -> bool
    requires { Reads (read_many (read_field (read_schema depth)) n s.now) }
    ensures { Says (read_many (read_field (read_schema depth)) n s.now) (λ fs. has_field name.now (fields_of fs)) result }
{
    let mut at = 0;
    for _ in 0..n {
        let other = text::content(&s[at..]);
        if text::same(other, name) {
            return true;
        }
        at += field_len(&s[at..], depth);
    }
    false
}

// Whether the names of the fields of a record differ, by two tables of N slots each.
fn differ_by<const N: usize>(s: &[u8], depth: usize) -> bool
    requires { Reads (read_list (read_field (read_schema depth)) s.now) × (0 < N) }
    ensures { Says (read_list (read_field (read_schema depth)) s.now) names_differ result }
{
    let mut low = [0u8; N];
    let mut high = [0u8; N];
    let count = read2(s, 0) as usize;
    let mut at = 2;
    for done in 0..count {
        let name = text::content(&s[at..]);
        let h = text::hash(name);
        let j = h % N;
        let k = h / 1048576 % N;
        let v = name_mark(h);
        if may_be(low[j], v) && may_be(high[k], v) && has_field(&s[2..], done, name, depth) {
            return false;
        }
        low[j] = take(low[j], v);
        high[k] = take(high[k], v);
        at += field_len(&s[at..], depth);
    }
    true
}

// Whether the names of the fields of a record differ. The tables are small, since records in records may each hold two.
pub fn names_differ(s: &[u8], depth: usize) -> bool
    requires { Reads (read_list (read_field (read_schema depth)) s.now) }
    ensures { Says (read_list (read_field (read_schema depth)) s.now) names_differ result }
{
    if read2(s, 0) <= 256 {
        differ_by::<1024>(s, depth)
    } else {
        differ_by::<4096>(s, depth)
    }
}
