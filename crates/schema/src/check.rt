// Reading a schema node and checking all that number 3 stops. Broken anywhere wins over unsound anywhere.
ghost use Rattle.frame.specs.Kind;
ghost use Rattle.frame.specs.Readers.{read_list};
ghost use Rattle.frame.specs.SchemaFrame.{read_field, read_schema_content, read_schema};
ghost use Rattle.frame.specs.Sound.{schema_sound};
ghost use Rattle.frame.specs.Checks.{Checks};
ghost use Rattle.schema.specs.Parts.{field_sound, each_sound, no_unions};

use crate::names::names_differ;
use crate::plain::is_bare;
use frame::{Checked, kind};
use number::read2;
use schema_default::default_check;
use schema_parts::{leaf_check, tables_check};
use text::text_len;

// The schema node at the front of a part.
#[inline]
#[cycle(checking)]
pub fn schema_check(s: &[u8], depth: usize) -> Option<Checked>
    ensures { Checks schema_sound (read_schema depth s.now) s.now result }
{
    if depth == 0 || s.is_empty() {
        return None;
    }
    let kind = s[0];
    if is_bare(kind) {
        return Some(Checked {
            len: 1,
            sound: true,
        });
    }
    let content = content_check(&s[1..], kind, depth - 1)?;
    Some(Checked {
        len: 1 + content.len,
        ..content
    })
}

// What stands behind the kind byte. Not inlined, so that `schema_check` is short enough to be inlined where it is called, with its
// test for a node without content.
#[inline(never)]
#[cycle(checking)]
fn content_check(s: &[u8], kind: u8, depth: usize) -> Option<Checked>
    ensures { Checks schema_sound (read_schema_content (read_schema depth) kind s.now) s.now result }
{
    match kind {
        kind::ARRAY | kind::MAP => schema_check(s, depth),
        kind::UNION => union_check(s, depth),
        kind::RECORD => record_check(s, depth),
        _ => leaf_check(s, kind),
    }
}

// Variants and tables.
#[cycle(checking)]
fn union_check(s: &[u8], depth: usize) -> Option<Checked>
    ensures { Checks schema_sound (read_schema_content (read_schema depth) Kind.Union s.now) s.now result }
{
    let variants = variants_check(s, depth)?;
    let count = read2(s, 0) as usize;
    let tables = tables_check(&s[variants.len..], count)?;
    Some(Checked {
        len: variants.len + tables.len,
        sound: 0 < count && variants.sound && tables.sound,
    })
}

// Variants, none of which is a union.
#[cycle(checking)]
fn variants_check(s: &[u8], depth: usize) -> Option<Checked>
    ensures { Checks no_unions (read_list (read_schema depth) s.now) s.now result }
{
    if s.len() < 2 {
        return None;
    }
    let count = read2(s, 0);
    let mut at = 2;
    let mut sound = true;
    for _ in 0..count {
        let variant = schema_check(&s[at..], depth)?;
        sound &= variant.sound;
        sound &= s[at] != kind::UNION;
        at += variant.len;
    }
    Some(Checked { len: at, sound })
}

// Fields, each by itself and then their names.
#[cycle(checking)]
fn record_check(s: &[u8], depth: usize) -> Option<Checked>
    ensures { Checks schema_sound (read_schema_content (read_schema depth) Kind.Record s.now) s.now result }
{
    let fields = fields_check(s, depth)?;
    Some(Checked {
        sound: fields.sound && names_differ(s, depth),
        ..fields
    })
}

#[cycle(checking)]
fn fields_check(s: &[u8], depth: usize) -> Option<Checked>
    ensures { Checks each_sound (read_list (read_field (read_schema depth)) s.now) s.now result }
{
    if s.len() < 2 {
        return None;
    }
    let count = read2(s, 0);
    let mut at = 2;
    let mut sound = true;
    for _ in 0..count {
        let field = field_check(&s[at..], depth)?;
        sound &= field.sound;
        at += field.len;
    }
    Some(Checked { len: at, sound })
}

// Name, default and schema.
#[cycle(checking)]
fn field_check(s: &[u8], depth: usize) -> Option<Checked>
    ensures { Checks field_sound (read_field (read_schema depth) s.now) s.now result }
{
    let a = text_len(s)?;
    let default = default_check(&s[a..])?;
    let e = a + default.len;
    let schema = schema_check(&s[e..], depth)?;
    Some(Checked {
        len: e + schema.len,
        sound: default.sound && schema.sound,
    })
}
