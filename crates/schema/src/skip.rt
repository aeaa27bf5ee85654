// The lengths of schema nodes and fields that are known to be there. Only lengths, counts and flags are followed: no text, table
// or default is looked into again.
ghost use Rattle.text.specs.Measured.{Reads};
ghost use Rattle.frame.specs.Kind;
ghost use Rattle.frame.specs.Readers.{read_list};
ghost use Rattle.frame.specs.SchemaFrame.{read_field, read_schema_content, read_schema};
ghost use Rattle.frame.specs.Checks.{Spans};

use crate::plain::{default_skip, is_bare, leaf_skip, tables_skip};
use frame::kind;
use number::read2;
use text::content;

// The length of a schema node.
#[inline]
#[cycle(skipping)]
pub fn schema_len(s: &[u8], depth: usize) -> usize
    requires { Reads (read_schema depth s.now) }
    ensures { Spans (read_schema depth s.now) s.now result }
{
    let kind = s[0];
    if is_bare(kind) {
        return 1;
    }
    1 + content_skip(&s[1..], kind, depth - 1)
}

// What stands behind the kind byte. Not inlined, so that `schema_len` is short enough to be inlined where it is called, with its
// test for a node without content.
#[inline(never)]
#[cycle(skipping)]
fn content_skip(s: &[u8], kind: u8, depth: usize) -> usize
    requires { Reads (read_schema_content (read_schema depth) kind s.now) }
    ensures { Spans (read_schema_content (read_schema depth) kind s.now) s.now result }
{
    match kind {
        kind::ARRAY | kind::MAP => schema_len(s, depth),
        kind::UNION => union_skip(s, depth),
        kind::RECORD => fields_skip(s, depth),
        _ => leaf_skip(s, kind),
    }
}

// Variants and tables.
#[cycle(skipping)]
fn union_skip(s: &[u8], depth: usize) -> usize
    requires { Reads (read_schema_content (read_schema depth) Kind.Union s.now) }
    ensures { Spans (read_schema_content (read_schema depth) Kind.Union s.now) s.now result }
{
    let a = variants_skip(s, depth);
    a + tables_skip(&s[a..])
}

#[cycle(skipping)]
fn variants_skip(s: &[u8], depth: usize) -> usize
    requires { Reads (read_list (read_schema depth) s.now) }
    ensures { Spans (read_list (read_schema depth) s.now) s.now result }
{
    let count = read2(s, 0);
    let mut at = 2;
    for _ in 0..count {
        at += schema_len(&s[at..], depth);
    }
    at
}

#[cycle(skipping)]
fn fields_skip(s: &[u8], depth: usize) -> usize
    requires { Reads (read_list (read_field (read_schema depth)) s.now) }
    ensures { Spans (read_list (read_field (read_schema depth)) s.now) s.now result }
{
    let count = read2(s, 0);
    let mut at = 2;
    for _ in 0..count {
        at += field_len(&s[at..], depth);
    }
    at
}

// The length of a field: name, default and schema.
#[cycle(skipping)]
pub fn field_len(s: &[u8], depth: usize) -> usize
    requires { Reads (read_field (read_schema depth) s.now) }
    ensures { Spans (read_field (read_schema depth) s.now) s.now result }
{
    let name = content(s);
    let a = 2 + name.len();
    let e = a + default_skip(&s[a..]);
    e + schema_len(&s[e..], depth)
}
