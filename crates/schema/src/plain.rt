// The lengths of parts of schema nodes that hold no node and are known to be there.
ghost use Rattle.std.specs.Prelude.{◌≡◌, List, ◌≤◌, ◌<◌};
ghost use Rattle.text.specs.Read.{read_number, read_text};
ghost use Rattle.text.specs.Measured.{Reads};
ghost use Rattle.frame.specs.Kind;
ghost use Rattle.frame.specs.Tree.{Schema};
ghost use Rattle.frame.specs.Readers.{read_list, read_option};
ghost use Rattle.frame.specs.ValueFrame.{read_value};
ghost use Rattle.frame.specs.SchemaFrame.{Form, bare, read_lead, read_tables, read_symbols, read_uuid_form, read_schema_content, read_schema};
ghost use Rattle.frame.specs.Checks.{Spans};

use frame::{kind, texts_len};
use number::read2;
use text::content;
use value::value_len;

// Whether a kind has no content: most fields of a record are of such a kind.
pub fn is_bare(kind: u8) -> bool
    ensures { result ≡ bare kind }
{
    matches!(kind, kind::NULL..=kind::STRING | kind::DATE..=kind::LOCAL_TIMESTAMP_NANOS)
}

// 00, or 01 and a value.
pub fn default_skip(s: &[u8]) -> usize
    requires { Reads (read_option (read_value 16) s.now) }
    ensures { Spans (read_option (read_value 16) s.now) s.now result }
{
    if s[0] == 0 {
        1
    } else {
        1 + value_len(&s[1..], 16)
    }
}

// 00, or 01 and a text.
fn option_text_skip(s: &[u8]) -> usize
    requires { Reads (read_option read_text s.now) }
    ensures { Spans (read_option read_text s.now) s.now result }
{
    if s[0] == 0 {
        1
    } else {
        3 + content(&s[1..]).len()
    }
}

// Symbols and default.
pub fn enum_skip(s: &[u8]) -> usize
    requires { Reads (read_symbols s.now) }
    ensures { Spans (read_symbols s.now) s.now result }
{
    let a = texts_len(s);
    a + option_text_skip(&s[a..])
}

// 00, or 01 and a size.
fn option_size_skip(s: &[u8]) -> usize
    requires { Reads (read_option (read_number 2) s.now) }
    ensures { Spans (read_option (read_number 2) s.now) s.now result }
{
    if s[0] == 0 { 1 } else { 3 }
}

// The form of a UUID, and the size of a fixed one.
fn uuid_skip(s: &[u8]) -> usize
    requires { Reads (read_uuid_form s.now) }
    ensures { Spans (read_uuid_form s.now) s.now result }
{
    if s[0] == 2 { 3 } else { 1 }
}

// The content of a kind without child nodes.
pub fn leaf_skip(s: &[u8], kind: u8) -> usize
    requires { (Kind.Array ≤ kind → Kind.Record < kind) × Reads (read_schema_content (read_schema 0) kind s.now) }
    ensures { Spans (read_schema_content (read_schema 0) kind s.now) s.now result }
{
    match kind {
        kind::ENUM => enum_skip(s),
        kind::FIXED => 2,
        kind::DECIMAL => 8 + option_size_skip(&s[8..]),
        kind::UUID => uuid_skip(s),
        kind::DURATION => 2,
        _ => 0,
    }
}

// The kind table: 3 bytes for each entry.
fn leads_skip(s: &[u8]) -> usize
    requires { Reads (read_list read_lead s.now) }
    ensures { Spans (read_list read_lead s.now) s.now result }
{
    2 + 3 * (read2(s, 0) as usize)
}

// The named positions: 2 bytes for each.
fn positions_skip(s: &[u8]) -> usize
    requires { Reads (read_list (read_number 2) s.now) }
    ensures { Spans (read_list (read_number 2) s.now) s.now result }
{
    2 + 2 * (read2(s, 0) as usize)
}

// Both tables.
pub fn tables_skip(s: &[u8]) -> usize
    requires { (vs : List Schema) × Reads (read_tables Form.prepared vs s.now) }
    ensures { (vs : List Schema) → Spans (read_tables Form.prepared vs s.now) s.now result }
{
    let a = leads_skip(s);
    a + positions_skip(&s[a..])
}
