// Where the parts of a schema's field stand: its default, if it has one, and its schema; and how far the field reaches.
#![tactic(auto)]

ghost use Rattle.std.specs.Prelude.{◌≤◌, ◌<◌, length};
ghost use Rattle.text.specs.Measured.{Reads};
ghost use Rattle.frame.specs.SchemaFrame.{read_field, read_schema};
ghost use Rattle.frame.specs.Checks.{Spans};
ghost use Rattle.field.specs.Parts.{FieldParts};

use schema::field_len;
use text::content;
use value::value_len;

// Where the default begins, if there is one, and where the schema does.
#[derive(Clone, Copy)]
pub struct FieldAt {
    pub default: Option<usize>,
    pub schema_at: usize,
}

// The parts of a field that is known to be there: a name, a flag, the default if the flag is 01, and the schema.
pub fn field_at(s: &[u8], depth: usize) -> FieldAt
    requires { Reads (read_field (read_schema depth) s.now) }
    ensures { FieldParts depth s.now result }
{
    let name = content(s);
    let flag = 2 + name.len();
    let at = flag + 1;
    if s[flag] == 0 {
        FieldAt {
            default: None,
            schema_at: at,
        }
    } else {
        let n = value_len(&s[at..], 16);
        FieldAt {
            default: Some(at),
            schema_at: at + n,
        }
    }
}

// The length of a field, where `left` counts it and the fields behind it. Behind the last one nothing is looked at.
pub fn field_reach(s: &[u8], depth: usize, left: u16) -> usize
    requires { Reads (read_field (read_schema depth) s.now) }
    ensures { (result ≤ length s.now) × (1 < left → Spans (read_field (read_schema depth) s.now) s.now result) }
{
    if left <= 1 { 0 } else { field_len(s, depth) }
}
