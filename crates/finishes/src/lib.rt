// What a frame says of a finish: where its sail stands, and the rank of its seq.
#![tactic(auto)]

ghost use Rattle.std.specs.Prelude.{◌≡◌};
ghost use Rattle.text.specs.Measured.{Reads};
ghost use Rattle.frame.specs.ValueFrame.{read_value};
ghost use Rattle.find.specs.Find.{Keyed, entry_under};
ghost use Rattle.finishes.specs.Finish.{finish_of, long_of, rank, string_of};
ghost use Rattle.finishes.specs.Parts.{Parted, Says, fields_read, long_answer};

use frame::kind;

// A text: from where to before where it stands.
#[derive(Clone, Copy)]
struct Part {
    from: usize,
    to: usize,
}

// A finish: from where to before where its sail stands, and the rank of its seq.
#[derive(Clone, Copy)]
pub struct Entry {
    pub from: usize,
    pub to: usize,
    pub rank: u64,
}

// The rank of a Long among the Longs, by its bits.
fn rank(b: u64) -> u64
    ensures { result ≡ rank b }
{
    if b < 0x8000_0000_0000_0000 {
        b + 0x8000_0000_0000_0000
    } else {
        b - 0x8000_0000_0000_0000
    }
}

// The String under a name.
fn string_under(v: &[u8], name: &[u8]) -> Option<Part>
    requires { Reads (read_value 16 v.now) × Keyed v.now }
    ensures { Parted (string_of (entry_under name.now (read_value 16 v.now))) v.now result }
{
    let p = find::find_last(v, name, 16)?;
    if v[p] != kind::STRING {
        return None;
    }
    let from = p + 3;
    let to = from + number::read2(v, p + 1) as usize;
    Some(Part { from, to })
}

// The rank of the Long under a name.
fn long_under(v: &[u8], name: &[u8]) -> Option<u64>
    requires { Reads (read_value 16 v.now) × Keyed v.now }
    ensures { result ≡ long_answer (long_of (entry_under name.now (read_value 16 v.now))) }
{
    let p = find::find_last(v, name, 16)?;
    if v[p] != kind::LONG {
        return None;
    }
    Some(rank(number::read8(v, p + 1)))
}

// The finish of a frame that is known to hold a record.
fn record_finish(v: &[u8]) -> Option<Entry>
    requires { Reads (read_value 16 v.now) × Keyed v.now }
    ensures { Says (fields_read (read_value 16 v.now)) v.now result }
{
    let Part { from, to } = string_under(v, b"sail")?;
    let rank = long_under(v, b"seq")?;
    Some(Entry { from, to, rank })
}

// The finish that a frame says; none is what 24 refuses.
pub fn finish(v: &[u8]) -> Option<Entry>
    ensures { Says (finish_of v.now) v.now result }
{
    if !value::is_frame(v) {
        return None;
    }
    if v[0] != kind::RECORD {
        return None;
    }
    record_finish(v)
}
