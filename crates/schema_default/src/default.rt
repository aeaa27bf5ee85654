// The default of a field: a value of the kinds that are allowed there, its map keys rising.
ghost use Rattle.std.specs.Prelude.{◌≡◌, List, not, ℕ};
ghost use Rattle.std.proofs.Math.Option.{some};
ghost use Rattle.text.specs.Measured.{Reads};
ghost use Rattle.text.specs.Text.{Text};
ghost use Rattle.scalar.specs.Conversion.{in_int};
ghost use Rattle.frame.specs.Tree.{Value};
ghost use Rattle.frame.specs.Readers.{read_list, read_option};
ghost use Rattle.frame.specs.ValueFrame.{items_of, entries_of, read_entry, read_value};
ghost use Rattle.frame.specs.Sound.{default_kinds, default_items, default_entries, default_allowed};
ghost use Rattle.frame.specs.Checks.{Checks};

use frame::{Checked, kind};
use number::{read2, read8};
use value::{value_check, value_len};

// Whether a Long is outside Int.
fn outside_int(n: u64) -> bool
    ensures { result ≡ not (in_int n) }
{
    (2147483648..18446744071562067968).contains(&n)
}

// Whether a value is of the kinds that a default may have.
#[cycle(kinds)]
fn default_kinds(s: &[u8], depth: usize) -> bool
    requires { Reads (read_value depth s.now) }
    ensures { (v : Value) (u : List ℕ) → read_value depth s.now ≡ some (v, u) → result ≡ default_kinds v }
{
    match s[0] {
        kind::NULL..=kind::INT => true,
        kind::LONG => outside_int(read8(s, 1)),
        kind::DOUBLE => scalar::finite_double(read8(s, 1)),
        kind::STRING => true,
        kind::ARRAY => items_kinds(&s[1..], depth - 1),
        kind::MAP => entries_kinds(&s[1..], depth - 1),
        _ => false,
    }
}

// Whether all items of an array are of these kinds.
#[cycle(kinds)]
fn items_kinds(s: &[u8], depth: usize) -> bool
    requires { Reads (read_list (read_value depth) s.now) }
    ensures { (vs : List Value) (u : List ℕ) → read_list (read_value depth) s.now ≡ some (vs, u) → result ≡ default_items (items_of vs) }
{
    let count = read2(s, 0);
    let mut at = 2;
    let mut ok = true;
    for _ in 0..count {
        ok &= default_kinds(&s[at..], depth);
        at += value_len(&s[at..], depth);
    }
    ok
}

// The same of the values of a map's entries. Apart from items_kinds: a function over both has no proof in a cycle of calls.
#[cycle(kinds)]
fn entries_kinds(s: &[u8], depth: usize) -> bool
    requires { Reads (read_list (read_entry (read_value depth)) s.now) }
    ensures { (es : List (Text × Value)) (u : List ℕ) → read_list (read_entry (read_value depth)) s.now ≡ some (es, u) → result ≡ default_entries (entries_of es) }
{
    let count = read2(s, 0);
    let mut at = 2;
    let mut ok = true;
    for _ in 0..count {
        let key = text::content(&s[at..]);
        let n = 2 + key.len();
        let e = at + n;
        ok &= default_kinds(&s[e..], depth);
        at = e + value_len(&s[e..], depth);
    }
    ok
}

// 00, or 01 and a value that may be a default.
pub fn default_check(s: &[u8]) -> Option<Checked>
    ensures { Checks default_allowed (read_option (read_value 16) s.now) s.now result }
{
    match s {
        [0, ..] => Some(Checked {
            len: 1,
            sound: true,
        }),
        [1, rest @ ..] => {
            let node = value_check(rest, 16)?;
            Some(Checked {
                len: 1 + node.len,
                sound: default_kinds(rest, 16) & node.sound,
            })
        }
        _ => None,
    }
}
