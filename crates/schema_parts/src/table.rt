// The two tables of a union: its leading kinds and its named positions.
ghost use Rattle.std.specs.Prelude.{◌≡◌, List, ◌&&◌, leb, ltb};
ghost use Rattle.text.specs.Read.{read_number};
ghost use Rattle.frame.specs.Tree.{Schema};
ghost use Rattle.frame.specs.Readers.{read_list};
ghost use Rattle.frame.specs.SchemaFrame.{Form, read_lead, read_tables};
ghost use Rattle.frame.specs.Sound.{kinds_sound, positions_sound, tables_sound};
ghost use Rattle.frame.specs.Checks.{Checks};

use frame::{Checked, kind};
use number::read2;

// The last kind.
const LAST: usize = kind::DURATION as usize;

// Whether an entry of the kind table may stand behind kinds below `least`.
fn lead_sound(kind: usize, position: usize, least: usize, count: usize) -> bool
    ensures { result ≡ leb least kind && leb kind 25 && ltb position count }
{
    (least..=LAST).contains(&kind) && position < count
}

// The kind table at the front of a part, of a union of `count` variants.
fn leads_check(s: &[u8], count: usize) -> Option<Checked>
    ensures { Checks (kinds_sound count 0) (read_list read_lead s.now) s.now result }
{
    if s.len() < 2 {
        return None;
    }
    let entries = read2(s, 0);
    let mut at = 2;
    let mut least = 0;
    let mut sound = true;
    for _ in 0..entries {
        if s.len() - at < 3 {
            return None;
        }
        let kind = s[at] as usize;
        let position = read2(s, at + 1) as usize;
        sound &= lead_sound(kind, position, least, count);
        least = kind + 1;
        at += 3;
    }
    Some(Checked { len: at, sound })
}

// The positions at the front of a part, of a union of `count` variants.
fn positions_check(s: &[u8], count: usize) -> Option<Checked>
    ensures { Checks (positions_sound count) (read_list (read_number 2) s.now) s.now result }
{
    if s.len() < 2 {
        return None;
    }
    let entries = read2(s, 0);
    let mut at = 2;
    let mut sound = true;
    for _ in 0..entries {
        if s.len() - at < 2 {
            return None;
        }
        sound &= (read2(s, at) as usize) < count;
        at += 2;
    }
    Some(Checked { len: at, sound })
}

// Both tables at the front of a part, of a union of `count` variants.
pub fn tables_check(s: &[u8], count: usize) -> Option<Checked>
    ensures { (vs : List Schema) → Checks (tables_sound count) (read_tables Form.prepared vs s.now) s.now result }
{
    let leads = leads_check(s, count)?;
    let named = positions_check(&s[leads.len..], count)?;
    Some(Checked {
        len: leads.len + named.len,
        sound: leads.sound && named.sound,
    })
}
