// Resolution of a value against a schema (src/types.rs, src/schema/union.rs) over parts of frames: node, record and union
// resolution, which call one another with a falling schema depth. Each function writes its result into the slice that it is
// lent, as far as it fits, and answers the result's whole length or the refusal.
#![tactic(auto)]

ghost use Rattle.std.specs.Prelude.{◌≡◌, ◌-◌, option_copied};
ghost use Rattle.frame.specs.ValueFrame.{read_entry, read_value};
ghost use Rattle.frame.specs.SchemaFrame.{read_field, read_schema};
ghost use Rattle.buffer.specs.Built.{Wrote};
ghost use Rattle.types.specs.Contract.{on_both};
ghost use Rattle.leaf.specs.Leaf.{peeled_bytes};
ghost use Rattle.walk.specs.Contract.{EntryNode, FieldNode, FieldsNode, KeyedNode, Node, NodeOf, ReadyDefault, VariantNode, default_bytes, entry_bytes, field_bytes, indexed_bytes, node_bytes};
ghost use Rattle.walk.specs.UnionContract.{EitherNode, Steps, Turning};

use base::refusal::Refusal;
use buffer::{joined, put, room};
use field::{field_at, field_reach};
use find::{find_in, mark, peel};
use frame::kind;
use leaf::resolve_leaf;
use turns::{Due, Spot, Turn, Way, due_of, is_last, next, table_before, way_of};
use value::{entry_len, value_len};
use variants::{is_tried, put_index, variant_at};

// How many levels the schema and the value may still have.
#[derive(Clone, Copy)]
pub struct Walk {
    pub schema: usize,
    pub value: usize,
}

// What a turn of a union came to: the union's answer, or that the turn passed, with the last variant gone to.
#[derive(Clone, Copy)]
pub enum Step {
    Ended(Result<usize, Refusal>),
    Passed(Spot),
}

#[cycle(walking)]
pub fn resolve_node(w: Walk, s: &[u8], v: &[u8], out: &mut [u8]) -> Result<usize, Refusal>
    requires { Node w s.now v.now }
    ensures { Wrote (on_both node_bytes (read_schema w.schema s.now) (read_value w.value v.now)) out.new result }
{
    let p = peel(v, w.value);
    let at = p.at;
    let inner = Walk {
        schema: w.schema,
        value: p.depth,
    };
    match s[0] {
        kind::ARRAY => resolve_array(inner, s, &v[at..], out),
        kind::MAP => resolve_map(inner, s, &v[at..], out),
        kind::UNION => resolve_union(inner, s, &v[at..], out),
        kind::RECORD => resolve_record(inner, s, &v[at..], out),
        _ => resolve_leaf(s, &v[at..], out, inner.schema, inner.value),
    }
}

#[cycle(walking)]
fn resolve_array(w: Walk, s: &[u8], v: &[u8], out: &mut [u8]) -> Result<usize, Refusal>
    requires { NodeOf 8 w s.now v.now }
    ensures { Wrote (on_both peeled_bytes (read_schema w.schema s.now) (read_value w.value v.now)) out.new result }
{
    if v[0] != kind::ARRAY {
        return Err(Refusal::Unsuited);
    }
    let below = Walk {
        schema: w.schema - 1,
        value: w.value - 1,
    };
    let mut at = put(out, &v[..3]);
    let mut from = 3;
    for _ in 0..number::read2(v, 1) {
        let to = room(at, out.len());
        let m = resolve_node(below, &s[1..], &v[from..], &mut out[to..])?;
        at = joined(at, m);
        from += value_len(&v[from..], w.value - 1);
    }
    Ok(at)
}

#[cycle(walking)]
fn resolve_map(w: Walk, s: &[u8], v: &[u8], out: &mut [u8]) -> Result<usize, Refusal>
    requires { NodeOf 9 w s.now v.now }
    ensures { Wrote (on_both peeled_bytes (read_schema w.schema s.now) (read_value w.value v.now)) out.new result }
{
    if v[0] != kind::MAP {
        return Err(Refusal::Unsuited);
    }
    let below = Walk {
        schema: w.schema - 1,
        value: w.value - 1,
    };
    let mut at = put(out, &v[..3]);
    let mut from = 3;
    for _ in 0..number::read2(v, 1) {
        let o = room(at, out.len());
        let m = entry(below, &s[1..], &v[from..], &mut out[o..])?;
        at = joined(at, m);
        from += entry_len(&v[from..], w.value - 1);
    }
    Ok(at)
}

// A map's entry: its key, and its node resolved.
#[cycle(walking)]
fn entry(w: Walk, s: &[u8], v: &[u8], out: &mut [u8]) -> Result<usize, Refusal>
    requires { EntryNode w s.now v.now }
    ensures { Wrote (on_both entry_bytes (read_schema w.schema s.now) (read_entry (read_value w.value) v.now)) out.new result }
{
    let n = text::content(v).len() + 2;
    let at = put(out, &v[..n]);
    let o = room(at, out.len());
    let m = resolve_node(w, s, &v[n..], &mut out[o..])?;
    Ok(joined(at, m))
}

#[cycle(walking)]
fn resolve_record(w: Walk, s: &[u8], v: &[u8], out: &mut [u8]) -> Result<usize, Refusal>
    requires { NodeOf 11 w s.now v.now }
    ensures { Wrote (on_both peeled_bytes (read_schema w.schema s.now) (read_value w.value v.now)) out.new result }
{
    match v[0] {
        kind::RECORD => keyed(w, s, v, out),
        kind::MAP => keyed(w, s, v, out),
        _ => Err(Refusal::Unsuited),
    }
}

// A Record or a Map against a record schema. Where it has many entries, their names are marked, to be found at once.
#[cycle(walking)]
fn keyed(w: Walk, s: &[u8], v: &[u8], out: &mut [u8]) -> Result<usize, Refusal>
    requires { KeyedNode w s.now v.now }
    ensures { Wrote (on_both peeled_bytes (read_schema w.schema s.now) (read_value w.value v.now)) out.new result }
{
    if number::read2(v, 1) <= 8 {
        return fields(w, s, v, out, None);
    }
    let mut names = [0u16; 2560];
    if mark(v, w.value, &mut names) {
        fields(w, s, v, out, Some(&names))
    } else {
        fields(w, s, v, out, None)
    }
}

// The fields of a record schema, for a Record or a Map.
#[cycle(walking)]
fn fields(
    w: Walk,
    s: &[u8],
    v: &[u8],
    out: &mut [u8],
    marks: Option<&[u16]>,
) -> Result<usize, Refusal>
    requires { FieldsNode w s.now v.now (option_copied marks) }
    ensures { Wrote (on_both peeled_bytes (read_schema w.schema s.now) (read_value w.value v.now)) out.new result }
{
    let below = Walk {
        schema: w.schema - 1,
        value: w.value,
    };
    let count = number::read2(s, 1);
    let mut at = put(out, &s[..3]);
    let mut from = 3;
    for i in 0..count {
        let o = room(at, out.len());
        let m = one_field(below, &s[from..], v, &mut out[o..], marks)?;
        at = joined(at, m);
        from += field_reach(&s[from..], w.schema - 1, count - i);
    }
    Ok(at)
}

// One field: its name, and the last value under it or its default.
#[cycle(walking)]
fn one_field(
    w: Walk,
    s: &[u8],
    v: &[u8],
    out: &mut [u8],
    marks: Option<&[u16]>,
) -> Result<usize, Refusal>
    requires { FieldNode w s.now v.now (option_copied marks) }
    ensures { Wrote (on_both field_bytes (read_field (read_schema w.schema) s.now) (read_value w.value v.now)) out.new result }
{
    let name = text::content(s);
    let n = name.len() + 2;
    let at = put(out, &s[..n]);
    let o = room(at, out.len());
    let f = field_at(s, w.schema);
    let schema = f.schema_at;
    match find_in(v, name, w.value, marks) {
        Some(p) => {
            let inner = Walk {
                schema: w.schema,
                value: w.value - 1,
            };
            let m = resolve_node(inner, &s[schema..], &v[p..], &mut out[o..])?;
            Ok(joined(at, m))
        }
        None => {
            let Some(d) = f.default else {
                return Err(Refusal::FieldMissing);
            };
            let made = default(w, &s[schema..], &s[d..], &mut out[o..])?;
            Ok(joined(at, made))
        }
    }
}

// A field's default: in a union field it goes to the first variant, and the union is resolved anew.
#[cycle(walking)]
fn default(w: Walk, s: &[u8], d: &[u8], out: &mut [u8]) -> Result<usize, Refusal>
    requires { ReadyDefault w.schema s.now d.now }
    ensures { Wrote (on_both default_bytes (read_schema w.schema s.now) (read_value 16 d.now)) out.new result }
{
    let whole = Walk {
        schema: w.schema,
        value: 16,
    };
    if s[0] != kind::UNION {
        return resolve_node(whole, s, d, out);
    }
    if s[3] == kind::NULL {
        let null = [0u8; 1];
        let plain = Walk {
            schema: w.schema,
            value: 1,
        };
        return resolve_union(plain, s, &null, out);
    }
    let mut first = [0u8; 4096];
    let inner = w.schema - 1;
    let variant = Walk {
        schema: inner,
        value: 16,
    };
    resolve_node(variant, &s[3..], d, &mut first)?;
    let made = Walk {
        schema: w.schema,
        value: inner,
    };
    resolve_union(made, s, &first, out)
}

// A union: its variants have their turns until one is the answer.
#[cycle(walking)]
fn resolve_union(w: Walk, s: &[u8], v: &[u8], out: &mut [u8]) -> Result<usize, Refusal>
    requires { NodeOf 10 w s.now v.now }
    ensures { Wrote (on_both peeled_bytes (read_schema w.schema s.now) (read_value w.value v.now)) out.new result }
{
    let way = way_of(s, v[0], w.schema);
    let mut turn = Turn::Before(0);
    let mut spot = Spot { position: 0, at: 3 };
    // A loop: how many turns pass before one is the answer is not known.
    loop {
        match take_turn(w, s, v, out, way, turn, spot) {
            Step::Ended(answer) => break answer,
            Step::Passed(to) => spot = to,
        }
        turn = next(way, turn);
    }
}

// One turn: the variant that is due is tried, and is the answer if it stands and no other comes before it. Of the kind table's
// variant the refusal is the answer too, unless it is an Array or a Map.
#[cycle(walking)]
fn take_turn(w: Walk, s: &[u8], v: &[u8], out: &mut [u8], way: Way, turn: Turn, spot: Spot) -> Step
    requires { Turning w s.now v.now way turn spot.position spot.at }
    ensures { Steps w s.now v.now way turn out.new result }
{
    match due_of(s, w.schema, way, turn, spot) {
        Due::Over => Step::Ended(Err(Refusal::NoVariant)),
        Due::Not(spot) => Step::Passed(spot),
        Due::At(spot) => {
            let inner = Walk {
                schema: w.schema - 1,
                value: w.value,
            };
            let at = spot.at;
            match indexed(inner, &s[at..], v, out, spot.position) {
                Ok(n) => match table_before(way, spot.position, turn) {
                    None => Step::Ended(Ok(n)),
                    Some(u) => Step::Ended(either(w, s, v, out, u, spot.position)),
                },
                Err(e) => {
                    if is_last(&s[at..], w.schema - 1, turn) {
                        return Step::Ended(Err(e));
                    }
                    Step::Passed(spot)
                }
            }
        }
    }
}

// A variant, its result written behind the index i.
#[cycle(walking)]
fn indexed(w: Walk, s: &[u8], v: &[u8], out: &mut [u8], i: usize) -> Result<usize, Refusal>
    requires { VariantNode w s.now v.now i }
    ensures { Wrote (on_both (indexed_bytes i) (read_schema w.schema s.now) (read_value w.value v.now)) out.new result }
{
    let o = room(5, out.len());
    let m = resolve_node(w, s, v, &mut out[o..])?;
    Ok(put_index(out, i, m))
}

// The kind table's variant u, where the named one i behind it resolves: i is taken only if u must be tried and does not stand.
#[cycle(walking)]
fn either(w: Walk, s: &[u8], v: &[u8], out: &mut [u8], u: usize, i: usize) -> Result<usize, Refusal>
    requires { EitherNode w s.now v.now u i }
    ensures { Wrote (on_both peeled_bytes (read_schema w.schema s.now) (read_value w.value v.now)) out.new result }
{
    let inner = Walk {
        schema: w.schema - 1,
        value: w.value,
    };
    let p = variant_at(s, u, w.schema);
    match indexed(inner, &s[p..], v, out, u) {
        Ok(n) => Ok(n),
        Err(e) => {
            if !is_tried(&s[p..], w.schema - 1) {
                return Err(e);
            }
            let q = variant_at(s, i, w.schema);
            indexed(inner, &s[q..], v, out, i)
        }
    }
}
