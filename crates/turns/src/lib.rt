// The order in which a union's variants are tried, so that the first one that stands is the crate's choice
// (src/schema/union.rs): the named ones before the kind table's position, the table's, the named ones behind it, all others.
#![tactic(auto)]

ghost use Rattle.std.specs.Prelude.{◌≡◌, true, ◌+◌, ◌*◌, ◌≤◌, length};
ghost use Rattle.text.specs.Measured.{Reads};
ghost use Rattle.number.specs.Number.{number_at};
ghost use Rattle.frame.specs.Tree.{schema_kind};
ghost use Rattle.frame.specs.SchemaFrame.{read_schema};
ghost use Rattle.avro.specs.Union.{must_be_tried};
ghost use Rattle.variants.specs.Ways.{Among, OnRead, VariantAt};
ghost use Rattle.turns.specs.Turns.{Goes, NamedTells, NotBelow, PositionsRise, Splits, Tells, UnionPart, Within, is_last, next_turn, sooner_than, table_before};

use schema::schema_len;
use variants::{
    base_kind, is_at, is_tried, named_at, named_kind, stands_in, table_position, unnamed_kind,
    variant_at,
};

// What a union's choice goes by, for a value of one kind: the kind table's position, the base kind of the named variants to
// try, where their positions stand and how many there are, how many come before the table's, and whether they rise.
#[derive(Clone, Copy)]
pub struct Way {
    pub table: Option<usize>,
    pub kind: u8,
    pub at: usize,
    pub count: usize,
    pub before: usize,
    pub rises: bool,
}

// Whose turn it is: one of the named positions before the table's, the table's, one of the named positions behind it, or one of
// all positions.
#[derive(Clone, Copy)]
pub enum Turn {
    Before(usize),
    Table,
    Behind(usize),
    Any(usize),
}

// A variant's position, and where it stands.
#[derive(Clone, Copy)]
pub struct Spot {
    pub position: usize,
    pub at: usize,
}

// What a turn does: it tries the variant at a spot; it tries none; or there is none left. The last variant that was gone to is
// told with it, to go on from.
#[derive(Clone, Copy)]
pub enum Due {
    At(Spot),
    Not(Spot),
    Over,
}

// What the choice goes by for a value of this kind.
pub fn way_of(s: &[u8], kind: u8, depth: usize) -> Way
    requires { UnionPart depth s.now }
    ensures { (g : Goes depth s.now result) × (g.kind ≡ kind) }
{
    let table = table_position(s, unnamed_kind(kind), depth);
    match named_kind(kind) {
        None => Way {
            table,
            kind: 0,
            at: 0,
            count: 0,
            before: 0,
            rises: true,
        },
        Some(k) => {
            let named = named_at(s, depth);
            let at = named.at;
            let count = named.count;
            let rises = is_rising(s, at, count);
            let before = named_before(s, at, count, table, rises);
            Way {
                table,
                kind: k,
                at,
                count,
                before,
                rises,
            }
        }
    }
}

// Whether the positions rise.
fn is_rising(s: &[u8], at: usize, count: usize) -> bool
    requires { at + 2 * count ≤ length s.now }
    ensures { result ≡ true → PositionsRise s.now at count }
{
    for j in 1..count {
        if number::read2(s, at + 2 * j) <= number::read2(s, at + 2 * j - 2) {
            return false;
        }
    }
    true
}

// How many of the positions come before the table's: those below it where they rise; else all of them.
fn named_before(s: &[u8], at: usize, count: usize, table: Option<usize>, rises: bool) -> usize
    requires { (at + 2 * count ≤ length s.now) × (rises ≡ true → PositionsRise s.now at count) }
    ensures { Splits s.now at count table result }
{
    if !rises {
        return count;
    }
    match table {
        None => count,
        Some(u) => below(s, at, count, u),
    }
}

// How many of the rising positions are below u.
fn below(s: &[u8], at: usize, count: usize, u: usize) -> usize
    requires { (at + 2 * count ≤ length s.now) × PositionsRise s.now at count }
    ensures { NotBelow s.now at count u result }
{
    for j in 0..count {
        if u <= number::read2(s, at + 2 * j) as usize {
            return j;
        }
    }
    count
}

// Where the variant i stands, gone to from one that was passed before, if i is not before that.
fn reach(s: &[u8], depth: usize, from: Spot, i: usize) -> usize
    requires { UnionPart depth s.now × (i ≤ number_at s.now 1 2) × VariantAt depth s.now from.position from.at }
    ensures { VariantAt depth s.now i result }
{
    if i < from.position {
        return variant_at(s, i, depth);
    }
    let mut at = from.at;
    for _ in from.position..i {
        at += schema_len(&s[at..], depth - 1);
    }
    at
}

// Whether the j-th named position i stands before, where positions do not rise.
fn stood_before(s: &[u8], way: Way, j: usize, i: usize) -> bool
    requires { way.at + 2 * j ≤ length s.now }
    ensures { result ≡ true → Among s.now way.at j i true }
{
    if way.rises {
        return false;
    }
    stands_in(s, way.at, j, i)
}

// What the turn of the j-th named position does, of those up to `end` and without the position `skip`.
fn named_due(
    s: &[u8],
    depth: usize,
    way: Way,
    j: usize,
    end: usize,
    skip: Option<usize>,
    spot: Spot,
) -> Due
    requires { Goes depth s.now way × (end ≤ way.count) × VariantAt depth s.now spot.position spot.at }
    ensures { (g : Goes depth s.now way) → NamedTells g j end skip result }
{
    if end <= j {
        return Due::Not(spot);
    }
    let i = number::read2(s, way.at + 2 * j) as usize;
    if is_at(skip, i) {
        return Due::Not(spot);
    }
    if stood_before(s, way, j, i) {
        return Due::Not(spot);
    }
    let at = reach(s, depth, spot, i);
    let spot = Spot { position: i, at };
    if base_kind(&s[at..], depth - 1) != way.kind {
        return Due::Not(spot);
    }
    Due::At(spot)
}

// What the turn of the table's position does.
fn table_due(s: &[u8], depth: usize, way: Way, spot: Spot) -> Due
    requires { Goes depth s.now way × VariantAt depth s.now spot.position spot.at }
    ensures { (g : Goes depth s.now way) → Tells g Turn.Table result }
{
    let table = way.table;
    match table {
        None => Due::Not(spot),
        Some(u) => {
            let at = reach(s, depth, spot, u);
            Due::At(Spot { position: u, at })
        }
    }
}

// What the turn of the position i does, when the table's and the named ones have had theirs.
fn any_due(s: &[u8], depth: usize, way: Way, i: usize, spot: Spot) -> Due
    requires { Goes depth s.now way × VariantAt depth s.now spot.position spot.at }
    ensures { (g : Goes depth s.now way) → Tells g (Turn.Any i) result }
{
    if number::read2(s, 1) as usize <= i {
        return Due::Over;
    }
    let at = reach(s, depth, spot, i);
    let spot = Spot { position: i, at };
    let table = way.table;
    if is_at(table, i) {
        return Due::Not(spot);
    }
    if base_kind(&s[at..], depth - 1) != way.kind {
        return Due::At(spot);
    }
    if stands_in(s, way.at, way.count, i) {
        return Due::Not(spot);
    }
    Due::At(spot)
}

// What a turn does.
pub fn due_of(s: &[u8], depth: usize, way: Way, turn: Turn, spot: Spot) -> Due
    requires { Goes depth s.now way × VariantAt depth s.now spot.position spot.at }
    ensures { (g : Goes depth s.now way) → Tells g turn result }
{
    let table = way.table;
    match turn {
        Turn::Before(j) => named_due(s, depth, way, j, way.before, None, spot),
        Turn::Table => table_due(s, depth, way, spot),
        Turn::Behind(j) => named_due(s, depth, way, j, way.count, table, spot),
        Turn::Any(i) => any_due(s, depth, way, i, spot),
    }
}

// The turn after one that passed.
pub fn next(way: Way, turn: Turn) -> Turn
    requires { Within turn }
    ensures { result ≡ next_turn way turn }
{
    match turn {
        Turn::Before(j) => {
            if j < way.before {
                Turn::Before(j + 1)
            } else {
                Turn::Table
            }
        }
        Turn::Table => Turn::Behind(way.before),
        Turn::Behind(j) => {
            if j < way.count {
                Turn::Behind(j + 1)
            } else {
                Turn::Any(0)
            }
        }
        Turn::Any(i) => Turn::Any(i + 1),
    }
}

// The table's position, where it comes before the named position i whose turn it is: that one stands, and is not the choice.
pub fn table_before(way: Way, i: usize, turn: Turn) -> Option<usize>
    ensures { result ≡ table_before way.table i turn }
{
    match turn {
        Turn::Before(_) => sooner(way.table, i),
        Turn::Table | Turn::Behind(_) | Turn::Any(_) => None,
    }
}

// The table's position, where it comes before i.
fn sooner(table: Option<usize>, i: usize) -> Option<usize>
    ensures { result ≡ sooner_than table i }
{
    let u = table?;
    if u < i { Some(u) } else { None }
}

// Whether the refusal of the variant at the front, in its turn, is the answer: the table's is, unless it must be tried.
pub fn is_last(s: &[u8], depth: usize, turn: Turn) -> bool
    requires { Reads (read_schema depth s.now) }
    ensures { OnRead (λ t. result ≡ is_last turn (must_be_tried (schema_kind t))) (read_schema depth s.now) }
{
    match turn {
        Turn::Table => !is_tried(s, depth),
        Turn::Before(_) | Turn::Behind(_) | Turn::Any(_) => false,
    }
}
