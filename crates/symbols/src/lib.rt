// resolve_enum of src/types.rs: the place of a symbol among the schema's.
#![tactic(auto)]

ghost use Rattle.std.specs.Prelude.{◌≡◌, ◌∷◌, ◌++◌, ◌<◌, length, get_or, drop};
ghost use Rattle.std.proofs.Math.Option.{some};
ghost use Rattle.number.specs.Number.{bytes_of};
ghost use Rattle.text.specs.Text.{same};
ghost use Rattle.text.specs.Measured.{Reads};
ghost use Rattle.text.specs.Read.{read_counted};
ghost use Rattle.frame.specs.Kind;
ghost use Rattle.frame.specs.ValueFrame.{read_value, write_text};
ghost use Rattle.frame.specs.SchemaFrame.{read_symbols, read_schema};
ghost use Rattle.buffer.specs.Built.{Built, Wrote};
ghost use Rattle.types.specs.Types.{validate_symbol};
ghost use Rattle.types.specs.Contract.{encoded, on_read, on_both};
ghost use Rattle.symbols.specs.Search.{place_in, sought_in, placed, default_in, Defaulted, resolve_enum_at};

use base::refusal::Refusal;
use frame::{kind, texts_len};
use octets::content;

// What the search comes to: the place of the symbol, that of the default, or neither.
#[derive(Clone, Copy)]
pub enum Place {
    Symbol(u16),
    Default(u16),
    Nowhere,
}

// Whether a word is what a round looks for: the symbol at first, and then the default, whose text starts at `from`.
fn is_sought(s: &[u8], t: &[u8], from: usize, word: &[u8]) -> bool
    requires { (from ≡ 0 → ⊥) → Reads (read_counted (drop from s.now)) }
    ensures { result ≡ same word.now (sought_in s.now t.now from) }
{
    if from == 0 {
        text::same(word, t)
    } else {
        text::same(word, text::content(&s[from..]))
    }
}

// What a round has found at a place.
fn hit(from: usize, i: u16) -> Place
    ensures { result ≡ placed from i }
{
    match from {
        0 => Place::Symbol(i),
        _ => Place::Default(i),
    }
}

// The first place of a symbol among the schema's or, where it stands nowhere, that of the default.
fn position(s: &[u8], t: &[u8]) -> Place
    requires { Reads (read_symbols s.now) }
    ensures { result ≡ place_in t.now (read_symbols s.now) }
{
    let count = number::read2(s, 0);
    let mut from = 0;
    // A loop: there is a second round only where the first one passed the symbols and found a default behind them.
    'search: loop {
        let mut at = 2;
        for i in 0..count {
            let word = text::content(&s[at..]);
            if is_sought(s, t, from, word) {
                break 'search hit(from, i);
            }
            at += 2 + word.len();
        }
        if 0 < from || s[at] == 0 {
            break Place::Nowhere;
        }
        from = at + 1;
    }
}

// An Enum with its index and symbol.
fn put_enum(out: &mut [u8], i: u16, t: &[u8]) -> usize
    requires { length t.now < 65536 }
    ensures { Built (Kind.Enum ∷ (bytes_of 4 i ++ write_text t.now)) out.new result }
{
    let n = t.len();
    let h = [
        kind::ENUM,
        0,
        0,
        (i / 256) as u8,
        (i % 256) as u8,
        (n / 256) as u8,
        (n % 256) as u8,
    ];
    let at = buffer::put(out, &h);
    buffer::append(out, at, t)
}

// The default's text, where there is one.
fn default_text(s: &[u8]) -> &[u8]
    requires { Defaulted (read_symbols s.now) }
    ensures { (default_in (read_symbols s.now) ≡ some result.now) × (length result.now < 65536) }
{
    let from = texts_len(s) + 1;
    text::content(&s[from..])
}

// A symbol at its place, or else the default.
fn enum_of(s: &[u8], t: &[u8], out: &mut [u8]) -> Result<usize, Refusal>
    requires { Reads (read_symbols s.now) × (length t.now < 65536) }
    ensures { Wrote (on_read (λ e. encoded (validate_symbol e.0 e.1 t.now)) (read_symbols s.now)) out.new result }
{
    match position(s, t) {
        Place::Symbol(i) => Ok(put_enum(out, i, t)),
        Place::Default(i) => Ok(put_enum(out, i, default_text(s))),
        Place::Nowhere => Err(Refusal::SymbolUnknown),
    }
}

// s starts at the schema's node.
pub fn resolve_enum(
    s: &[u8],
    ds: usize,
    v: &[u8],
    out: &mut [u8],
    depth: usize,
) -> Result<usize, Refusal>
    requires { Reads (read_schema ds s.now) × (get_or s.now 0 0 ≡ Kind.Enum) × Reads (read_value depth v.now) }
    ensures { Wrote (on_both (λ t w. encoded (resolve_enum_at t w)) (read_schema ds s.now) (read_value depth v.now)) out.new result }
{
    match v[0] {
        kind::ENUM => enum_of(&s[1..], text::content(&v[5..]), out),
        kind::STRING => enum_of(&s[1..], content(v), out),
        _ => Err(Refusal::Unsuited),
    }
}
