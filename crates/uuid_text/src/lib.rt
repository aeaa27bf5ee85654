// The text forms of a UUID: 32 hexadecimal digits; the 36-character form of RFC 4122; that form in braces, or after `urn:uuid:`.
#![tactic(auto)]

ghost use Rattle.std.specs.Prelude.{◌≡◌, ◌<◌, length};
ghost use Rattle.uuid_text.specs.Uuid.{hex_digit, hex_bytes, has_hyphens, without_hyphens, hyphenated, in_braces, after_urn, uuid_of_text, parsed};
ghost use Rattle.uuid_text.specs.Forms.{place};

// The value of a hexadecimal digit, in either case.
#[tactic(auto, unfolding(crate::specs::Uuid::hex_digit))]
pub fn hex_digit(c: u8) -> Option<u8>
    ensures { result ≡ parsed (hex_digit c) }
{
    match c {
        b'0'..=b'9' => Some(c - b'0'),
        b'A'..=b'F' => Some(c - b'A' + 10),
        b'a'..=b'f' => Some(c - b'a' + 10),
        _ => None,
    }
}

// 32 digits.
fn hex_bytes(d: &[u8]) -> Option<[u8; 16]>
    requires { length d.now ≡ 32 }
    ensures { result ≡ parsed (hex_bytes d.now) }
{
    let mut out = [0u8; 16];
    for i in 0..16 {
        let h = hex_digit(d[2 * i])?;
        let l = hex_digit(d[2 * i + 1])?;
        out[i] = h * 16 + l;
    }
    Some(out)
}

// Where digit k of 32 stands in the 36-character form.
#[tactic(auto, unfolding(crate::specs::Forms::place))]
fn place(k: usize) -> usize
    requires { k < 32 }
    ensures { result ≡ place k }
{
    match k {
        0..=7 => k,
        8..=11 => k + 1,
        12..=15 => k + 2,
        16..=19 => k + 3,
        _ => k + 4,
    }
}

fn without_hyphens(s: &[u8]) -> [u8; 32]
    requires { length s.now ≡ 36 }
    ensures { result ≡ without_hyphens s.now }
{
    let mut d = [0u8; 32];
    for k in 0..32 {
        d[k] = s[place(k)];
    }
    d
}

#[tactic(auto, unfolding(crate::specs::Uuid::has_hyphens))]
fn has_hyphens(s: &[u8]) -> bool
    requires { length s.now ≡ 36 }
    ensures { result ≡ has_hyphens s.now }
{
    s[8] == b'-' && s[13] == b'-' && s[18] == b'-' && s[23] == b'-'
}

// 8, 4, 4, 4 and 12 digits with a hyphen between.
#[tactic(auto, unfolding(crate::specs::Uuid::hyphenated))]
fn groups(s: &[u8]) -> Option<[u8; 16]>
    requires { length s.now ≡ 36 }
    ensures { result ≡ parsed (hyphenated s.now) }
{
    if has_hyphens(s) {
        hex_bytes(&without_hyphens(s))
    } else {
        None
    }
}

// The 36-character form in braces.
#[tactic(auto, unfolding(crate::specs::Uuid::in_braces))]
fn braced(s: &[u8]) -> Option<[u8; 16]>
    requires { length s.now ≡ 38 }
    ensures { result ≡ parsed (in_braces s.now) }
{
    if s[0] == b'{' && s[37] == b'}' {
        groups(&s[1..37])
    } else {
        None
    }
}

// The 36-character form after urn:uuid:
fn urn(s: &[u8]) -> Option<[u8; 16]>
    requires { length s.now ≡ 45 }
    ensures { result ≡ parsed (after_urn s.now) }
{
    if text::same(&s[0..9], b"urn:uuid:") {
        groups(&s[9..45])
    } else {
        None
    }
}

#[tactic(auto, unfolding(crate::specs::Uuid::uuid_of_text))]
pub fn parse_str(s: &[u8]) -> Option<[u8; 16]>
    ensures { result ≡ parsed (uuid_of_text s.now) }
{
    match s.len() {
        32 => hex_bytes(s),
        36 => groups(s),
        38 => braced(s),
        45 => urn(s),
        _ => None,
    }
}
