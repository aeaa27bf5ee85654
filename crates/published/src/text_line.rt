// Lines of texts: UTF-8, code points that fit a byte, UUID texts, the five texts of a Float and the comparison of names.
// Each function answers whether a leaf has the line's name and was given what that leaf takes.
ghost use Rattle.std.specs.Prelude.{◌≡◌, true};
ghost use Rattle.utf8.specs.Utf8.{is_utf8};

use lines::list::space;
use streams::CanWrite;
use streams::output::Output;

fn utf8_of(out: &mut Output<'_, impl CanWrite>, s: &[u8]) {
    if utf8::is_utf8(s) {
        out.put(b"well-formed");
    } else {
        out.put(b"ill-formed");
    }
}

// The code points of a text as bytes, in hexadecimal, 64 at most.
fn points_of(out: &mut Output<'_, impl CanWrite>, s: &[u8])
    requires { is_utf8 s.now ≡ true }
{
    match utf8::latin1_len(s) {
        Some(n) => {
            if 64 < n {
                return;
            }
            let mut points = [0u8; 64];
            utf8::latin1(s, &mut points);
            let mut digits = [0u8; 128];
            hex_text::to_hex(&points[0..n], &mut digits);
            let end = 2 * n;
            out.put(&digits[0..end]);
        }
        None => out.put(b"above ff"),
    }
}

fn latin1_of(out: &mut Output<'_, impl CanWrite>, s: &[u8]) {
    if utf8::is_utf8(s) {
        points_of(out, s);
    } else {
        out.put(b"ill-formed");
    }
}

fn put16(out: &mut Output<'_, impl CanWrite>, bytes: &[u8; 16]) {
    let mut digits = [0u8; 32];
    hex_text::to_hex(bytes, &mut digits);
    out.put(&digits);
}

fn uuid_of(out: &mut Output<'_, impl CanWrite>, s: &[u8]) {
    match uuid_text::parse_str(s) {
        Some(bytes) => put16(out, &bytes),
        None => out.put(b"refused"),
    }
}

fn float_text_of(out: &mut Output<'_, impl CanWrite>, s: &[u8]) {
    match bits::parse_special_float(s) {
        Some(b) => out.put_hex(b as u64, 8),
        None => out.put(b"none"),
    }
}

// Two texts with a space between them: whether they are the same, and how many byte pairs were looked at.
fn compare_of(out: &mut Output<'_, impl CanWrite>, given: &[u8]) -> bool {
    let Some(at) = space(given) else {
        return false;
    };
    let from = at + 1;
    let c = text::compare(&given[..at], &given[from..]);
    if c.same {
        out.put(b"same ");
    } else {
        out.put(b"differ ");
    }
    out.put_decimal(c.looked as u64);
    true
}

fn of_bytes(out: &mut Output<'_, impl CanWrite>, name: &[u8], b: &[u8]) -> bool {
    match name {
        b"utf8" => utf8_of(out, b),
        b"latin1" => latin1_of(out, b),
        _ => return false,
    }
    true
}

// Bytes that are given in hexadecimal, 64 at most.
fn in_hex(out: &mut Output<'_, impl CanWrite>, name: &[u8], given: &[u8]) -> bool {
    let mut b = [0u8; 64];
    match hex_text::from_hex(given, &mut b) {
        Ok(n) => n <= 64 && of_bytes(out, name, &b[0..n]),
        Err(_) => false,
    }
}

pub(crate) fn answer(out: &mut Output<'_, impl CanWrite>, name: &[u8], given: &[u8]) -> bool {
    match name {
        b"uuid" => uuid_of(out, given),
        b"float-text" => float_text_of(out, given),
        b"compare" => return compare_of(out, given),
        _ => return in_hex(out, name, given),
    }
    true
}
