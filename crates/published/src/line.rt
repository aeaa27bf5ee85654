// A line of the input: the name of a leaf, a space, and what it is given.
use crate::{number_line, text_line};
use lines::list::space;
use streams::CanWrite;
use streams::output::Output;

fn is_note(s: &[u8]) -> bool {
    s.is_empty() || s[0] == b'#'
}

// A name that stands for no leaf shows as such.
fn leaf(out: &mut Output<'_, impl CanWrite>, name: &[u8], given: &[u8]) {
    if !text_line::answer(out, name, given) && !number_line::answer(out, name, given) {
        out.put(b"no such line");
    }
}

// What stands behind the line: the leaf's answer to it.
fn behind(out: &mut Output<'_, impl CanWrite>, s: &[u8]) {
    match space(s) {
        Some(at) => {
            let from = at + 1;
            leaf(out, &s[..at], &s[from..]);
        }
        None => leaf(out, s, b""),
    }
}

pub(crate) fn answer(out: &mut Output<'_, impl CanWrite>, s: &[u8]) {
    out.put(s);
    if !is_note(s) {
        out.put(b": ");
        behind(out, s);
    }
    out.put(b"\n");
}
