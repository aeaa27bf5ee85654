// What goes to standard error. A message that can't be written is lost.
use crate::room::text_to;
use std::io::ErrorKind;
use std::{fmt, io};

// The words of an error that has a number of the system's, as C's strerror has them: std writes that number behind them.
const BEFORE_NUMBER: &str = " (os error ";

// What an error says, without its number.
#[derive(Drop)]
struct Reason(io::Error);

impl fmt::Display for Reason {
    fn fmt<W: fmt::Write>(&self, f: &mut fmt::Formatter<W>) -> fmt::Result {
        let mut room = [0u8; 300];
        let n = text_to(&mut room, self.0);
        match str::from_utf8(&room[..n]) {
            Ok(words) => f.write_str(without_number(words)),
            Err(_) => Ok(()),
        }
    }
}

fn without_number(words: &str) -> &str {
    match words.split_once(BEFORE_NUMBER) {
        Some((reason, _)) => reason,
        None => words,
    }
}

// A line that names what failed, and why. A call that moved nothing and answered no error was a write.
pub(crate) fn failed(rt: &impl Eprint, what: &str, error: Option<io::Error>) {
    let reason = Reason(error.unwrap_or(io::Error::from(ErrorKind::WriteZero)));
    let _ = eprintln!(rt; "{what}: {reason}");
}

// A text of several lines. What is no UTF-8 in it is left out.
pub(crate) fn tell(rt: &impl Eprint, text: &[u8]) {
    for chunk in text.utf8_chunks() {
        let _ = rt.eprint(chunk.valid());
    }
}
