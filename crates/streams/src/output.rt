// Output of the programs. The first write that fails ends it: a message goes to standard error, and nothing more to standard output.
ghost use Rattle.std.specs.Prelude.{◌≡◌, true, false, ltb};

use crate::calls::Step;
use crate::room::text_to;
use crate::{CanWrite, calls, message};
use std::env::FillError;
use std::rt::Env;

// Writes all of the bytes; whether it could.
fn written(rt: &impl CanWrite, bytes: &[u8]) -> bool {
    let mut at: usize = 0;
    // A while: a write may take fewer bytes than it was handed.
    while at < bytes.len() {
        let call = calls::write(rt, &bytes[at..]);
        match call.step {
            Step::Took(n) => {
                at += n;
            }
            _ => {
                message::failed(rt, "standard output", call.error);
                return false;
            }
        }
    }
    true
}

// A program's standard output, and whether every write so far went through.
#[derive(Drop)]
pub struct Output<'a, R> {
    rt: &'a R,
    pub ok: bool,
}

impl<'a, R: CanWrite> Output<'a, R> {
    pub fn new(rt: &'a R) -> Output<'a, R>
        ensures { result.ok ≡ true }
    {
        Output { rt, ok: true }
    }

    pub fn put(&mut self, bytes: &[u8])
        ensures { self.old.ok ≡ false → self.new.ok ≡ false }
    {
        self.ok = self.ok && written(self.rt, bytes);
    }

    pub fn put_decimal(&mut self, n: u64)
        ensures { self.old.ok ≡ false → self.new.ok ≡ false }
    {
        let mut room = [0u8; 20];
        let k = text_to(&mut room, format_args!("{n}"));
        self.put(&room[..k]);
    }

    // A width of 0 counts as 1, and one above 16 as 16.
    pub fn put_hex(&mut self, n: u64, width: usize)
        ensures { self.old.ok ≡ false → self.new.ok ≡ false }
    {
        let mut room = [0u8; 16];
        let width = width.min(room.len());
        let k = text_to(&mut room, format_args!("{n:0width$x}"));
        self.put(&room[..k]);
    }
}

// The words that a program was started with, its name among them: as many as there are before the first that is not there. No contract of the
// language says which words there are, so none is promised of their number; what follows from it is `usage`.
pub fn words(rt: &impl Env) -> usize {
    let mut none = [0u8; 0];
    for i in 0..usize::MAX {
        match rt.arg(i, &mut none) {
            Err(FillError::NotPresent) => return i,
            _ => {}
        }
    }
    usize::MAX
}

// Whether a program whose words are so many, its name among them, was started with arguments. It takes none, so then it says on standard error
// how it is used, and does nothing else.
pub fn usage(rt: &impl Eprint, words: usize, text: &[u8]) -> bool
    ensures { result ≡ ltb 1 words }
{
    let asked = 1 < words;
    if asked {
        message::tell(rt, text);
    }
    asked
}
