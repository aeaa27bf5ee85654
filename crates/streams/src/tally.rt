// What a program counts that holds its answers to a list: each line that has another answer is named, and at the end both are counted.
ghost use Rattle.std.specs.Prelude.{◌≡◌, true, false};
ghost use Rattle.streams.specs.Tally.{started, one_more, passed_over, Compared};

use crate::CanWrite;
use crate::output::Output;

// The lines read, the answers compared, and those that differ.
#[derive(Clone, Copy)]
pub struct Tally {
    pub line: u64,
    pub compared: u64,
    pub differ: u64,
}

// One more, up to a number that no list reaches.
fn more(n: u64) -> u64
    ensures { result ≡ one_more n }
{
    if n < 1000000000 { n + 1 } else { n }
}

// Names a line that has another answer.
fn name<R: CanWrite>(out: &mut Output<'_, R>, line: u64)
    ensures { out.old.ok ≡ false → out.new.ok ≡ false }
{
    out.put(b"line ");
    out.put_decimal(line);
    out.put(b" differs\n");
}

impl Tally {
    pub fn start() -> Tally
        ensures { result ≡ started }
    {
        Tally {
            line: 0,
            compared: 0,
            differ: 0,
        }
    }

    // A line that says something, and expects no answer.
    pub fn passed_over(self) -> Tally
        ensures { result ≡ passed_over self }
    {
        Tally {
            line: more(self.line),
            ..self
        }
    }

    // A line whose answer is the expected one, or another.
    pub fn compared<R: CanWrite>(self, same: bool, out: &mut Output<'_, R>) -> Tally
        ensures counts { Compared self same result }
        ensures same_ok { same ≡ true → out.new.ok ≡ out.old.ok }
        ensures failed { out.old.ok ≡ false → out.new.ok ≡ false }
    {
        let line = more(self.line);
        let compared = more(self.compared);
        if same {
            return Tally {
                line,
                compared,
                ..self
            };
        }
        name(out, line);
        Tally {
            line,
            compared,
            differ: more(self.differ),
        }
    }

    // How many of what were compared, and how many differ.
    pub fn report<R: CanWrite>(self, what: &[u8], out: &mut Output<'_, R>)
        ensures { out.old.ok ≡ false → out.new.ok ≡ false }
    {
        out.put_decimal(self.compared);
        out.put(what);
        out.put(b" compared, ");
        out.put_decimal(self.differ);
        out.put(b" differ\n");
    }
}
