// Standard input, read in blocks that are cut into lines.
// No contract of the language says what is read. What a read makes of the reader is proved; `finish` and `next`, which read, are proved safe
// only.
ghost use Rattle.std.specs.Prelude.{◌≡◌, ◌≤◌, ◌<◌, length, false};
ghost use Rattle.lines.specs.Held.{Held, uncut};
ghost use Rattle.streams.specs.Supplied.{Refilled, spent, supplied};

use crate::calls::{Call, Step};
use crate::output::Output;
use crate::{CanRead, CanWrite, calls, message};
use lines::input::Reader;

// A reader with nothing to come and nothing held.
fn spent() -> Reader
    ensures { result ≡ spent }
{
    Reader {
        at: 0,
        end: 0,
        filled: 0,
        long: false,
        whole: false,
        over: true,
    }
}

// The reader after a read into its block. Of a line that was half read when a read failed nothing is held.
#[tactic(auto, unfolding(crate::specs::Supplied::supplied))]
fn supplied(r: Reader, s: Step) -> Reader
    ensures { result ≡ supplied r s }
{
    match s {
        Step::Took(n) => Reader {
            at: 0,
            end: n,
            whole: false,
            over: false,
            ..r
        },
        Step::Nothing => Reader {
            at: 0,
            end: 0,
            whole: false,
            over: true,
            ..r
        },
        _ => spent(),
    }
}

// A read that failed is told of on standard error.
fn told(rt: &impl Eprint, call: Call) {
    match call.step {
        Step::Took(_) | Step::Nothing => {}
        _ => message::failed(rt, "standard input", call.error),
    }
}

// A new block where the last one is used up, unless the input is over.
fn refilled(rt: &impl CanRead, r: Reader, block: &mut [u8]) -> Reader
    requires { (r.at ≤ r.end) × (r.end ≤ length block.old) }
    ensures at_le_end { (result.at ≤ result.end) × (result.end ≤ length block.new) × (result.filled ≤ r.filled) }
    ensures block_after { r.at < r.end → uncut result block.new ≡ uncut r block.old }
    ensures refilled { Refilled r result }
{
    if r.at < r.end || r.over {
        return r;
    }
    let call = calls::read(rt, block);
    told(rt, call);
    supplied(r, call.step)
}

// The rest of a line whose newline is not in the block: it is read on until there is one or the input is over. `whole` says whether there is a
// line; there is none of a line that was half read when a read failed.
// A proved loop has to end, and nothing says that a line does. So there are as many turns as no line uses up.
pub fn finish(rt: &impl CanRead, r: Reader, block: &mut [u8], line: &mut [u8]) -> Reader
    requires { Held r block.old line.old }
    ensures { Held result block.new line.new }
{
    let mut t = r;
    for _ in 0..u64::MAX {
        t = refilled(rt, t, block);
        if t.at == t.end {
            return t.last();
        }
        t = t.cut(block, line);
        if t.whole {
            return t;
        }
    }
    t
}

// The next line, if `whole`.
pub fn next(rt: &impl CanRead, r: Reader, block: &mut [u8], line: &mut [u8]) -> Reader
    requires { Held r block.old line.old }
    ensures { Held result block.new line.new }
{
    let t = r.begin(block, line);
    if t.whole {
        return t;
    }
    finish(rt, t, block, line)
}

// Each line of the input to a function, up to the input's end or the first write that fails.
// A proved loop has to end, and nothing says that the input does. So there are as many turns as no run uses up.
pub fn each_line<R: CanRead + CanWrite, F: FnMut(&[u8], &mut Output<'_, R>)>(
    rt: &R,
    block: &mut [u8],
    line: &mut [u8],
    out: &mut Output<'_, R>,
    mut f: F,
)
    requires { F.IsAlwaysCallable f }
    ensures { out.old.ok ≡ false → out.new.ok ≡ false }
{
    let mut r = Reader::start();
    for _ in 0..u64::MAX {
        r = next(rt, r, block, line);
        if !r.whole || !out.ok {
            return;
        }
        let n = r.filled;
        f(&line[..n], out);
    }
}
