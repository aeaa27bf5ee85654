// Program vectors: a list of the crate's own answers from standard input, replayed through the entry and compared.
// A line `s HEX` is a schema and `v HEX` a value under the last schema; `#` begins a comment. Any other line is the crate's answer to the
// last value, as program `resolve` writes it.
#![tactic(auto)]

mod list;

ghost use Rattle.std.specs.Prelude.{◌≡◌, length};
ghost use Rattle.vectors.specs.Buffers.{Buffers};

use crate::list::Replay;
use lines::input::Reader;
use std::rt::Env;
use streams::output::Output;
use streams::{CanRead, CanWrite};

// A proved loop has to end, and nothing says that the input does. So there are as many turns as no run uses up.
fn run<R: CanRead + CanWrite>(
    rt: &R,
    block: &mut [u8],
    line: &mut [u8],
    schema: &mut [u8],
    value: &mut [u8],
    res: &mut [u8],
    workspace: &mut [u8],
    answer: &mut [u8],
    counts: &mut [u64],
    out: &mut Output<'_, R>,
) -> Replay
    requires { Buffers schema.old value.old res.old workspace.old answer.old counts.old }
{
    let mut r = Reader::start();
    let mut t = Replay::start();
    for _ in 0..u64::MAX {
        r = streams::input::next(rt, r, block, line);
        if !r.whole {
            return t;
        }
        let n = r.filled;
        t = t.step(
            &line[0..n],
            schema,
            value,
            res,
            workspace,
            answer,
            counts,
            out,
        );
    }
    t
}

// A line with a count behind its words.
fn counted(out: &mut Output<'_, impl CanWrite>, words: &[u8], n: u64) {
    out.put(words);
    out.put_decimal(n);
    out.put(b"\n");
}

// A line for a number that the list's refusals have, and how many have it.
fn refusal(out: &mut Output<'_, impl CanWrite>, number: u64, n: u64) {
    out.put(b"refused with ");
    out.put_decimal(number);
    counted(out, b": ", n);
}

// How many of the list's answers are refusals with each number that it has.
fn refusals(out: &mut Output<'_, impl CanWrite>, counts: &[u64])
    requires { length counts.now ≡ 100 }
{
    for n in 1..100 {
        if 0 < counts[n] {
            refusal(out, n as u64, counts[n]);
        }
    }
}

// How many answers were compared and differ, and how many of the list's are accepted.
fn totals(out: &mut Output<'_, impl CanWrite>, t: Replay, accepted: u64) {
    out.put_decimal(t.compared);
    out.put(b" answers compared, ");
    out.put_decimal(t.differ);
    out.put(b" differ\n");
    counted(out, b"accepted: ", accepted);
}

// Whether there are arguments; the usage then.
fn asked(rt: &(impl Env + Eprint)) -> bool {
    streams::output::usage(
        rt,
        streams::output::words(rt),
        b"usage: vectors < LIST\nReads a list of recorded answers from standard input. It takes no arguments.\n",
    )
}

fn main(rt: HostRuntime) {
    if asked(&rt) {
        return;
    }
    let mut block = [0u8; 65536];
    let mut line = [0u8; 131074];
    let mut schema = [0u8; 65536];
    let mut value = [0u8; 65536];
    let mut result = [0u8; 65535];
    let mut workspace = [0u8; 65536];
    let mut answer = [0u8; 131073];
    let mut counts = [0u64; 100];
    let mut out = Output::new(&rt);
    let t = run(
        &rt,
        &mut block,
        &mut line,
        &mut schema,
        &mut value,
        &mut result,
        &mut workspace,
        &mut answer,
        &mut counts,
        &mut out,
    );
    totals(&mut out, t, counts[0]);
    refusals(&mut out, &counts);
}
