// Program resolve: lines of hexadecimal from standard input, the schema first and then values; a line to standard output for each value.
// What is read and written has no contract in the language. So the lines' frames and answers, and what is to be done after each read and write,
// are proved (crates lines and answers), and that the lines are handed on in order is to be read here.
#![tactic(auto)]

ghost use Rattle.std.specs.Prelude.{◌≡◌, false, ◌≤◌, length};
ghost use Rattle.lines.specs.Held.{Held};
ghost use Rattle.resolve.specs.Buffers.{Buffers};

use lines::input::Reader;
use std::rt::Env;
use streams::output::Output;
use streams::{CanRead, CanWrite};

// Writes the bytes that wait; none wait then.
fn flushed(out: &mut Output<'_, impl CanWrite>, waits: usize, ready: &[u8]) -> usize
    requires { waits ≤ length ready.now }
    ensures none { result ≡ 0 }
    ensures failed { out.old.ok ≡ false → out.new.ok ≡ false }
{
    out.put(&ready[0..waits]);
    0
}

// Writes what waits once the longest line might not fit behind it; how many bytes wait then.
fn roomy(out: &mut Output<'_, impl CanWrite>, waits: usize, ready: &[u8]) -> usize
    requires { waits ≤ length ready.now }
    ensures room { result ≤ 131071 }
    ensures failed { out.old.ok ≡ false → out.new.ok ≡ false }
{
    if waits <= 131071 {
        return waits;
    }
    flushed(out, waits, ready)
}

// The answer to a value's line, behind the bytes that wait; how many wait then.
fn value_line(
    line: &[u8],
    schema: &[u8],
    value: &mut [u8],
    res: &mut [u8],
    workspace: &mut [u8],
    ready: &mut [u8],
    waits: usize,
    out: &mut Output<'_, impl CanWrite>,
) -> usize
    requires { Buffers value.old res.old workspace.old ready.old × (waits ≤ 131071) }
    ensures room { result ≤ 131071 }
    ensures failed { out.old.ok ≡ false → out.new.ok ≡ false }
{
    let n = lines::frame(line, value);
    let more = answers::answer(schema, &value[0..n], res, workspace, &mut ready[waits..]);
    roomy(out, waits + more, ready)
}

// The last line that was cut from the input, and how many bytes wait to be written.
#[derive(Clone, Copy)]
struct Turn {
    reader: Reader,
    waits: usize,
}

// The next line. A read may have to wait, so what is ready is written before it.
fn next<R: CanRead + CanWrite>(
    rt: &R,
    t: Turn,
    block: &mut [u8],
    line: &mut [u8],
    ready: &[u8],
    out: &mut Output<'_, R>,
) -> Turn
    requires { Held t.reader block.old line.old × (t.waits ≤ 131071) × (131071 ≤ length ready.now) }
    ensures held { Held result.reader block.new line.new × (result.waits ≤ 131071) }
    ensures failed { out.old.ok ≡ false → out.new.ok ≡ false }
{
    let reader = t.reader.begin(block, line);
    if reader.whole {
        return Turn { reader, ..t };
    }
    let waits = flushed(out, t.waits, ready);
    if !out.ok {
        return Turn { reader, waits };
    }
    Turn {
        reader: streams::input::finish(rt, reader, block, line),
        waits,
    }
}

// The values, up to the input's end or the first write that fails; how many bytes wait then.
// A proved loop has to end, and nothing says that the input does. So there are as many turns as no run uses up.
fn values<R: CanRead + CanWrite>(
    rt: &R,
    reader: Reader,
    block: &mut [u8],
    line: &mut [u8],
    schema: &[u8],
    value: &mut [u8],
    res: &mut [u8],
    workspace: &mut [u8],
    ready: &mut [u8],
    out: &mut Output<'_, R>,
) -> usize
    requires { Held reader block.old line.old × Buffers value.old res.old workspace.old ready.old }
    ensures { result ≤ length ready.new }
{
    let mut t = Turn { reader, waits: 0 };
    for _ in 0..u64::MAX {
        t = next(rt, t, block, line, ready, out);
        if !t.reader.whole || !out.ok {
            return t.waits;
        }
        let n = t.reader.filled;
        t.waits = value_line(
            &line[0..n],
            schema,
            value,
            res,
            workspace,
            ready,
            t.waits,
            out,
        );
    }
    t.waits
}

// The schema's line, and then the values. A line too long for its buffer is longer than any frame, and counts as no frame.
fn run<R: CanRead + CanWrite>(
    rt: &R,
    block: &mut [u8],
    line: &mut [u8],
    schema: &mut [u8],
    value: &mut [u8],
    res: &mut [u8],
    workspace: &mut [u8],
    ready: &mut [u8],
)
    requires { Buffers value.old res.old workspace.old ready.old }
{
    let mut out = Output::new(rt);
    let r = streams::input::next(rt, Reader::start(), block, line);
    let filled = r.filled;
    let n = lines::frame(&line[0..filled], schema);
    let waits = values(
        rt,
        r,
        block,
        line,
        &schema[0..n],
        value,
        res,
        workspace,
        ready,
        &mut out,
    );
    flushed(&mut out, waits, ready);
}

// How the program is used.
fn asked(rt: &(impl Env + Eprint)) -> bool {
    streams::output::usage(
        rt,
        streams::output::words(rt),
        b"usage: resolve < LINES > ANSWERS\n\
Brings Avro values to a reader schema. It takes no arguments.\n\
Each line of standard input is a frame in hexadecimal: first the schema, then values. A line ends in a newline\n\
alone: with a carriage return before it, it is a broken frame. For each value a line goes to standard output, as\n\
soon as the input has no more lines ready: + and the result, or - and the number of what stops it. So there is\n\
one line less than in the input. After a read or a write that fails, a message goes to standard error and\n\
nothing more to standard output.\n",
    )
}

fn main(rt: HostRuntime) {
    if asked(&rt) {
        return;
    }
    let mut block = [0u8; 65536];
    let mut line = [0u8; 131072];
    let mut schema = [0u8; 65536];
    let mut value = [0u8; 65536];
    let mut result = [0u8; 65535];
    let mut workspace = [0u8; 65536];
    let mut ready = [0u8; 262144];
    run(
        &rt,
        &mut block,
        &mut line,
        &mut schema,
        &mut value,
        &mut result,
        &mut workspace,
        &mut ready,
    );
}
