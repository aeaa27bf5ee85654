// The lines of a list of recorded answers, one by one.
ghost use Rattle.std.specs.Prelude.{◌≡◌, ◌<◌, ◌≤◌, length, IfSome};
ghost use Rattle.vectors.specs.Buffers.{Buffers, Replayed};

use streams::CanWrite;
use streams::output::Output;

// How far the list is replayed: the length of the last schema's frame, the length of the answer's line to the last value without its
// newline, the lines read, the answers compared, and those that differ. The three counts would begin anew past 2^64, which no list reaches.
#[derive(Clone, Copy)]
pub struct Replay {
    pub schema: usize,
    pub got: usize,
    pub lines: u64,
    pub compared: u64,
    pub differ: u64,
}

fn digit(c: u8) -> usize
    ensures { result < 10 }
{
    match c {
        b'0'..=b'9' => (c - b'0') as usize,
        _ => 0,
    }
}

// The number in a refusal's line.
fn number(line: &[u8]) -> Option<usize>
    ensures { IfSome result (λ n. n < 100) }
{
    match line {
        [b'-', _, units] => Some(digit(*units)),
        [b'-', _, tens, units, ..] => Some(digit(*tens) * 10 + digit(*units)),
        _ => None,
    }
}

// The line's place in the list, the crate's answer there, and the program's.
fn report(out: &mut Output<'_, impl CanWrite>, place: u64, line: &[u8], got: &[u8]) {
    out.put(b"line ");
    out.put_decimal(place);
    out.put(b": expected ");
    out.put(line);
    out.put(b", got ");
    out.put(got);
    out.put(b"\n");
}

// Where the digits of a line begin: behind its letter and a space.
fn digits_at(n: usize) -> usize
    ensures { result ≤ n }
{
    n.min(2)
}

// The characters of a line before its newline.
fn before_newline(n: usize) -> usize
    ensures { result ≤ n }
{
    n.saturating_sub(1)
}

impl Replay {
    pub fn start() -> Replay
        ensures { Replayed result }
    {
        Replay {
            schema: 0,
            got: 0,
            lines: 0,
            compared: 0,
            differ: 0,
        }
    }

    fn compare(
        self,
        line: &[u8],
        got: &[u8],
        counts: &mut [u64],
        out: &mut Output<'_, impl CanWrite>,
    ) -> Replay
        requires { Replayed self × (length counts.old ≡ 100) }
        ensures { Replayed result }
    {
        // No refusal has the number 0, so accepted answers are counted there.
        let n = number(line).unwrap_or(0);
        counts[n] = counts[n].wrapping_add(1);
        let compared = self.compared.wrapping_add(1);
        if text::same(line, got) {
            return Replay { compared, ..self };
        }
        report(out, self.lines, line, got);
        Replay {
            compared,
            differ: self.differ.wrapping_add(1),
            ..self
        }
    }

    fn schema_line(self, line: &[u8], schema: &mut [u8]) -> Replay
        requires { Replayed self × (length schema.old ≡ 65536) }
        ensures { Replayed result }
    {
        let at = digits_at(line.len());
        Replay {
            schema: lines::frame(&line[at..], schema),
            ..self
        }
    }

    fn value_line(
        self,
        line: &[u8],
        schema: &[u8],
        value: &mut [u8],
        res: &mut [u8],
        workspace: &mut [u8],
        answer: &mut [u8],
    ) -> Replay
        requires { Replayed self × (length res.old ≡ 65535) × (length workspace.old ≡ 65536) × (length answer.old ≡ 131073) }
        ensures { Replayed result }
    {
        let at = digits_at(line.len());
        let n = lines::frame(&line[at..], value);
        let got = answers::answer(schema, &value[0..n], res, workspace, answer);
        Replay {
            got: before_newline(got),
            ..self
        }
    }

    pub fn step(
        self,
        line: &[u8],
        schema: &mut [u8],
        value: &mut [u8],
        res: &mut [u8],
        workspace: &mut [u8],
        answer: &mut [u8],
        counts: &mut [u64],
        out: &mut Output<'_, impl CanWrite>,
    ) -> Replay
        requires { Replayed self × Buffers schema.old value.old res.old workspace.old answer.old counts.old }
        ensures { Replayed result }
    {
        let t = Replay {
            lines: self.lines.wrapping_add(1),
            ..self
        };
        match line.first() {
            Some(b'#') => t,
            Some(b's') => t.schema_line(line, schema),
            Some(b'v') => {
                let n = t.schema;
                t.value_line(line, &schema[0..n], value, res, workspace, answer)
            }
            _ => {
                let got = t.got;
                t.compare(line, &answer[0..got], counts, out)
            }
        }
    }
}
