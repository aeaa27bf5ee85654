// Program corrected: the current finishes of lists of frames beside a list of what a plain reading of the request answers. A line of
// standard input is `HEX ANSWER`, or it begins with `#` and says something. Each line whose answer is another is named, and at the end
// both are counted.
//
//     HEX       the number of frames in a byte, where each frame ends in 2 bytes, high byte first, and the input's bytes
//     ANSWER    the answer's bytes in hexadecimal, `=` where there are none, or `-` and the refusal's number
#![tactic(auto)]

ghost use Rattle.std.specs.Prelude.{◌*◌, ◌≤◌, length, IfSome};

use streams::CanWrite;
use streams::output::Output;
use streams::tally::Tally;

// A line that is no call is answered with the number 0, which no refusal has.
const NO_CALL: u8 = 0;

// ---- the call: the answer's bytes go to the front of result; how many they are, or the refusal's number

// Where the input begins, behind the number of frames and their ends, if there are so many bytes.
fn input_at(s: &[u8]) -> Option<usize>
    ensures { IfSome result (λ at. (1 ≤ at) × (at ≤ length s.now) × (at ≤ 511)) }
{
    let at = 2 * usize::from(*s.first()?) + 1;
    if s.len() < at { None } else { Some(at) }
}

// The ends to the front of a table, and how many they are.
fn read_ends(s: &[u8], ends: &mut [usize]) -> usize
    requires { length s.now ≤ 2 * length ends.old }
    ensures { result ≤ length ends.old }
{
    let n = s.len() / 2;
    for i in 0..n {
        ends[i] = number::read2(s, 2 * i) as usize;
    }
    n
}

fn called(s: &[u8], res: &mut [u8], workspace: &mut [u8]) -> Result<usize, u8> {
    let at = input_at(s).ok_or(NO_CALL)?;
    let mut ends = [0usize; 256];
    let n = read_ends(&s[1..at], &mut ends);
    hulmbax::current(&s[at..], &ends[0..n], res, workspace).map_err(|e| e.number())
}

// ---- lines

// Whether a call has the answer that a line expects.
fn is_expected(s: &[u8], expected: &[u8], workspace: &mut [u8]) -> bool {
    let mut result = [0u8; 256];
    let mut text = [0u8; 512];
    let r = called(s, &mut result, workspace);
    let n = lines::list::told(r, &result, &mut text);
    text::same(&text[0..n], expected)
}

// A line: a space stands behind the call's bytes.
fn counted(
    t: Tally,
    line: &[u8],
    room: &mut [u8],
    workspace: &mut [u8],
    out: &mut Output<'_, impl CanWrite>,
) -> Tally {
    if line.len() < 1 {
        return t.compared(false, out);
    }
    if line[0] == b'#' {
        return t.passed_over();
    }
    let Some(e) = lines::list::space(line) else {
        return t.compared(false, out);
    };
    let k = lines::frame(&line[..e], room);
    let after = e + 1;
    t.compared(is_expected(&room[0..k], &line[after..], workspace), out)
}

fn main(rt: HostRuntime) {
    if streams::output::usage(
        &rt,
        streams::output::words(&rt),
        b"usage: corrected < LIST\nReads lists of frames and their current finishes from standard input. It takes no arguments.\n",
    ) {
        return;
    }
    let mut block = [0u8; 4096];
    let mut line = [0u8; 4096];
    let mut room = [0u8; 2048];
    let mut workspace = [0u8; 65536];
    let mut out = Output::new(&rt);
    let mut t = Tally::start();
    streams::input::each_line(&rt, &mut block, &mut line, &mut out, |line, out| {
        t = counted(t, line, &mut room, &mut workspace, out);
    });
    t.report(b" answers", &mut out);
}
