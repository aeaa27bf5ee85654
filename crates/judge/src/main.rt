// Program judge: the readers' verdicts beside a list of what frames are known to be. A line of standard input is `s` or `v`, for a
// schema or a value, the frame in hexadecimal, and a mark: `+` for a sound frame, else the number that stops it; or it begins with
// `#` and says something. Each line whose frame has another mark is named, and at the end both are counted.
#![tactic(auto)]

ghost use Rattle.std.specs.Prelude.{◌≡◌};
ghost use Rattle.judge.specs.Mark.{schema_mark, value_mark, mark_of};

use frame::Verdict;
use streams::CanWrite;
use streams::output::Output;
use streams::tally::Tally;

#[tactic(auto, unfolding(crate::specs::Mark::schema_mark))]
fn schema_mark(v: Verdict) -> u8
    ensures { result ≡ schema_mark v }
{
    match v {
        Verdict::NoFrame => b'2',
        Verdict::Unsound => b'3',
        Verdict::Sound => b'+',
    }
}

#[tactic(auto, unfolding(crate::specs::Mark::value_mark))]
fn value_mark(v: Verdict) -> u8
    ensures { result ≡ value_mark v }
{
    match v {
        Verdict::NoFrame | Verdict::Unsound => b'5',
        Verdict::Sound => b'+',
    }
}

// The mark of a frame.
fn frame_mark(letter: u8, frame: &[u8]) -> u8
    ensures { result ≡ mark_of letter frame.now }
{
    if letter == b's' {
        return schema_mark(schema::schema_frame(frame));
    }
    if letter == b'v' {
        return value_mark(value::value_frame(frame));
    }
    0
}

// A line: two characters stand before the frame and two behind it.
fn counted(t: Tally, line: &[u8], room: &mut [u8], out: &mut Output<'_, impl CanWrite>) -> Tally {
    let n = line.len();
    if n < 4 {
        return t.compared(false, out);
    }
    if line[0] == b'#' {
        return t.passed_over();
    }
    let end = n - 2;
    let k = lines::frame(&line[2..end], room);
    let found = frame_mark(line[0], &room[..k]);
    t.compared(found == line[n - 1], out)
}

fn main(rt: HostRuntime) {
    if streams::output::usage(
        &rt,
        streams::output::words(&rt),
        b"usage: judge < LIST\nReads a list of frames and their marks from standard input. It takes no arguments.\n",
    ) {
        return;
    }
    let mut block = [0u8; 65536];
    let mut line = [0u8; 131200];
    let mut room = [0u8; 65600];
    let mut out = Output::new(&rt);
    let mut t = Tally::start();
    streams::input::each_line(&rt, &mut block, &mut line, &mut out, |line, out| {
        t = counted(t, line, &mut room, out);
    });
    t.report(b" frames", &mut out);
}
