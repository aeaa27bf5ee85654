// Program almanac: the calendar's answers beside a list of what java.time answers. A line of standard input is a letter, the call's
// bytes in hexadecimal, and the answer: its bytes in hexadecimal, or `-` and the refusal's number; or it begins with `#` and says
// something. Each line whose answer is another is named, and at the end both are counted.
//
//     c DATE ANSWER                the year, month and day of a Date: 4 bytes, and 12
//     d YEAR MONTH DAY ANSWER      the Date of a day: 12 bytes, and 4
//     a INSTANT DURATION ANSWER    a Duration's frame added to an instant's: the length of the first frame stands before it
//     w OPENING CLOSING INSTANT ANSWER    whether a window holds an instant, 01 or 00: as before, for the first two frames
//
// The bytes of a line stand together, and numbers are high byte first.
#![tactic(auto)]

ghost use Rattle.std.specs.Prelude.{◌≤◌, length, IfSome};

use calendar::Civil;
use streams::CanWrite;
use streams::output::Output;
use streams::tally::Tally;

// A line that is no call is answered with the number 0, which no refusal has.
const NO_CALL: u8 = 0;

// ---- the calls: the answer's bytes go to the front of out; how many they are, or the refusal's number

fn civil(s: &[u8], out: &mut [u8]) -> Result<usize, u8>
    requires { 12 ≤ length out.old }
{
    if s.len() != 4 {
        return Err(NO_CALL);
    }
    let c = calendar::civil_of(number::read4(s, 0).cast_signed());
    number::put4(out, 0, c.year.cast_unsigned());
    number::put4(out, 4, c.month);
    number::put4(out, 8, c.day);
    Ok(12)
}

fn date(s: &[u8], out: &mut [u8]) -> Result<usize, u8>
    requires { 12 ≤ length out.old }
{
    if s.len() != 12 {
        return Err(NO_CALL);
    }
    let c = Civil {
        year: number::read4(s, 0).cast_signed(),
        month: number::read4(s, 4),
        day: number::read4(s, 8),
    };
    match calendar::date_of(c) {
        Ok(z) => {
            number::put4(out, 0, z.cast_unsigned());
            Ok(4)
        }
        Err(e) => Err(e.number()),
    }
}

// A signed answer: a number below 100, or a refusal's negated.
fn signed(code: i32) -> Result<usize, u8> {
    let b = code.cast_unsigned();
    if b < 100 {
        return Ok(b as usize);
    }
    let e = 0xffff_ffff - b;
    if e < 99 {
        return Err((e + 1) as u8);
    }
    Err(NO_CALL)
}

// Where the frame ends whose length stands before it.
fn frame_end(s: &[u8]) -> Option<usize>
    ensures { IfSome result (λ e. (1 ≤ e) × (e ≤ length s.now)) }
{
    let e = usize::from(*s.first()?) + 1;
    if s.len() < e { None } else { Some(e) }
}

fn add(s: &[u8], out: &mut [u8]) -> Result<usize, u8> {
    let e = frame_end(s).ok_or(NO_CALL)?;
    signed(instants::add(&s[1..e], &s[e..], out))
}

// Whether the window that opens with a frame holds an instant: the closing, with its length before it, and the instant are in s.
fn holds_from(opening: &[u8], s: &[u8]) -> Result<usize, u8> {
    let e = frame_end(s).ok_or(NO_CALL)?;
    signed(instants::holds(opening, &s[1..e], &s[e..]))
}

fn holds(s: &[u8], out: &mut [u8]) -> Result<usize, u8>
    requires { 12 ≤ length out.old }
{
    let e = frame_end(s).ok_or(NO_CALL)?;
    let n = holds_from(&s[1..e], &s[e..])?;
    out[0] = (n % 256) as u8;
    Ok(1)
}

// The call that a letter stands for.
fn called(letter: u8, s: &[u8], out: &mut [u8]) -> Result<usize, u8>
    requires { 12 ≤ length out.old }
{
    match letter {
        b'c' => civil(s, out),
        b'd' => date(s, out),
        b'a' => add(s, out),
        b'w' => holds(s, out),
        _ => Err(NO_CALL),
    }
}

// ---- lines

// Whether a call has the answer that a line expects.
fn is_expected(letter: u8, s: &[u8], expected: &[u8]) -> bool {
    let mut bytes = [0u8; 12];
    let mut text = [0u8; 24];
    let r = called(letter, s, &mut bytes);
    let n = lines::list::told(r, &bytes, &mut text);
    text::same(&text[..n], expected)
}

// A line: two characters stand before the call's bytes, and a space behind them.
fn counted(t: Tally, line: &[u8], room: &mut [u8], out: &mut Output<'_, impl CanWrite>) -> Tally {
    let n = line.len();
    if n < 1 {
        return t.compared(false, out);
    }
    if line[0] == b'#' {
        return t.passed_over();
    }
    if n < 2 {
        return t.compared(false, out);
    }
    let rest = &line[2..];
    let Some(e) = lines::list::space(rest) else {
        return t.compared(false, out);
    };
    let k = lines::frame(&rest[..e], room);
    let after = e + 1;
    t.compared(is_expected(line[0], &room[..k], &rest[after..]), out)
}

fn main(rt: HostRuntime) {
    if streams::output::usage(
        &rt,
        streams::output::words(&rt),
        b"usage: almanac < LIST\nReads calls of the calendar and their answers from standard input. It takes no arguments.\n",
    ) {
        return;
    }
    let mut block = [0u8; 4096];
    let mut line = [0u8; 4096];
    let mut room = [0u8; 2048];
    let mut out = Output::new(&rt);
    let mut t = Tally::start();
    streams::input::each_line(&rt, &mut block, &mut line, &mut out, |line, out| {
        t = counted(t, line, &mut room, out);
    });
    t.report(b" answers", &mut out);
}
