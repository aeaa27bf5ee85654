// Lines of the programs: a text cut into lines, the frame that a line stands for, and the line for an answer.
#![tactic(auto)]

pub mod input;
pub mod list;

ghost use Rattle.std.specs.Prelude.{◌≡◌, [], ◌∷◌, ◌++◌, ◌+◌, ◌*◌, ◌≤◌, ◌<◌, length, take, drop};
ghost use Rattle.base.specs.Base.{ok, stop};
ghost use Rattle.lines.specs.Cut.{newline};
ghost use Rattle.lines.specs.Line.{answer_line, held_frame};

// A line's frame at the front of out, and its length; no bytes where the line is no frame or there is no room for it.
pub fn frame(line: &[u8], out: &mut [u8]) -> usize
    ensures value { (result ≡ length (held_frame (length out.old) line.now)) × (result ≤ length out.new) }
    ensures out_after { take result out.new ≡ held_frame (length out.old) line.now }
{
    hex_text::from_hex(line, out).unwrap_or(0)
}

// A sign and a space in front of the n characters from out[2] on, and a newline behind them; the line's length.
fn around(sign: u8, n: usize, out: &mut [u8]) -> usize
    requires { n + 3 ≤ length out.old }
    ensures value { result ≡ n + 3 }
    ensures out_after { out.new ≡ (sign ∷ 0x20 ∷ []) ++ take n (drop 2 out.old) ++ (newline ∷ []) ++ drop (n + 3) out.old }
{
    out[0] = sign;
    out[1] = b' ';
    out[n + 2] = b'\n';
    n + 3
}

// The line for a result, to the front of out; its length.
pub fn accepted(bytes: &[u8], out: &mut [u8]) -> usize
    requires { 2 * length bytes.now + 3 ≤ length out.old }
    ensures value { result ≡ length (answer_line (ok bytes.now)) }
    ensures out_after { out.new ≡ answer_line (ok bytes.now) ++ drop (length (answer_line (ok bytes.now))) out.old }
{
    let n = 2 * bytes.len();
    hex_text::to_hex(bytes, &mut out[2..]);
    around(b'+', n, out)
}

// The line for the number of what stops a value, to the front of out; its length.
pub fn refused(number: u8, out: &mut [u8]) -> usize
    requires { (number < 100) × (5 ≤ length out.old) }
    ensures value { result ≡ length (answer_line (stop number)) }
    ensures out_after { out.new ≡ answer_line (stop number) ++ drop (length (answer_line (stop number))) out.old }
{
    let n = hex_text::decimal_to(number, &mut out[2..]);
    around(b'-', n, out)
}
