// A line of a list of calls and the answers that they are to have: where its call ends, and how an answer stands in it.
ghost use Rattle.std.specs.Prelude.{◌≡◌, ◌==◌, ◌*◌, ◌≤◌, ◌<◌, length, IfSome};
ghost use Rattle.std.specs.List.{position};

// The place of the first space.
pub fn space(line: &[u8]) -> Option<usize>
    ensures value { result ≡ position (λ c. c == 0x20) line.now }
    ensures inside { IfSome result (λ n. n < length line.now) }
{
    line.iter().position(|c| *c == b' ')
}

// The digits of the first n bytes; nothing where there are fewer.
fn digits(bytes: &[u8], n: usize, out: &mut [u8]) -> usize
    requires { 2 * length bytes.now ≤ length out.old }
    ensures { result ≤ length out.new }
{
    if bytes.len() < n {
        return 0;
    }
    hex_text::to_hex(&bytes[..n], out);
    2 * n
}

// A refusal's number behind its sign; nothing for one past 99.
fn refused(number: u8, out: &mut [u8]) -> usize
    requires { 3 ≤ length out.old }
    ensures { result ≤ length out.new }
{
    if 100 <= number {
        return 0;
    }
    out[0] = b'-';
    hex_text::decimal_to(number, &mut out[1..]) + 1
}

// An answer as it stands in a line, to the front of out, and its length: the first so many of the bytes, or the sign that there are none; or
// the number of what stopped the call.
pub fn told(answer: Result<usize, u8>, bytes: &[u8], out: &mut [u8]) -> usize
    requires { (2 * length bytes.now ≤ length out.old) × (3 ≤ length out.old) }
    ensures { result ≤ length out.new }
{
    match answer {
        Ok(0) => {
            out[0] = b'=';
            1
        }
        Ok(n) => digits(bytes, n, out),
        Err(number) => refused(number, out),
    }
}
