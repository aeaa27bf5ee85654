// Hexadecimal and decimal digits of program resolve: a line to the bytes of its frame, and bytes and numbers to digits.
#![tactic(auto)]

ghost use Rattle.std.specs.Prelude.{◌≡◌, ◌++◌, ◌+◌, ◌*◌, ◌≤◌, ◌<◌, length, drop};
ghost use Rattle.uuid_text.specs.Rfc4122.{small_digit};
ghost use Rattle.hex_text.specs.Hex.{hex_of, decimal};
ghost use Rattle.hex_text.specs.Line.{line_frame, LineHeld};

mod table;

// Why a line is no frame: it isn't whole pairs of digits; there are more pairs than there is room for.
#[derive(Clone, Copy, Debug, PartialEq, Eq)]
pub enum HexError {
    Broken,
    TooLong,
}

// The bytes of a line's pairs of digits, in either case, to the front of out, and how many they are.
pub fn from_hex(line: &[u8], out: &mut [u8]) -> Result<usize, HexError>
    ensures value { result ≡ line_frame (length out.old) line.now }
    ensures line_held { LineHeld result line.now out.old out.new }
{
    let pairs = line.len() / 2;
    if out.len() < pairs {
        return Err(HexError::TooLong);
    }
    let values = table::values();
    for i in 0..pairs {
        let h = table::value(&values, line[2 * i]).ok_or(HexError::Broken)?;
        let l = table::value(&values, line[2 * i + 1]).ok_or(HexError::Broken)?;
        out[i] = h * 16 + l;
    }
    if 2 * pairs < line.len() {
        return Err(HexError::Broken);
    }
    Ok(pairs)
}

// The small digit of a value below 16.
fn small_digit(n: u8) -> u8
    requires { n < 16 }
    ensures { result ≡ small_digit n }
{
    if n < 10 { 0x30 + n } else { 0x57 + n }
}

// Two small digits for each byte, to the front of out.
pub fn to_hex(bytes: &[u8], out: &mut [u8])
    requires { 2 * length bytes.now ≤ length out.old }
    ensures { out.new ≡ hex_of bytes.now ++ drop (2 * length bytes.now) out.old }
{
    // By index: what a slice holds after it was lent in chunks, std doesn't say.
    for (i, b) in bytes.iter().enumerate() {
        out[2 * i] = small_digit(*b / 16);
        out[2 * i + 1] = small_digit(*b % 16);
    }
}

// The decimal digits of a number below 100 to the front of out, and how many they are.
pub fn decimal_to(n: u8, out: &mut [u8]) -> usize
    requires { (n < 100) × (2 ≤ length out.old) }
    ensures value { (result ≡ length (decimal n)) × (result ≤ 2) }
    ensures out_after { out.new ≡ decimal n ++ drop (length (decimal n)) out.old }
{
    // By hand: whether `write!` has room, and what stands behind its text, std doesn't say.
    if n < 10 {
        out[0] = small_digit(n);
        1
    } else {
        out[0] = small_digit(n / 10);
        out[1] = small_digit(n % 10);
        2
    }
}
