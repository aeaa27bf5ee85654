// A text that comes in blocks cut into lines: one line is held at a time. What each step cuts from a block and holds of a line is proved.
ghost use Rattle.std.specs.Prelude.{◌≡◌, ◌==◌, false, [], ◌≤◌, length};
ghost use Rattle.std.proofs.Math.Option.{some};
ghost use Rattle.lines.specs.Cut.{newline, line_end, has_newline, first_line, behind_line};
ghost use Rattle.lines.specs.Held.{Held, uncut, held_line, more, is_line};

// How far the input is cut: the block's bytes from `at` to `end` are still to be cut; `filled` characters of the last line are held, none
// where it is `long`, longer than there is room for; whether it is `whole`; and whether the input is `over`, ended or failed.
#[derive(Clone, Copy)]
pub struct Reader {
    pub at: usize,
    pub end: usize,
    pub filled: usize,
    pub long: bool,
    pub whole: bool,
    pub over: bool,
}

fn is_newline(c: u8) -> bool
    ensures { result ≡ (c == newline) }
{
    c == b'\n'
}

// The characters before the first newline, all where there is none.
fn line_end(s: &[u8]) -> usize
    ensures { (result ≡ line_end s.now) × (result ≤ length s.now) }
{
    s.iter().position(|c| is_newline(*c)).unwrap_or(s.len())
}

impl Reader {
    pub fn start() -> Reader
        ensures { (result.at ≡ 0) × (result.end ≡ 0) × (result.filled ≡ 0) × (result.over ≡ false) }
    {
        Reader {
            at: 0,
            end: 0,
            filled: 0,
            long: false,
            whole: false,
            over: false,
        }
    }

    // A piece of a line behind what is held of it, if it fits.
    fn kept(self, piece: &[u8], line: &mut [u8]) -> Reader
        requires { self.filled ≤ length line.old }
        ensures at_value { (result.at ≡ self.at) × (result.end ≡ self.end) × (result.over ≡ self.over) × (result.filled ≤ length line.new) }
        ensures line_after { held_line result line.new ≡ more (length line.old) (held_line self line.old) piece.now }
    {
        let filled = self.filled;
        if self.long {
            return self;
        }
        if line.len() - filled < piece.len() {
            return Reader {
                filled: 0,
                long: true,
                whole: false,
                ..self
            };
        }
        buffer::copy(&mut line[filled..], piece);
        Reader {
            filled: filled + piece.len(),
            long: false,
            whole: false,
            ..self
        }
    }

    // The block's bytes up to the line's end, and past its newline.
    pub fn cut(self, block: &[u8], line: &mut [u8]) -> Reader
        requires { Held self block.now line.old }
        ensures held { Held result block.now line.new }
        ensures line_after { held_line result line.new ≡ more (length line.old) (held_line self line.old) (first_line (uncut self block.now)) }
        ensures whole_value { (result.whole ≡ has_newline (uncut self block.now)) × (uncut result block.now ≡ behind_line (uncut self block.now)) }
        ensures over_value { result.over ≡ self.over }
    {
        let at = self.at;
        let end = self.end;
        let n = line_end(&block[at..end]);
        let stop = at + n;
        let t = self.kept(&block[at..stop], line);
        if stop == end {
            return Reader {
                at: end,
                end,
                whole: false,
                ..t
            };
        }
        Reader {
            at: stop + 1,
            end,
            whole: true,
            ..t
        }
    }

    // The input has ended: a last line may lack its newline.
    pub fn last(self) -> Reader
        ensures { (result.at ≡ self.at) × (result.end ≡ self.end) × (result.filled ≡ self.filled) × (result.long ≡ self.long) × (result.over ≡ self.over) × (result.whole ≡ is_line self) }
    {
        Reader {
            whole: self.long || 0 < self.filled,
            ..self
        }
    }

    // A new line, as far as it stands in the block; `whole` says whether its newline does too.
    pub fn begin(self, block: &[u8], line: &mut [u8]) -> Reader
        requires { Held self block.now line.old }
        ensures held { Held result block.now line.new }
        ensures line_after { held_line result line.new ≡ more (length line.old) (some []) (first_line (uncut self block.now)) }
        ensures whole_value { (result.whole ≡ has_newline (uncut self block.now)) × (uncut result block.now ≡ behind_line (uncut self block.now)) }
        ensures over_value { result.over ≡ self.over }
    {
        let t = Reader {
            filled: 0,
            long: false,
            whole: false,
            ..self
        };
        t.cut(block, line)
    }
}
