// Whole schema frames.
ghost use Rattle.std.specs.Prelude.{◌≡◌};
ghost use Rattle.frame.specs.Checks.{schema_verdict};

use crate::check::schema_check;
use frame::Verdict;

// The verdict on a whole frame: numbers 2 and 3.
pub fn schema_frame(s: &[u8]) -> Verdict
    ensures { result ≡ schema_verdict s.now }
{
    if 65535 < s.len() {
        return Verdict::NoFrame;
    }
    let Some(node) = schema_check(s, 16) else {
        return Verdict::NoFrame;
    };
    if node.len < s.len() {
        return Verdict::NoFrame;
    }
    if node.sound {
        Verdict::Sound
    } else {
        Verdict::Unsound
    }
}
