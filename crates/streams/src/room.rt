// A text in room on the stack, so that none is allocated.
ghost use Rattle.std.specs.Prelude.{◌≤◌, length};

use std::fmt::Display;
use std::io::{Cursor, Write};

// The text to the front of room, as far as it fits, and its length.
pub(crate) fn text_to(room: &mut [u8], text: impl Display + Drop) -> usize
    ensures { result ≤ length room.new }
{
    let most = room.len();
    let mut end = Cursor::new(room);
    let _ = write!(end, "{text}");
    most.min(end.position() as usize)
}
