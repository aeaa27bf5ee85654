// Lists of frames: one input, and where each of its frames ends.
#![tactic(auto)]

ghost use Rattle.std.specs.Prelude.{◌≡◌};
ghost use Rattle.lists.specs.Frames.{frame_at};

// The frame from one end to the next; no bytes, which are no frame, where the input has no such part.
pub fn frame_at(input: &[u8], from: usize, to: usize) -> &[u8]
    ensures { result.now ≡ frame_at input.now from to }
{
    if to < from {
        return &input[0..0];
    }
    if input.len() < to {
        return &input[0..0];
    }
    &input[from..to]
}
