//! A frame: a letter, a 32-bit length with the high byte first, and a body.
ghost use Rattle.std.specs.Prelude.{◌≡◌, length};
ghost use Rattle.session.specs.Frames.{announced, frame_head};

use forms::bytes::be32_at;

/// The length of what stands before a frame's body.
pub const FRAME_HEAD: usize = 5;

/// The longest body of a frame.
pub const LONGEST_BODY: u32 = 12_746;

/// The length of the body that a frame's head announces, or nothing where that is too long.
pub fn body_length(head: [u8; FRAME_HEAD]) -> Option<usize>
    ensures value { result ≡ announced head }
    ensures whole { length head ≡ frame_head }
{
    let announced = be32_at(&head, 1);
    (announced <= LONGEST_BODY).then_some(announced as usize)
}
