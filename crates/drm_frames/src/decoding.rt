//! The frame at the front of bytes.
ghost use Rattle.drm_frames.specs.Decoding.{Decodes};

use crate::frame::Frame;
use crate::number::{u16_in, u32_in};

/// The frame at the front of bytes, if it is complete.
#[derive(Debug, Drop)]
pub enum Decoded<'a> {
    /// A frame, and the number of its bytes.
    Whole(Frame<'a>, usize),
    /// Less than a frame. More bytes are needed.
    NeedMore,
    /// A length that no frame has: below 2, or above 1,024.
    TooLong,
}

/// Returns the frame at the front of the bytes (own). More bytes may follow it. Does not allocate.
///
/// It returns `TooLong` as soon as the four bytes of the length are available.
///
/// # Examples
///
/// ```rust
/// use drm_frames::{Decoded, decode};
///
/// let Decoded::Whole(frame, used) = decode(&[2, 0, 0, 0, 0x02, 0x00]) else { return };
/// assert!(rt; used == 6 && frame.number() == 0x02 && frame.fields().is_empty());
/// assert!(rt; matches!(decode(&[1, 0, 0, 0]), Decoded::TooLong));
/// ```
pub fn decode(bytes: &[u8]) -> Decoded<'_>
    ensures { Decodes bytes.now result }
{
    if bytes.len() < 4 {
        return Decoded::NeedMore;
    }
    let length = u32_in(bytes) as usize;
    if length < 2 || length > 1024 {
        return Decoded::TooLong;
    }
    let (_, rest) = bytes.split_at(4);
    if rest.len() < length {
        return Decoded::NeedMore;
    }
    let (body, _) = rest.split_at(length);
    let (_, fields) = body.split_at(2);
    Decoded::Whole(Frame::new(u16_in(body), fields), 4 + length)
}
