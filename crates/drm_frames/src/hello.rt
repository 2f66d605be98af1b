//! The first frame of a session.
ghost use Rattle.std.specs.Prelude.{◌≡◌, ◌+◌, ◌<◌, ◌≤◌, ◌++◌, true, length};
ghost use Rattle.drm_frames.specs.Hellos.{IsToken, is_version, hello_fields, hello_in, hello_text};

use crate::frame::Frame;
use crate::number::u32_in;
use crate::text::FrameBytes;

/// The first frame of a client (own).
#[derive(Clone, Copy, Debug, PartialEq)]
pub struct Hello {
    /// The version of the protocol: 1, or 2, which opens the client with universal planes off.
    pub version: u32,
    /// The lease token that opens the client, or `None` to open the node itself.
    pub lease: Option<u32>,
}

/// Returns the hello in a frame (own). Does not allocate.
///
/// Returns `None` if the number, the version or the fields are not those of a hello. A token other than 0 without a
/// lease is such a case.
#[tactic(auto, unfolding(crate::specs::Hellos::hello_in))]
pub fn hello_of(frame: &Frame<'_>) -> Option<Hello>
    ensures { result ≡ hello_in frame.now }
{
    let fields = frame.fields();
    if frame.number() != 0x0100 || fields.len() != 12 {
        return None;
    }
    let (_, after_version) = fields.split_at(4);
    let (_, after_what) = fields.split_at(8);
    let version = u32_in(fields);
    if version != 1 && version != 2 {
        return None;
    }
    let token = u32_in(after_what);
    match u32_in(after_version) {
        0 if token == 0 => Some(Hello {
            version,
            lease: None,
        }),
        1 => Some(Hello {
            version,
            lease: Some(token),
        }),
        _ => None,
    }
}

// Writes the fields of a hello.
fn push_hello(text: &mut FrameBytes, hello: Hello)
    requires { length text.old + 12 ≤ 1028 }
    ensures text { text.new ≡ text.old ++ hello_fields hello.version hello.lease }
    ensures fits { IsToken hello.lease }
    ensures length { length text.new ≡ length text.old + 12 }
{
    text.push_u32(hello.version);
    match hello.lease {
        None => {
            text.push_u32(0);
            text.push_u32(0);
        }
        Some(token) => {
            text.push_u32(1);
            text.push_u32(token);
        }
    }
}

/// Returns the bytes of a hello's frame, of version 1 or 2 (own). Does not allocate.
///
/// # Examples
///
/// ```rust
/// use drm_frames::{Decoded, Hello, decode, encode_hello, hello_of};
///
/// let hello = Hello { version: 2, lease: Some(1) };
/// let bytes = encode_hello(hello);
/// let Decoded::Whole(frame, _) = decode(bytes.as_slice()) else { return };
/// assert!(rt; hello_of(&frame) == Some(hello));
/// ```
pub fn encode_hello(hello: Hello) -> FrameBytes
    requires { is_version hello.version ≡ true }
    ensures text { result ≡ hello_text hello }
    ensures fits { IsToken hello.lease }
    ensures some { 0 < length result }
    ensures short { length result ≤ 1028 }
{
    let mut frame = FrameBytes::new();
    frame.begin();
    push_hello(&mut frame, hello);
    frame.finish(0x0100);
    frame
}
