//! Several texts, one after the other.

ghost use Rattle.std.specs.Prelude.{◌<◌, ◌+◌, ◌^◌};
ghost use Rattle.drm_frames.specs.Texts.{WritesOut, joined_texts};

use crate::sink::Sink;
use crate::turns::{Written, put_all};

/// Puts each text whole, in order, until one fails. Each call of [`Sink::put`] uses one turn. Does not allocate.
///
/// # Examples
///
/// ```rust
/// use drm_frames::{ToWrite, Written, put_each};
///
/// let mut sink = ToWrite::new(Vec::new(rt.alloc()));
/// let mut turns = 10;
/// let texts = [b"fra".as_slice(), b"me".as_slice()];
/// assert!(rt; put_each(&mut sink, texts.as_slice(), &mut turns) == Written::Whole);
/// assert!(rt; turns == 8);
/// ```
pub fn put_each<K: Sink>(sink: &mut K, texts: &[&[u8]], turns: &mut u64) -> Written
    requires { (K.trace sink.old).counts.calls + turns.old < 2 ^ 48 }
    ensures { WritesOut result (K.trace sink.old) (K.trace sink.new) (joined_texts texts.now) turns.old turns.new }
{
    for text in texts {
        match put_all(sink, text, turns) {
            Written::Whole => {}
            stopped => return stopped,
        }
    }
    Written::Whole
}
