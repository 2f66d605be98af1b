//! Writing one answer.

ghost use Rattle.std.specs.Prelude.{◌^◌, ◌+◌, ◌<◌};
ghost use Rattle.drm_sessions.specs.Reading.{Wrote};

use crate::end::SessionEnd;
use drm_frames::{Sink, Written, put_all};

/// Puts the whole text of an answer, or says how writing it ended the session.
pub(crate) fn write_answer<K: Sink>(
    sink: &mut K,
    text: &[u8],
    turns: &mut u64,
) -> Result<(), SessionEnd>
    requires { (K.trace sink.old).counts.calls + turns.old < 2 ^ 48 }
    ensures { Wrote result (K.trace sink.old) (K.trace sink.new)
        text.now turns.old turns.new }
{
    match put_all(sink, text, turns) {
        Written::Whole => Ok(()),
        Written::Fault => Err(SessionEnd::WriteFault),
        Written::TurnsUsed => Err(SessionEnd::TurnsUsed),
    }
}
