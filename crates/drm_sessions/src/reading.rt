//! Reading the next frame.

ghost use Rattle.std.specs.Prelude.{◌≡◌, ◌^◌, ◌+◌, ◌<◌, IfErr};
ghost use Rattle.drm_sessions.specs.Reading.{Reads};

use crate::end::SessionEnd;
use crate::inbox::Inbox;
use drm_frames::{Decoded, Frame, Hello, Refill, Source, decode, hello_of, read_call};
use drm_table::Call;

/// What a frame is read as.
pub(crate) trait Message {
    ghost use Rattle.drm_frames.specs.Grammar.{FrameValue};

    /// What each frame says.
    ghost said: { FrameValue → Self };

    /// Writes what the frame says to a place.
    fn read(frame: &Frame<'_>, place: &mut Self)
        ensures said { place.new ≡ said frame.now };
}

impl Message for Call {
    ghost use Rattle.drm_frames.specs.Requests.{request_of};

    ghost said = { request_of };

    fn read(frame: &Frame<'_>, place: &mut Call) {
        read_call(frame, place);
    }
}

impl Message for Option<Hello> {
    ghost use Rattle.drm_frames.specs.Hellos.{hello_in};

    ghost said = { hello_in };

    fn read(frame: &Frame<'_>, place: &mut Option<Hello>) {
        *place = hello_of(frame);
    }
}

/// Writes what the next frame says to a place, from the bytes that wait and the source. A byte is taken only if no whole
/// frame waits. If there is no further frame, the place is unchanged.
pub(crate) fn next_message<M: Message, S: Source>(
    source: &mut S,
    inbox: &mut Inbox,
    turns: &mut u64,
    place: &mut M,
) -> Result<(), SessionEnd>
    requires { (S.trace source.old).counts.calls + turns.old < 2 ^ 48 }
    ensures reads { Reads M.said place.new result (S.trace source.old) (S.trace source.new)
        inbox.old inbox.new turns.old turns.new }
    ensures err { IfErr result (λ _. place.new ≡ place.old) }
{
    'waiting: loop {
        match decode(inbox.as_slice()) {
            Decoded::Whole(frame, used) => {
                M::read(&frame, place);
                inbox.drop_front(used);
                return Ok(());
            }
            Decoded::TooLong => return Err(SessionEnd::TooLong),
            Decoded::NeedMore => {}
        }
        match inbox.refill(source, turns) {
            Refill::Got(_) => {}
            Refill::End => {
                return Err(if inbox.as_slice().is_empty() {
                    SessionEnd::Ended
                } else {
                    SessionEnd::Truncated
                });
            }
            Refill::Fault => return Err(SessionEnd::ReadFault),
            Refill::TurnsUsed => return Err(SessionEnd::TurnsUsed),
        }
    }
}
