//! Loops that take and put bytes and retry after interruptions, one call for each turn.
ghost use Rattle.std.specs.Prelude.{◌≡◌, ◌+◌, ◌^◌, ◌<◌, length};
ghost use Rattle.drm_frames.specs.Turns.{
  HandsRest,
  PutCalls,
  Refills,
  TakeCalls,
  Tries,
  Writes,
  gave_by,
};

use crate::sink::{Put, Sink};
use crate::source::{Source, Taken};

/// The number of interruptions in a row that counts as a failure (own).
const LAST_INTERRUPTION: u32 = 1000;

/// The result of [`take_some`].
///
/// # Examples
///
/// ```rust
/// use drm_frames::{FromRead, Refill, take_some};
///
/// let mut source = FromRead::new(b"".as_slice());
/// let mut buffer = [0; 8];
/// let mut turns = 0;
/// assert!(rt; take_some(&mut source, &mut buffer, &mut turns) == Refill::TurnsUsed);
/// ```
#[derive(Clone, Copy, Debug, PartialEq)]
pub enum Refill {
    /// The number of bytes in the front of the buffer, at least 1.
    Got(usize),
    /// No byte is left.
    End,
    /// The source failed, or was interrupted for the 1,000th time in a row.
    Fault,
    /// No turn was left for a call that was needed.
    TurnsUsed,
}

/// The result of [`put_all`] or [`put_each`](crate::put_each).
#[derive(Clone, Copy, Debug, PartialEq)]
pub enum Written {
    /// The sink took every byte.
    Whole,
    /// The sink failed, took no byte, or was interrupted for the 1,000th time in a row.
    Fault,
    /// No turn was left for a call that was needed.
    TurnsUsed,
}

/// Takes bytes into the front of the buffer, which must not be empty, and retries after an interruption.
///
/// Each call of [`Source::take`] uses one turn. Only `Got` takes bytes from those that are left. The rest of the buffer
/// is unspecified. Does not allocate.
///
/// # Examples
///
/// ```rust
/// use drm_frames::{FromRead, Refill, take_some};
///
/// let mut source = FromRead::new(b"frame".as_slice());
/// let mut buffer = [0; 8];
/// let mut turns = 10;
/// assert!(rt; take_some(&mut source, &mut buffer, &mut turns) == Refill::Got(5));
/// assert!(rt; turns == 9);
/// ```
pub fn take_some<S: Source>(source: &mut S, buffer: &mut [u8], turns: &mut u64) -> Refill
    requires room { 0 < length buffer.old }
    requires countable { (S.trace source.old).counts.calls + turns.old < 2 ^ 48 }
    ensures refills { Refills result (S.trace source.old) (S.trace source.new)
        buffer.new turns.old turns.new }

    // It retries only after an interruption, and at most 1,000 of these are in a row.
    ensures tries { Tries (S.trace source.old).counts (S.trace source.new).counts 1 }

    // It faults only if the source failed or after the 1,000th interruption in a row.
    ensures calls { TakeCalls result (S.trace source.old).counts (S.trace source.new).counts
        turns.old }
    ensures gave { (S.trace source.new).gave ≡ gave_by result (S.trace source.old).gave }
{
    'tries: for _ in 0..LAST_INTERRUPTION {
        if *turns == 0 {
            return Refill::TurnsUsed;
        }
        *turns -= 1;
        match source.take(buffer) {
            Taken::Got(count) => return Refill::Got(count),
            Taken::End => return Refill::End,
            Taken::Fault => return Refill::Fault,
            Taken::Interrupted => {}
        }
    }
    Refill::Fault
}

/// Puts the whole text, in as many calls as the sink needs, and retries after an interruption.
///
/// Each call of [`Sink::put`] receives the rest of the text and uses one turn. At `Fault` and `TurnsUsed` the sink has
/// a front of the text, and not the whole. An empty text is `Whole` with no call. Does not allocate.
///
/// # Examples
///
/// ```rust
/// use drm_frames::{ToWrite, Written, put_all};
///
/// let mut sink = ToWrite::new(Vec::new(rt.alloc()));
/// let mut turns = 10;
/// assert!(rt; put_all(&mut sink, b"frame", &mut turns) == Written::Whole);
/// assert!(rt; sink.into_inner().as_slice() == b"frame".as_slice());
/// ```
pub fn put_all<K: Sink>(sink: &mut K, text: &[u8], turns: &mut u64) -> Written
    requires countable { (K.trace sink.old).counts.calls + turns.old < 2 ^ 48 }
    ensures writes { Writes result (K.trace sink.old) (K.trace sink.new)
        text.now turns.old turns.new }

    // Each call takes a byte at least or is a fault, and there are at most 1,000 faults before a byte.
    ensures tries { Tries (K.trace sink.old).counts (K.trace sink.new).counts
        (length text.now) }

    // It faults only if the sink failed or after the 1,000th interruption in a row.
    ensures calls { PutCalls result (K.trace sink.old).counts (K.trace sink.new).counts }
    ensures handed { HandsRest result (K.trace sink.old) (K.trace sink.new) text.now }
{
    let mut rest = text;
    let mut interruptions = 0;
    'pieces: while !rest.is_empty() {
        if *turns == 0 {
            return Written::TurnsUsed;
        }
        *turns -= 1;
        match sink.put(rest) {
            Put::Took(count) => {
                if count == 0 {
                    return Written::Fault;
                }
                rest = rest.split_at(count).1;
                interruptions = 0;
            }
            Put::Interrupted => {
                interruptions += 1;
                if interruptions == LAST_INTERRUPTION {
                    return Written::Fault;
                }
            }
            Put::Fault => return Written::Fault,
        }
    }
    Written::Whole
}
