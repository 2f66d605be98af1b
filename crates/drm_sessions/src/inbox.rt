//! The bytes that were read and not yet used.

ghost use Rattle.std.specs.Prelude.{◌≡◌, ◌^◌, ◌+◌, ◌<◌, ◌≤◌, ℕ, List, [], length, take, drop};

use drm_frames::{Refill, Source, take_some};
use std::marker::Model;

/// Up to one frame's bytes.
#[derive(Drop)]
pub(crate) struct Inbox {
    bytes: [u8; 1028],
    len: usize,
}

impl Model for Inbox {
    ghost Value = { List ℕ };

    ghost view = { λ s. take s.len s.bytes };

    ghost invariant = { λ s. s.len ≤ 1028 };
}

impl Inbox {
    ghost use Rattle.drm_sessions.specs.Reading.{Supplies};

    pub(crate) fn new() -> Self
        ensures { result ≡ [] }
    {
        Inbox {
            bytes: [0; 1028],
            len: 0,
        }
    }

    pub(crate) fn as_slice(&self) -> &[u8]
        ensures { result.now ≡ self.now }
    {
        &self.bytes[..self.len]
    }

    pub(crate) fn drop_front(&mut self, count: usize)
        requires { count ≤ length self.old }
        ensures { self.new ≡ drop count self.old }
    {
        if count == self.len {
            self.len = 0;
            return;
        }
        self.bytes.rotate_left(count);
        self.len -= count;
    }

    /// Takes bytes from the source after those that wait. Only `Got` changes what waits.
    pub(crate) fn refill<S: Source>(&mut self, source: &mut S, turns: &mut u64) -> Refill
        requires room { length self.old < 1028 }
        requires countable { (S.trace source.old).counts.calls + turns.old < 2 ^ 48 }
        ensures supplies { Supplies result (S.trace source.old) (S.trace source.new)
            self.old self.new turns.old turns.new }
    {
        let refill = take_some(source, &mut self.bytes[self.len..], turns);
        if let Refill::Got(count) = refill {
            self.len += count;
        }
        refill
    }
}
