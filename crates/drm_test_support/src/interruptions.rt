//! The interruptions of a source or a sink.
ghost use Rattle.std.specs.Prelude.{◌≡◌, ◌<◌};

/// Future interruptions: those due now, and more each time that a period has passed.
#[derive(Drop)]
pub(crate) struct Interruptions {
    due: u64,
    times: u64,
    /// The bytes until the next period begins.
    until: usize,
    period: usize,
    ghost apart: { 0 < until },
    ghost lasting: { 0 < period },
}

impl Interruptions {
    /// Returns no interruptions.
    pub(crate) fn never() -> Self {
        Interruptions {
            due: 0,
            times: 0,
            until: usize::MAX,
            period: usize::MAX,
        }
    }

    /// Returns this many interruptions, before the byte at this place.
    pub(crate) fn once(times: u64, at: usize) -> Self {
        Interruptions {
            due: if at == 0 { times } else { 0 },
            times: if at == 0 { 0 } else { times },
            until: if at == 0 { usize::MAX } else { at },
            period: usize::MAX,
        }
    }

    /// Returns this many interruptions before each piece of `bytes` bytes.
    pub(crate) fn every(times: u64, bytes: usize) -> Self
        requires { 0 < bytes }
    {
        Interruptions {
            due: times,
            times,
            until: bytes,
            period: bytes,
        }
    }

    /// Takes one of the interruptions that are due, and returns whether there was one.
    pub(crate) fn take_due(&mut self) -> bool {
        let is_due = self.due > 0;
        if is_due {
            self.due -= 1;
        }
        is_due
    }

    /// Returns the number of bytes that may pass before the next interruption.
    pub(crate) fn room(&self) -> usize
        ensures { 0 < result }
    {
        self.until
    }

    /// Advances by these bytes.
    pub(crate) fn pass(&mut self, count: usize) {
        if count < self.until {
            self.until -= count;
        } else {
            self.due = self.times;
            self.until = self.period;
        }
    }
}
