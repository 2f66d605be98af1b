//! Numbers for random calls.

ghost use Rattle.std.specs.Prelude.{◌<◌};

/// A generator of numbers, the same ones at each run.
#[derive(Drop)]
pub(crate) struct Numbers {
    state: u32,
}

impl Numbers {
    pub(crate) fn new() -> Self {
        Numbers {
            state: 2_463_534_242,
        }
    }

    /// A number below `limit`.
    pub(crate) fn below(&mut self, limit: usize) -> usize
        requires { 0 < limit }
        ensures { result < limit }
    {
        self.state = self
            .state
            .wrapping_mul(1_664_525)
            .wrapping_add(1_013_904_223);
        (self.state >> 8) as usize % limit
    }
}
