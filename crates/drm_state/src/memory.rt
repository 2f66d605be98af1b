//! Whether memory is refused.

ghost use Rattle.std.specs.Prelude.{◌≡◌, true, false};
ghost use Rattle.drm_state.specs.declared.memory.Memory.TheVariants.{Ample, Refused};

/// Whether an event that adds a row is answered as if memory were refused (own). Functions take it by value, so that no
/// state can keep it.
#[derive(Clone, Copy)]
pub enum Memory {
    /// An event is refused memory only if the allocator refuses it.
    Ample,
    /// Each event that adds a row is refused memory.
    Refused,
}

impl Memory {
    /// Returns whether memory is refused.
    pub fn is_refused(self) -> bool
        ensures ample { self ≡ Ample → result ≡ false }
        ensures refused { self ≡ Refused → result ≡ true }
    {
        matches!(self, Memory::Refused)
    }
}
