//! The keys of objects.

ghost use Rattle.std.specs.Prelude.{◌≡◌};

use std::marker::Model;

/// The key of an object of [`Objects`](crate::Objects) while it exists. Another object may have the key afterwards.
/// Contracts see a number.
///
/// # Examples
///
/// ```rust
/// use drm_gem::ObjectKey;
///
/// let key = ObjectKey::from_number(7);
/// ```
#[derive(Clone, Copy, PartialEq, Debug)]
pub struct ObjectKey {
    number: u32,
}

impl Model for ObjectKey {
    ghost use Rattle.std.specs.Prelude.{ℕ};

    ghost Value = { ℕ };

    ghost view = { λ key. key.number };

    ghost inverse = { λ number. record { number = number } };
}

impl ObjectKey {
    /// Returns the key with this number. It may be that of no object. Does not allocate.
    pub fn from_number(number: u32) -> ObjectKey
        ensures { result ≡ number }
    {
        ObjectKey { number }
    }

    /// Returns the key's number.
    pub fn number(self) -> u32
        ensures { result ≡ self }
    {
        self.number
    }
}
