//! The rows of names and tokens.

use drm_gem::ObjectKey;

/// A global name of an object (drm-gem(7), flink).
///
/// # Examples
///
/// ```rust
/// use drm_gem::ObjectKey;
/// use drm_share::{Names, SharedName};
///
/// let alloc = rt.alloc();
/// let mut names = Names::new(alloc, 100);
/// let object = ObjectKey::from_number(4);
/// let Ok(name) = names.give(object) else { return };
/// assert!(rt; names.nth_name(0) == Some(SharedName { name, object }));
/// ```
#[derive(Clone, Copy, PartialEq, Debug)]
pub struct SharedName {
    /// The name, which is the same number for all clients.
    pub name: u32,
    /// The object that has it.
    pub object: ObjectKey,
}

/// An open token, used in place of the file descriptor of an exported object (drm-mm, PRIME; tokens are own).
///
/// # Examples
///
/// ```rust
/// use drm_gem::ObjectKey;
/// use drm_share::{SharedToken, Tokens};
///
/// let alloc = rt.alloc();
/// let mut tokens = Tokens::new(alloc, 100);
/// let object = ObjectKey::from_number(4);
/// let Ok(token) = tokens.export(9, object) else { return };
/// assert!(rt; tokens.nth_token(0) == Some(SharedToken { token, client: 9, object }));
/// ```
#[derive(Clone, Copy, PartialEq, Debug)]
pub struct SharedToken {
    /// The token, which is the same number for all clients.
    pub token: u32,
    /// The client that exported the object. Only it may close the token.
    pub client: u32,
    /// The exported object.
    pub object: ObjectKey,
}
