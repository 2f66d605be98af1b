//! The results of a change of masters.

use drm_table::Rule;

/// The way in which a client became current (drm-uapi, SET_MASTER).
///
/// # Examples
///
/// ```rust
/// use drm_masters::{Masters, SetDone};
///
/// let alloc = rt.alloc();
/// let mut masters = Masters::new(alloc, 4, 4);
/// let Ok(_first) = masters.on_open(1, 1) else { return };
/// assert!(rt; masters.member(1).is_none() || masters.set(1, false, 2) == Ok(SetDone::Already));
/// ```
#[derive(Clone, Copy, PartialEq, Debug)]
pub enum SetDone {
    /// The client was current already.
    Already,
    /// The client's own master was set again.
    Again,
    /// The client was no master: a new one was created for it and set.
    Made,
}

/// The reason SET_MASTER failed. The state is unchanged.
///
/// # Examples
///
/// ```rust
/// use drm_masters::{Masters, SetFault};
/// use drm_table::Rule;
///
/// let alloc = rt.alloc();
/// let mut masters = Masters::new(alloc, 4, 4);
/// let Ok(_first) = masters.on_open(1, 1) else { return };
/// let Ok(_second) = masters.on_open(2, 2) else { return };
/// let denied = Err(SetFault::Denied(Rule::MasterPerm));
/// assert!(rt; masters.member(2).is_none() || masters.set(2, false, 3) == denied);
/// ```
#[derive(Clone, Copy, PartialEq, Debug)]
pub enum SetFault {
    /// A rule denies it.
    Denied(Rule),
    /// Memory for a new master was refused.
    NoMemory,
}

/// The reason a lessee was not created. The state is unchanged.
///
/// # Examples
///
/// ```rust
/// use drm_masters::{LesseeFault, Masters};
///
/// let alloc = rt.alloc();
/// let mut masters = Masters::new(alloc, 4, 0);
/// let Ok(_first) = masters.on_open(1, 1) else { return };
/// let Some(owner) = masters.master(1) else { return };
/// assert!(rt; masters.make_lessee(owner.key, 4) == Err(LesseeFault::Full));
/// ```
#[derive(Clone, Copy, PartialEq, Debug)]
pub enum LesseeFault {
    /// The owner has a lessee of each id (own).
    Full,
    /// Memory for the lessee was refused.
    NoMemory,
}
