//! What the device keeps.

use drm_files::Files;
use drm_gem::Objects;
use drm_leases::Leases;
use drm_masters::Masters;
use drm_modes::Modes;
use drm_share::{Names, Tokens};

/// The parts.
pub struct State {
    /// The open clients, with their flags and handles.
    pub files: Files,
    /// How each of them belongs to masters, the masters and magics.
    pub masters: Masters,
    /// What lessees control, and the open tokens that open their clients.
    pub leases: Leases,
    pub objects: Objects,
    /// The global names of objects.
    pub names: Names,
    /// The open tokens of exported objects.
    pub tokens: Tokens,
    /// The fixed mode objects, framebuffers, and what CRTCs and planes show.
    pub modes: Modes,
}

// Written out, so that it is proved once: a derived one is proved again in each crate that drops such a value.
impl Drop for State {
    fn drop(self) {
        let State {
            files,
            masters,
            leases,
            objects,
            names,
            tokens,
            modes,
        } = self;
        drop(files);
        drop(masters);
        drop(leases);
        drop(objects);
        drop(names);
        drop(tokens);
        drop(modes);
    }
}
