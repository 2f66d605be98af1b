//! The calls of mode setting.
#![tactic(auto)]

mod framebuffers;
mod lookups;
mod resources;
mod scanout;
mod seeing;

pub use framebuffers::{add_fb, get_fb, rm_fb};
pub use lookups::{get_connector, get_crtc, get_encoder, get_plane};
pub use resources::{get_plane_resources, get_resources};
pub use scanout::{set_crtc, set_plane};
