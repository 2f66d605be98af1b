//! The opening that a hello asks for.

ghost use Rattle.std.specs.Prelude.{◌≡◌};
ghost use Rattle.drm_sessions.specs.Opening.{opening_by, node_or_lease};

use crate::class::Class;
use drm_frames::Hello;
use drm_table::Opening;

/// Returns the opening that the first frame asks for, if it is a hello that the class allows.
pub(crate) fn opening_of(class: Class, hello: Option<Hello>) -> Option<Opening>
    ensures { result ≡ opening_by class hello }
{
    let hello = hello?;
    let universal = hello.version == 1;
    match (class, hello.lease) {
        (Class::Card, lease) => Some(node_or_lease(false, universal, lease)),
        (Class::Root, lease) => Some(node_or_lease(true, universal, lease)),
        (Class::Render, None) => Some(Opening::Render),
        (Class::Render, Some(_)) => None,
    }
}

/// Returns a primary node, or what a lease token grants.
fn node_or_lease(root: bool, universal: bool, lease: Option<u32>) -> Opening
    ensures { result ≡ node_or_lease root universal lease }
{
    match lease {
        None => Opening::Primary { root, universal },
        Some(token) => Opening::Lease {
            token,
            root,
            universal,
        },
    }
}
