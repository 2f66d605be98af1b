//! The fields of the calls of CRTCs, encoders, connectors and planes.

ghost use Rattle.std.specs.Prelude.{◌≡◌, [], IfNone};
ghost use Rattle.std.specs.Option.{option_map};
ghost use Rattle.drm_table.specs.Table.{mode_call, mode_row};

use crate::calls::{Call, CallKind};
use crate::fields::Field::{self, U32};
use crate::fields::Fields;

impl Call {
    /// Returns the kind of a call of mode objects, and writes its fields in order. For another call it returns `None`, and
    /// writes nothing.
    pub(crate) fn mode_row(&self, fields: &mut Fields<32>) -> Option<CallKind>
        requires empty { fields.old ≡ [] }
        ensures row { mode_row self.now ≡ option_map (λ kind. (kind, fields.new)) result }
        ensures none { IfNone result (fields.new ≡ []) }
    {
        Some(match self {
            Call::GetResources => fields.put(CallKind::GetResources, &[]),
            Call::GetCrtc { crtc } => fields.put(CallKind::GetCrtc, &[U32(*crtc)]),
            Call::SetCrtc {
                crtc,
                framebuffer,
                connector,
            } => fields.put(
                CallKind::SetCrtc,
                &[U32(*crtc), U32(*framebuffer), U32(*connector)],
            ),
            Call::GetEncoder { encoder } => fields.put(CallKind::GetEncoder, &[U32(*encoder)]),
            Call::GetConnector { connector } => fields.put(
                CallKind::GetConnector,
                &[U32(*connector)],
            ),
            Call::GetPlaneResources => fields.put(CallKind::GetPlaneResources, &[]),
            Call::GetPlane { plane } => fields.put(CallKind::GetPlane, &[U32(*plane)]),
            Call::SetPlane {
                plane,
                crtc,
                framebuffer,
            } => fields.put(
                CallKind::SetPlane,
                &[U32(*plane), U32(*crtc), U32(*framebuffer)],
            ),
            _ => return None,
        })
    }
}

impl CallKind {
    /// Returns the call of mode objects with this row and these fields.
    pub(crate) fn mode_call(self, fields: &[Field]) -> Option<Call>
        ensures { result ≡ mode_call self fields.now }
    {
        Some(match (self, fields) {
            (CallKind::GetResources, &[]) => Call::GetResources,
            (CallKind::GetCrtc, &[U32(crtc)]) => Call::GetCrtc { crtc },
            (CallKind::SetCrtc, &[U32(crtc), U32(framebuffer), U32(connector)]) => Call::SetCrtc {
                crtc,
                framebuffer,
                connector,
            },
            (CallKind::GetEncoder, &[U32(encoder)]) => Call::GetEncoder { encoder },
            (CallKind::GetConnector, &[U32(connector)]) => Call::GetConnector { connector },
            (CallKind::GetPlaneResources, &[]) => Call::GetPlaneResources,
            (CallKind::GetPlane, &[U32(plane)]) => Call::GetPlane { plane },
            (CallKind::SetPlane, &[U32(plane), U32(crtc), U32(framebuffer)]) => Call::SetPlane {
                plane,
                crtc,
                framebuffer,
            },
            _ => return None,
        })
    }
}
