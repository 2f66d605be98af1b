//! The fields of the calls of framebuffers.

ghost use Rattle.std.specs.Prelude.{◌≡◌, [], IfNone};
ghost use Rattle.std.specs.Option.{option_map};
ghost use Rattle.drm_table.specs.Table.{framebuffer_call, framebuffer_row};

use crate::calls::{Call, CallKind};
use crate::fields::Field::{self, U32};
use crate::fields::Fields;

impl Call {
    /// Returns the kind of a call of framebuffers, and writes its fields in order. For another call it returns `None`, and
    /// writes nothing.
    pub(crate) fn framebuffer_row(&self, fields: &mut Fields<32>) -> Option<CallKind>
        requires empty { fields.old ≡ [] }
        ensures row { framebuffer_row self.now ≡ option_map (λ kind. (kind, fields.new)) result }
        ensures none { IfNone result (fields.new ≡ []) }
    {
        Some(match self {
            Call::GetFb { framebuffer } => fields.put(CallKind::GetFb, &[U32(*framebuffer)]),
            Call::AddFb {
                width,
                height,
                pitch,
                bpp,
                handle,
            } => fields.put(
                CallKind::AddFb,
                &[
                    U32(*width),
                    U32(*height),
                    U32(*pitch),
                    U32(*bpp),
                    U32(*handle),
                ],
            ),
            Call::RmFb { framebuffer } => fields.put(CallKind::RmFb, &[U32(*framebuffer)]),
            _ => return None,
        })
    }
}

impl CallKind {
    /// Returns the call of framebuffers with this row and these fields.
    pub(crate) fn framebuffer_call(self, fields: &[Field]) -> Option<Call>
        ensures { result ≡ framebuffer_call self fields.now }
    {
        Some(match (self, fields) {
            (CallKind::GetFb, &[U32(framebuffer)]) => Call::GetFb { framebuffer },
            (CallKind::AddFb, &[U32(width), U32(height), U32(pitch), U32(bpp), U32(handle)]) =>
                Call::AddFb {
                    width,
                    height,
                    pitch,
                    bpp,
                    handle,
                },
            (CallKind::RmFb, &[U32(framebuffer)]) => Call::RmFb { framebuffer },
            _ => return None,
        })
    }
}
