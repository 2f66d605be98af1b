//! The fields of the calls of buffers, of their handles and of their stamps.

ghost use Rattle.std.specs.Prelude.{◌≡◌, [], IfNone};
ghost use Rattle.std.specs.Option.{option_map};
ghost use Rattle.drm_table.specs.Table.{buffer_call, buffer_row};

use crate::calls::{Call, CallKind};
use crate::fields::Field::{self, U32, U64};
use crate::fields::Fields;

impl Call {
    /// Returns the kind of a call of buffers, and writes its fields in order. For another call it returns `None`, and
    /// writes nothing.
    pub(crate) fn buffer_row(&self, fields: &mut Fields<32>) -> Option<CallKind>
        requires empty { fields.old ≡ [] }
        ensures row { buffer_row self.now ≡ option_map (λ kind. (kind, fields.new)) result }
        ensures none { IfNone result (fields.new ≡ []) }
    {
        Some(match self {
            Call::GemClose { handle } => fields.put(CallKind::GemClose, &[U32(*handle)]),
            Call::BufCreate { size } => fields.put(CallKind::BufCreate, &[U64(*size)]),
            Call::StampWrite { handle, stamp } => fields.put(
                CallKind::StampWrite,
                &[U32(*handle), U64(*stamp)],
            ),
            Call::StampRead { handle } => fields.put(CallKind::StampRead, &[U32(*handle)]),
            Call::ListHandles { from } => fields.put(CallKind::ListHandles, &[U32(*from)]),
            Call::CreateDumb { width, height, bpp } => fields.put(
                CallKind::CreateDumb,
                &[U32(*width), U32(*height), U32(*bpp)],
            ),
            Call::DestroyDumb { handle } => fields.put(CallKind::DestroyDumb, &[U32(*handle)]),
            _ => return None,
        })
    }
}

impl CallKind {
    /// Returns the call of buffers with this row and these fields.
    pub(crate) fn buffer_call(self, fields: &[Field]) -> Option<Call>
        ensures { result ≡ buffer_call self fields.now }
    {
        Some(match (self, fields) {
            (CallKind::GemClose, &[U32(handle)]) => Call::GemClose { handle },
            (CallKind::BufCreate, &[U64(size)]) => Call::BufCreate { size },
            (CallKind::StampWrite, &[U32(handle), U64(stamp)]) => Call::StampWrite {
                handle,
                stamp,
            },
            (CallKind::StampRead, &[U32(handle)]) => Call::StampRead { handle },
            (CallKind::ListHandles, &[U32(from)]) => Call::ListHandles { from },
            (CallKind::CreateDumb, &[U32(width), U32(height), U32(bpp)]) => Call::CreateDumb {
                width,
                height,
                bpp,
            },
            (CallKind::DestroyDumb, &[U32(handle)]) => Call::DestroyDumb { handle },
            _ => return None,
        })
    }
}
