//! The fields of the calls that share objects: by names and by tokens.

ghost use Rattle.std.specs.Prelude.{◌≡◌, [], IfNone};
ghost use Rattle.std.specs.Option.{option_map};
ghost use Rattle.drm_table.specs.Table.{share_call, share_row};

use crate::calls::{Call, CallKind};
use crate::fields::Field::{self, U32};
use crate::fields::Fields;

impl Call {
    /// Returns the kind of a call that shares objects, and writes its fields in order. For another call it returns `None`, and
    /// writes nothing.
    pub(crate) fn share_row(&self, fields: &mut Fields<32>) -> Option<CallKind>
        requires empty { fields.old ≡ [] }
        ensures row { share_row self.now ≡ option_map (λ kind. (kind, fields.new)) result }
        ensures none { IfNone result (fields.new ≡ []) }
    {
        Some(match self {
            Call::GemFlink { handle } => fields.put(CallKind::GemFlink, &[U32(*handle)]),
            Call::GemOpen { name } => fields.put(CallKind::GemOpen, &[U32(*name)]),
            Call::PrimeHandleToFd { handle } => {
                fields.put(CallKind::PrimeHandleToFd, &[U32(*handle)])
            }
            Call::PrimeFdToHandle { token } => {
                fields.put(CallKind::PrimeFdToHandle, &[U32(*token)])
            }
            Call::TokenClose { token } => fields.put(CallKind::TokenClose, &[U32(*token)]),
            _ => return None,
        })
    }
}

impl CallKind {
    /// Returns the call that shares objects with this row and these fields.
    pub(crate) fn share_call(self, fields: &[Field]) -> Option<Call>
        ensures { result ≡ share_call self fields.now }
    {
        Some(match (self, fields) {
            (CallKind::GemFlink, &[U32(handle)]) => Call::GemFlink { handle },
            (CallKind::GemOpen, &[U32(name)]) => Call::GemOpen { name },
            (CallKind::PrimeHandleToFd, &[U32(handle)]) => Call::PrimeHandleToFd { handle },
            (CallKind::PrimeFdToHandle, &[U32(token)]) => Call::PrimeFdToHandle { token },
            (CallKind::TokenClose, &[U32(token)]) => Call::TokenClose { token },
            _ => return None,
        })
    }
}
