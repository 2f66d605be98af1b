//! The fields of the calls of masters and magics.

ghost use Rattle.std.specs.Prelude.{◌≡◌, [], IfNone};
ghost use Rattle.std.specs.Option.{option_map};
ghost use Rattle.drm_table.specs.Table.{master_call, master_row};

use crate::calls::{Call, CallKind};
use crate::fields::Field::{self, U32};
use crate::fields::Fields;

impl Call {
    /// Returns the kind of a call of masters and magics, and writes its fields in order. For another call it returns `None`, and
    /// writes nothing.
    pub(crate) fn master_row(&self, fields: &mut Fields<32>) -> Option<CallKind>
        requires empty { fields.old ≡ [] }
        ensures row { master_row self.now ≡ option_map (λ kind. (kind, fields.new)) result }
        ensures none { IfNone result (fields.new ≡ []) }
    {
        Some(match self {
            Call::GetMagic => fields.put(CallKind::GetMagic, &[]),
            Call::AuthMagic { magic } => fields.put(CallKind::AuthMagic, &[U32(*magic)]),
            Call::SetMaster => fields.put(CallKind::SetMaster, &[]),
            Call::DropMaster => fields.put(CallKind::DropMaster, &[]),
            _ => return None,
        })
    }
}

impl CallKind {
    /// Returns the call of masters and magics with this row and these fields.
    pub(crate) fn master_call(self, fields: &[Field]) -> Option<Call>
        ensures { result ≡ master_call self fields.now }
    {
        Some(match (self, fields) {
            (CallKind::GetMagic, &[]) => Call::GetMagic,
            (CallKind::AuthMagic, &[U32(magic)]) => Call::AuthMagic { magic },
            (CallKind::SetMaster, &[]) => Call::SetMaster,
            (CallKind::DropMaster, &[]) => Call::DropMaster,
            _ => return None,
        })
    }
}
