//! The fields of the calls of leases.

ghost use Rattle.std.specs.Prelude.{◌≡◌, ◌≤◌, [], length, IfNone};
ghost use Rattle.std.specs.Option.{option_map};
ghost use Rattle.drm_table.specs.Table.{lease_call, lease_row};

use crate::calls::{Call, CallKind};
use crate::fields::Field::{self, U32};
use crate::fields::Fields;
use crate::lists::IdList;

impl Call {
    /// Returns the kind of a call of leases, and writes its fields in order. For another call it returns `None`, and
    /// writes nothing.
    pub(crate) fn lease_row(&self, fields: &mut Fields<32>) -> Option<CallKind>
        requires empty { fields.old ≡ [] }
        ensures row { lease_row self.now ≡ option_map (λ kind. (kind, fields.new)) result }
        ensures none { IfNone result (fields.new ≡ []) }
    {
        Some(match self {
            Call::CreateLease { ids } => {
                ids.put_fields(fields);
                CallKind::CreateLease
            },
            Call::ListLessees => fields.put(CallKind::ListLessees, &[]),
            Call::GetLease => fields.put(CallKind::GetLease, &[]),
            Call::RevokeLease { lessee } => fields.put(CallKind::RevokeLease, &[U32(*lessee)]),
            _ => return None,
        })
    }
}

impl CallKind {
    /// Returns the call of leases with this row and these fields.
    pub(crate) fn lease_call(self, fields: &[Field]) -> Option<Call>
        requires { length fields.now ≤ 32 }
        ensures { result ≡ lease_call self fields.now }
    {
        Some(match (self, fields) {
            (CallKind::CreateLease, _) => Call::CreateLease {
                ids: IdList::of_fields(fields)?,
            },
            (CallKind::ListLessees, &[]) => Call::ListLessees,
            (CallKind::GetLease, &[]) => Call::GetLease,
            (CallKind::RevokeLease, &[U32(lessee)]) => Call::RevokeLease { lessee },
            _ => return None,
        })
    }
}
