//! The fields of the calls of the device: its version, its capabilities and its audit.

ghost use Rattle.std.specs.Prelude.{◌≡◌, [], IfNone};
ghost use Rattle.std.specs.Option.{option_map};
ghost use Rattle.drm_table.specs.Table.{device_call, device_row};

use crate::audits::AuditKind;
use crate::calls::{Call, CallKind};
use crate::fields::Field::{self, U32, U64};
use crate::fields::Fields;

impl Call {
    /// Returns the kind of a call of the device, and writes its fields in order. For another call it returns `None`, and
    /// writes nothing.
    pub(crate) fn device_row(&self, fields: &mut Fields<32>) -> Option<CallKind>
        requires empty { fields.old ≡ [] }
        ensures row { device_row self.now ≡ option_map (λ kind. (kind, fields.new)) result }
        ensures none { IfNone result (fields.new ≡ []) }
    {
        Some(match self {
            Call::Version => fields.put(CallKind::Version, &[]),
            Call::GetCap { cap } => fields.put(CallKind::GetCap, &[U64(*cap)]),
            Call::SetClientCap { cap, value } => fields.put(
                CallKind::SetClientCap,
                &[U64(*cap), U64(*value)],
            ),
            Call::Audit { kind, from } => fields.put(
                CallKind::Audit,
                &[U32(kind.number()), U32(*from)],
            ),
            _ => return None,
        })
    }
}

impl CallKind {
    /// Returns the call of the device with this row and these fields.
    pub(crate) fn device_call(self, fields: &[Field]) -> Option<Call>
        ensures { result ≡ device_call self fields.now }
    {
        Some(match (self, fields) {
            (CallKind::Version, &[]) => Call::Version,
            (CallKind::GetCap, &[U64(cap)]) => Call::GetCap { cap },
            (CallKind::SetClientCap, &[U64(cap), U64(value)]) => Call::SetClientCap { cap, value },
            (CallKind::Audit, &[U32(kind), U32(from)]) => Call::Audit {
                kind: AuditKind::of_number(kind)?,
                from,
            },
            _ => return None,
        })
    }
}
