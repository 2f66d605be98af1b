//! A row of the tables of rules and faults.

ghost use Rattle.std.specs.Prelude.{◌≡◌};

/// The number, errno and name of a refusal.
#[derive(Clone, Copy)]
pub(crate) struct RefusalRow {
    pub(crate) number: u32,
    pub(crate) errno: u32,
    pub(crate) name: &'static str,
}

/// Returns the row with these columns.
pub(crate) fn row(number: u32, errno: u32, name: &'static str) -> RefusalRow
    ensures number { result.number ≡ number }
    ensures errno { result.errno ≡ errno }
    ensures name { result.name.now ≡ name.now }
{
    RefusalRow {
        number,
        errno,
        name,
    }
}
