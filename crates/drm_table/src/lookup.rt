//! The row of a number.

ghost use Rattle.std.specs.Prelude.{◌≡◌};
ghost use Rattle.std.specs.Option.{option_map};
ghost use Rattle.drm_table.specs.Fields.{layout_of};
ghost use Rattle.drm_table.specs.Table.{row_of};

use crate::calls::CallKind;
use crate::rows::Row;

/// Returns the row of the call with this number, or `None` if no row has it.
///
/// # Examples
///
/// ```rust
/// use drm_table::row;
///
/// let Some(found) = row(0x02) else { return };
/// assert!(rt; found.name == "GET_MAGIC");
/// ```
#[tactic(auto, unfolding(crate::specs::Table::row_of))]
pub fn row(number: u16) -> Option<Row>
    ensures number { option_map (λ row. row.number) result ≡ option_map (λ row. row.number) (row_of number) }
    ensures word { option_map (λ row. row.word.now) result ≡ option_map (λ row. row.word) (row_of number) }
    ensures layout { option_map (λ row. layout_of row.layout) result ≡ option_map (λ row. row.layout) (row_of number) }
    ensures flags { option_map (λ row. row.flags) result ≡ option_map (λ row. row.flags) (row_of number) }
    ensures name { option_map (λ row. row.name.now) result ≡ option_map (λ row. row.name) (row_of number) }
    ensures family { option_map (λ row. row.family) result ≡ option_map (λ row. row.family) (row_of number) }
{
    match CallKind::of_number(number) {
        Some(kind) => Some(kind.row()),
        None => None,
    }
}
