//! Fields as bytes, and bytes as fields.
ghost use Rattle.std.specs.Prelude.{◌≡◌, ◌+◌, ◌*◌, ◌≤◌, [], ◌++◌, All, length};
ghost use Rattle.std.specs.List.{flat_map};
ghost use Rattle.std.specs.Option.{option_map};
ghost use Rattle.drm_frames.specs.Fields.{field_in, field_text, fields_in, fields_text, if_read, numbers_in};
ghost use Rattle.drm_table.specs.Fields.{FitsField, layout_of};
ghost use Rattle.drm_table.specs.Fields.Layout.{ids};

use crate::number::{u32_in, u64_in};
use crate::text::FrameBytes;
use drm_table::{Field, Fields, Layout, Width};

/// Returns the field in the first bytes, and the bytes after it.
#[tactic(auto, unfolding(crate::specs::Fields::field_in))]
fn field_in(width: Width, bytes: &[u8]) -> Option<(Field, &[u8])>
    ensures { option_map (λ read. (read.0, read.1.now)) result ≡ field_in width bytes.now }
{
    match width {
        Width::U32 => {
            if bytes.len() < 4 {
                return None;
            }
            let (_, behind) = bytes.split_at(4);
            Some((Field::U32(u32_in(bytes)), behind))
        }
        Width::U64 => {
            if bytes.len() < 8 {
                return None;
            }
            let (_, behind) = bytes.split_at(8);
            Some((Field::U64(u64_in(bytes)), behind))
        }
    }
}

/// Reads the fields of these widths, if the bytes are exactly these fields.
#[tactic(auto, unfolding(crate::specs::Fields::numbers_in))]
pub(crate) fn read_numbers<const N: usize>(
    fields: &mut Fields<N>,
    widths: &[Width],
    bytes: &[u8],
) -> bool
    requires empty { fields.old ≡ [] }
    requires few { length widths.now ≤ N }
    ensures { if_read result fields.new ≡ numbers_in widths.now bytes.now }
{
    let mut rest = bytes;
    for width in widths {
        let Some((field, behind)) = field_in(*width, rest) else {
            return false;
        };
        fields.push(field);
        rest = behind;
    }
    rest.is_empty()
}

/// Reads ids, if the bytes are a count and as many ids.
#[tactic(auto, unfolding(crate::specs::Fields::fields_in))]
pub(crate) fn read_ids(fields: &mut Fields<32>, bytes: &[u8]) -> bool
    requires { fields.old ≡ [] }
    ensures { if_read result fields.new ≡ fields_in ids bytes.now }
{
    if bytes.len() < 4 {
        return false;
    }
    let count = u32_in(bytes) as usize;
    if count > Layout::MOST_IDS {
        return false;
    }
    let (_, behind) = bytes.split_at(4);
    read_numbers(fields, Width::of_ids(count), behind)
}

fn push_field(text: &mut FrameBytes, field: Field)
    requires { length text.old + 8 ≤ 1028 }
    ensures text { text.new ≡ text.old ++ field_text field }
    ensures fits { FitsField field }
    ensures length { length text.new ≤ length text.old + 8 }
{
    match field {
        Field::U32(number) => text.push_u32(number),
        Field::U64(number) => text.push_u64(number),
    }
}

/// Writes fields one after the other.
pub(crate) fn push_numbers(text: &mut FrameBytes, fields: &[Field])
    requires { length text.old + 8 * length fields.now ≤ 1028 }
    ensures text { text.new ≡ text.old ++ flat_map field_text fields.now }
    ensures fits { All FitsField fields.now }
    ensures length { length text.new ≤ length text.old + 8 * length fields.now }
{
    for field in fields {
        push_field(text, *field);
    }
}

/// Writes the fields of a layout.
#[tactic(auto, unfolding(crate::specs::Fields::fields_text))]
pub(crate) fn push_fields(text: &mut FrameBytes, layout: Layout, fields: &[Field])
    requires empty { length text.old ≡ 6 }
    requires few { length fields.now ≤ 32 }
    ensures text { text.new ≡ text.old ++ fields_text (layout_of layout) fields.now }
    ensures fits { All FitsField fields.now }
    ensures long { 6 ≤ length text.new }
{
    match layout {
        Layout::Numbers(_) => {}
        Layout::Ids => text.push_u32(fields.len() as u32),
    }
    push_numbers(text, fields);
}
