//! The rows of an audit as bytes, and bytes as rows.
ghost use Rattle.std.specs.Prelude.{◌≡◌, ◌+◌, ◌*◌, ◌≤◌, ◌++◌, All, length};
ghost use Rattle.std.specs.List.{flat_map};
ghost use Rattle.drm_frames.specs.Pages.{FitsPage, FitsRow, page_text, row_in, row_text, rows_in};

use crate::number::u64_in;
use crate::text::FrameBytes;
use drm_table::{AuditPage, AuditRow};

fn push_row(fields: &mut FrameBytes, row: &AuditRow)
    requires { length fields.old + 32 ≤ 1028 }
    ensures text { fields.new ≡ fields.old ++ row_text row.now }
    ensures fits { FitsRow row.now }
    ensures length { length fields.new ≡ length fields.old + 32 }
{
    fields.push_u64(row.a);
    fields.push_u64(row.b);
    fields.push_u64(row.c);
    fields.push_u64(row.d);
}

fn push_rows(fields: &mut FrameBytes, rows: &[AuditRow])
    requires { length fields.old + 32 * length rows.now ≤ 1028 }
    ensures text { fields.new ≡ fields.old ++ flat_map row_text rows.now }
    ensures fits { All FitsRow rows.now }
    ensures length { length fields.new ≡ length fields.old + 32 * length rows.now }
{
    for row in rows {
        push_row(fields, row);
    }
}

/// Writes the number of rows of a page, and each of them.
pub(crate) fn push_page(fields: &mut FrameBytes, page: &AuditPage)
    requires { length fields.old + 516 ≤ 1028 }
    ensures text { fields.new ≡ fields.old ++ page_text page.now }
    ensures fits { FitsPage page.now }
    ensures length { length fields.old ≤ length fields.new }
{
    let rows = page.rows();
    fields.push_u32(rows.len() as u32);
    push_rows(fields, rows);
}

fn row_at(bytes: &[u8]) -> AuditRow
    requires { 32 ≤ length bytes.now }
    ensures { result ≡ row_in bytes.now }
{
    let (_, after_a) = bytes.split_at(8);
    let (_, after_b) = bytes.split_at(16);
    let (_, after_c) = bytes.split_at(24);
    AuditRow {
        a: u64_in(bytes),
        b: u64_in(after_a),
        c: u64_in(after_b),
        d: u64_in(after_c),
    }
}

/// Returns the page of `count` rows in the bytes.
pub(crate) fn page_of(count: usize, bytes: &[u8]) -> AuditPage
    requires few { count ≤ 16 }
    requires length { length bytes.now ≡ 32 * count }
    ensures { result ≡ rows_in count bytes.now }
{
    let mut page = AuditPage::new();
    let mut rest = bytes;
    for _ in 0..count {
        page.push(row_at(rest));
        rest = rest.split_at(32).1;
    }
    page
}
