//! The rows of an audit as text, in an answer and in a listing.

ghost use Rattle.std.specs.Prelude.{◌≡◌, ◌≤◌, ◌+◌, ◌*◌, ◌<◌, ◌++◌, length};
ghost use Rattle.std.specs.List.{flat_map};
ghost use Rattle.arrayvec.specs.ArrayString.{array_string_len};
ghost use Rattle.drm_table.specs.Audits as kinds;
ghost use Rattle.drm_script.specs.Lines.{row_numbers, row_behind, page_words, audit_line};

use crate::texts::{LINE, LineText, push_number};
use arrayvec::ArrayString;
use drm_table::{AuditKind, AuditPage, AuditRow};

/// The four numbers of a row, separated by spaces.
fn push_numbers(text: &mut ArrayString<LINE>, row: &AuditRow)
    requires { array_string_len text.old + 83 ≤ LINE }
    ensures bytes { text.new.bytes ≡ text.old.bytes ++ row_numbers row.now }
    ensures len { array_string_len text.new ≤ array_string_len text.old + 83 }
{
    push_number(text, row.a);
    text.push_str(" ");
    push_number(text, row.b);
    text.push_str(" ");
    push_number(text, row.c);
    text.push_str(" ");
    push_number(text, row.d);
}

/// A row after others, separated from them by a bar.
fn push_row(text: &mut ArrayString<LINE>, row: &AuditRow)
    requires { array_string_len text.old + 86 ≤ LINE }
    ensures bytes { text.new.bytes ≡ text.old.bytes ++ row_behind row.now }
    ensures len { array_string_len text.new ≤ array_string_len text.old + 86 }
{
    text.push_str(" | ");
    push_numbers(text, row);
}

/// Each row after the one before.
fn push_rows(text: &mut ArrayString<LINE>, rows: &[AuditRow])
    requires { array_string_len text.old + 86 * length rows.now ≤ LINE }
    ensures bytes { text.new.bytes ≡ text.old.bytes ++ flat_map row_behind rows.now }
    ensures len { array_string_len text.new ≤ array_string_len text.old + 86 * length rows.now }
{
    for row in rows {
        push_row(text, row);
    }
}

/// The number of rows of a page, and each of them.
pub(crate) fn push_page(text: &mut ArrayString<LINE>, page: &AuditPage)
    requires { array_string_len text.old ≡ 0 }
    ensures bytes { text.new.bytes ≡ text.old.bytes ++ page_words page.now }
    ensures len { array_string_len text.new < LINE }
{
    let rows = page.rows();
    text.push_str("rows ");
    push_number(text, rows.len() as u64);
    push_rows(text, rows);
}

/// Returns the name of a kind, which is short.
#[tactic(auto, unfolding(drm_table::specs::Audits::kind_name))]
fn name_of(kind: AuditKind) -> &'static str
    ensures name { result.now ≡ kinds.kind_name kind }
    ensures short { length result.now ≤ 11 }
{
    kind.name()
}

/// Returns the line of a row in a listing (own). Does not allocate.
///
/// The line is the name of the kind and the four numbers, separated by spaces, and the line end.
///
/// # Examples
///
/// ```rust
/// use drm_script::audit_line;
/// use drm_table::{AuditKind, AuditRow};
///
/// let row = AuditRow { a: 2, b: 4096, c: 1, d: 0 };
/// let line = audit_line(AuditKind::Object, &row);
/// assert!(rt; line.as_bytes() == b"object 2 4096 1 0\n".as_slice());
/// ```
pub fn audit_line(kind: AuditKind, row: &AuditRow) -> LineText
    ensures line { result ≡ audit_line kind row.now }
    ensures nonempty { 0 < length result }
    ensures fits { length result ≤ LINE }
{
    let mut text = ArrayString::new();
    text.push_str(name_of(kind));
    text.push_str(" ");
    push_numbers(&mut text, row);
    text.push_str("\n");
    LineText::of(text)
}
