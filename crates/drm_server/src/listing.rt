//! The listing of a device's rows.

ghost use Rattle.std.specs.Prelude.{◌≡◌, ◌<◌, ◌+◌, ◌^◌};
ghost use Rattle.std.specs.List.{flat_map};
ghost use Rattle.drm_model.specs.Run.{rows_of};
ghost use Rattle.drm_script.specs.Lines as lines;
ghost use Rattle.drm_frames.specs.Texts.{WritesOut};
ghost use Rattle.drm_commands.specs.Outcomes.{line_by, status_by};
ghost use Rattle.drm_server.specs.Listing.{Lists, fault_of_listing, kind_text};

use drm_commands::{Fault, Outcome, outcome_by};
use drm_device::Device;
use drm_frames::{Sink, Written, put_all};
use drm_script::audit_line;
use drm_table::{AuditKind, AuditRow};

/// The most rows of a page of an audit.
const PAGE: u32 = 16;

/// More pages than any kind has.
const PAGES: u32 = 1 << 27;

/// The end of a listing (own).
#[derive(Clone, Copy, Debug, PartialEq)]
pub enum ListEnd {
    /// All rows are written.
    Done,
    /// The sink failed. A front of the lines is written.
    WriteFault,
    /// A call of the sink was needed, and no turn was left for it. A front of the lines is written.
    TurnsUsed,
}

/// Writes a line for each row of the device, in at most `turns` calls of the sink (own). Does not allocate.
///
/// A line has the name of the row's kind and its four numbers. The rows are listed kind by kind, in the order of their
/// numbers.
///
/// # Examples
///
/// ```rust
/// use drm_server::{ListEnd, Setup, list_audit};
/// use drm_frames::ToWrite;
///
/// let alloc = rt.alloc();
/// let Some(device) = Setup::usual().make(alloc) else { return };
/// let mut sink = ToWrite::new(Vec::new(alloc));
/// assert!(rt; list_audit(&device, &mut sink, 1000) == ListEnd::Done);
/// assert!(rt; sink.into_inner().as_slice() == b"device 0 0 0 0\n".as_slice());
/// ```
pub fn list_audit<K: Sink>(device: &Device, sink: &mut K, turns: u64) -> ListEnd
    requires { (K.trace sink.old).counts.calls + turns < 2 ^ 48 }
    ensures { Lists (rows_of device.now) (K.trace sink.old) (K.trace sink.new) turns result }
{
    let mut left = turns;
    for kind in AuditKind::ALL {
        match list_kind(device, kind, sink, &mut left) {
            Written::Whole => {}
            Written::Fault => return ListEnd::WriteFault,
            Written::TurnsUsed => return ListEnd::TurnsUsed,
        }
    }
    ListEnd::Done
}

/// Writes the lines of a kind.
fn list_kind<K: Sink>(device: &Device, kind: AuditKind, sink: &mut K, turns: &mut u64) -> Written
    requires { (K.trace sink.old).counts.calls + turns.old < 2 ^ 48 }
    ensures { WritesOut result (K.trace sink.old) (K.trace sink.new) (kind_text (rows_of device.now) kind) turns.old turns.new }
{
    for number in 0..PAGES {
        let page = device.audit(kind, number * PAGE);
        let rows = page.rows();
        if rows.is_empty() {
            return Written::Whole;
        }
        match list_rows(kind, rows, sink, turns) {
            Written::Whole => {}
            stopped => return stopped,
        }
    }
    Written::Whole
}

/// Writes the lines of some rows of a kind.
fn list_rows<K: Sink>(kind: AuditKind, rows: &[AuditRow], sink: &mut K, turns: &mut u64) -> Written
    requires { (K.trace sink.old).counts.calls + turns.old < 2 ^ 48 }
    ensures { WritesOut result (K.trace sink.old) (K.trace sink.new) (flat_map (lines.audit_line kind) rows.now) turns.old turns.new }
{
    for row in rows {
        match put_all(sink, audit_line(kind, row).as_bytes(), turns) {
            Written::Whole => {}
            stopped => return stopped,
        }
    }
    Written::Whole
}

fn listing_fault(end: &ListEnd) -> Option<Fault>
    ensures { result ≡ fault_of_listing end.now }
{
    match end {
        ListEnd::Done => None,
        ListEnd::WriteFault => Some(Fault::Write),
        ListEnd::TurnsUsed => Some(Fault::Turns),
    }
}

/// Returns the outcome of `drm_server serve` by the end of the listing: status 0 and no line if it is done (own). Does
/// not allocate.
///
/// # Examples
///
/// ```rust
/// use drm_server::{ListEnd, outcome_of_listing};
///
/// let outcome = outcome_of_listing(&ListEnd::TurnsUsed);
/// assert!(rt; outcome.line.as_str() == "fault: turns");
/// ```
pub fn outcome_of_listing(end: &ListEnd) -> Outcome
    ensures status { result.status ≡ status_by (fault_of_listing end.now) }
    ensures line { result.line ≡ line_by (fault_of_listing end.now) }
{
    outcome_by(listing_fault(end))
}
