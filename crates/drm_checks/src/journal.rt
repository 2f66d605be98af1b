//! A journal as a script.

ghost use Rattle.std.specs.Prelude.{IfOk};
ghost use Rattle.drm_checks.specs.Journals.{IsScriptOf};

use crate::writer::JournalWriter;
use drm_device::Device;
use drm_table::{Event, Limits};
use std::alloc::{AllocError, Global};

/// The script of a journal (own).
///
/// # Examples
///
/// ```rust
/// use drm_device::Limits;
/// use drm_checks::journal_of;
/// use drm_runs::make_device;
/// use drm_table::{Event, Opening};
///
/// let alloc = rt.alloc();
/// let Some(device) = make_device(alloc, Limits::PROGRAM) else { return };
/// let events = [Event::Open(Opening::Render)];
/// let Ok(journal) = journal_of(alloc, &events, Limits::PROGRAM, device) else { return };
/// assert!(rt; journal.is_whole);
/// ```
#[derive(Drop)]
pub struct Journal {
    /// The bytes of the script.
    pub text: Vec<u8>,
    /// Whether each event has a line. If more clients were open at once than there are labels, the other events have comments.
    pub is_whole: bool,
}

/// Returns the events of a journal as a script (own).
///
/// Its first line sets the limits. Each event has a line, which expects the answer of a device that begins empty with
/// those limits. A client has a label while it is open. A later client may take the label of a closed one.
///
/// If more clients are open at once than there are labels, a comment says so. From there on, each event is a comment
/// with the device's answer. A script's device would not make the steps of a client without a label, so its answers
/// would differ.
///
/// An answer is left out if the line would be longer than 255 bytes with it. Only a lease of ids that no device has is
/// too long by itself. It is written by its bare number, which is denied as well. Allocates the text.
///
/// # Errors
///
/// `AllocError` if memory is refused. There is then no text. The device is dropped in any case.
pub fn journal_of(
    alloc: Global,
    events: &[Event],
    limits: Limits,
    device: Device,
) -> Result<Journal, AllocError>
    ensures script { IfOk result (λ journal. IsScriptOf limits device events.now journal.text.items journal.is_whole) }
{
    let mut text = Vec::new(alloc);
    let mut writer = JournalWriter::begin(alloc, limits, device, &mut text)?;
    for event in events {
        writer.write(&mut text, event)?;
    }
    Ok(Journal {
        text,
        is_whole: writer.is_whole(),
    })
}
