//! A journal that is written event by event.

ghost use Rattle.std.specs.Prelude.{◌≡◌, ◌<◌, ◌++◌, ◌∷◌, [], List, ℕ, IfSome, IfNone, IfOk, OnOk};
ghost use Rattle.drm_table.specs.declared.events.Event.{Event as AnEvent};
ghost use Rattle.drm_table.specs.declared.limits.Limits.{Limits as SomeLimits};
ghost use Rattle.drm_model.specs.Run.{DeviceValue};
ghost use Rattle.drm_runs.specs.Script.{event_of, label_bound};
ghost use Rattle.drm_checks.specs.Journals.{AddsComment, AddsLine, Advances, HasNoLabel, IsWritten};
ghost use Rattle.drm_checks.specs.Lines.{brief_call, brief_event, command_at, written_call, written_event};

use crate::lines::{put_asked, put_call, put_comment, put_event, put_limits};
use crate::namings::Namings;
use crate::update::put_answered;
use drm_device::Device;
use drm_script::Label;
use drm_table::{Answer, Call, Event, Limits};
use std::alloc::{AllocError, Global};
use std::marker::Model;

/// The most bytes of a line of a script.
const LONGEST: usize = 255;

/// The comment before the first event without a label.
const LABELS_USED: &[u8] =
    b"# more clients are open here than there are labels: each further step is a comment\n";

/// Returns the call, or a call that a line of a script can hold. A call that is too long for it names ids of no mode
/// object, so that it is denied. The same call with wrong fields is denied too. The call is written into `line` to
/// measure it.
fn written_call(line: &mut Vec<u8>, call: &Call) -> Result<Call, AllocError>
    ensures { IfOk result (λ written. written ≡ written_call call.now) }
{
    line.clear();
    put_call(line, call)?;
    // a label is one letter
    if line.len() >= LONGEST {
        return Ok(Call::BadLayout(call.number()));
    }
    call.clone()
}

/// Returns the event, or an event that a line of a script can hold.
fn written_event(line: &mut Vec<u8>, event: &Event) -> Result<Event, AllocError>
    ensures { IfOk result (λ written. written ≡ written_event event.now) }
{
    match event {
        Event::Open(opening) => Ok(Event::Open(*opening)),
        Event::Close(client) => Ok(Event::Close(*client)),
        Event::Ask(client, call) => {
            let call = written_call(line, call)?;
            Ok(Event::Ask(*client, call))
        }
    }
}

/// Returns the call, or a call that a comment can hold. The call is written into `line` to measure it.
fn brief_call(line: &mut Vec<u8>, client: u32, call: &Call) -> Result<Call, AllocError>
    ensures { IfOk result (λ brief. brief ≡ brief_call client call.now) }
{
    line.clear();
    line.extend_from_slice(b"# ")?;
    put_asked(line, client, call)?;
    if line.len() > LONGEST {
        return Ok(Call::BadLayout(call.number()));
    }
    call.clone()
}

/// Returns the event, or an event that a comment can hold.
fn brief_event(line: &mut Vec<u8>, event: &Event) -> Result<Event, AllocError>
    ensures { IfOk result (λ brief. brief ≡ brief_event event.now) }
{
    match event {
        Event::Open(opening) => Ok(Event::Open(*opening)),
        Event::Close(client) => Ok(Event::Close(*client)),
        Event::Ask(client, call) => {
            let call = brief_call(line, *client, call)?;
            Ok(Event::Ask(*client, call))
        }
    }
}

/// Returns the place of the label by which a line asks for an event.
fn place_for(namings: &Namings, event: &Event) -> Option<usize>
    ensures within { IfSome result (λ place. place < Label.COUNT) }
    ensures names { IfSome result (λ place. event_of namings.now (command_at place event.now) ≡ event.now) }
    ensures none { IfNone result (HasNoLabel namings.now event.now) }
{
    match event {
        Event::Open(_) => namings.free_place(),
        Event::Close(client) => namings.place_of(*client),
        Event::Ask(client, _) => namings.place_of(*client),
    }
}

/// Returns the place of the label that the event binds if it is accepted.
fn binds(place: usize, event: &Event) -> Option<usize>
    requires { place < Label.COUNT }
    ensures label { result ≡ label_bound (command_at place event.now) }
    ensures within { IfSome result (λ place. place < Label.COUNT) }
{
    match event {
        Event::Open(_) => Some(place),
        _ => None,
    }
}

/// Allows the label of a closed client to be bound again.
fn note_closing(namings: &mut Namings, event: &Event)
    ensures { namings.new ≡ namings.old }
{
    if let Event::Close(client) = event {
        namings.close(*client);
    }
}

/// Writes the line of an event, with the label of this place and the answer of the device.
fn write_line(
    text: &mut Vec<u8>,
    line: &mut Vec<u8>,
    device: &mut Device,
    namings: &mut Namings,
    place: usize,
    event: Event,
) -> Result<(), AllocError>
    requires within { place < Label.COUNT }
    requires names { event_of namings.old (command_at place event) ≡ event }
    ensures { OnOk result (AddsLine event text.old.items device.old namings.old text.new.items device.new namings.new) }
{
    line.clear();
    put_event(line, place, &event)?;
    let binds = binds(place, &event);
    note_closing(namings, &event);
    let outcome = device.step(event);
    namings.bind(binds, &outcome);
    put_answered(text, line.as_slice(), &outcome)
}

/// Writes an event and its answer. Returns whether there was a label for it.
fn write_event(
    text: &mut Vec<u8>,
    line: &mut Vec<u8>,
    device: &mut Device,
    namings: &mut Namings,
    event: &Event,
) -> Result<bool, AllocError>
    ensures { IfOk result (λ is_named. Advances event.now text.old.items device.old namings.old text.new.items device.new namings.new is_named) }
{
    let event = written_event(line, event)?;
    let Some(place) = place_for(namings, &event) else {
        text.extend_from_slice(LABELS_USED)?;
        return Ok(false);
    };
    write_line(text, line, device, namings, place, event)?;
    Ok(true)
}

/// Writes the comment of an event, with the answer of the device.
fn write_comment(
    text: &mut Vec<u8>,
    line: &mut Vec<u8>,
    device: &mut Device,
    event: &Event,
) -> Result<(), AllocError>
    ensures { OnOk result (AddsComment event.now text.old.items device.old text.new.items device.new) }
{
    let brief = brief_event(line, event)?;
    line.clear();
    put_comment(line, &brief)?;
    let mut outcome = Ok(Answer::Done);
    device.step_at(event, &mut outcome);
    put_answered(text, line.as_slice(), &outcome)
}

/// A journal that is written as a script while its events come (own): a line for each, with the answer of a device that
/// begins empty. [`journal_of`](crate::journal_of) says how a line is written. Contracts see the device after the events
/// so far, the clients that the labels name, and whether each event has a line.
///
/// # Examples
///
/// ```rust
/// use drm_device::Limits;
/// use drm_checks::JournalWriter;
/// use drm_runs::make_device;
/// use drm_table::{Event, Opening};
///
/// let alloc = rt.alloc();
/// let Some(device) = make_device(alloc, Limits::PROGRAM) else { return };
/// let mut text = Vec::new(alloc);
/// let Ok(mut writer) = JournalWriter::begin(alloc, Limits::PROGRAM, device, &mut text) else { return };
/// text.clear();
/// let Ok(()) = writer.write(&mut text, &Event::Open(Opening::Render)) else { return };
/// assert!(rt; text.as_slice() == b"open a render -> client 1\n".as_slice());
/// ```
#[derive(Drop)]
pub struct JournalWriter {
    device: Device,
    namings: Namings,
    /// A line that is being written.
    line: Vec<u8>,
    is_whole: bool,
}

impl Model for JournalWriter {
    ghost use Rattle.drm_checks.specs.Journals.{WriterView};

    ghost Value = { WriterView };

    ghost view = { λ writer. record { device = writer.device; labels = writer.namings; is_whole = writer.is_whole } };
}

impl JournalWriter {
    /// Begins a journal: appends the line that sets the limits to the text. `device` is empty and has these limits, and
    /// the topology of the device whose events follow. Allocates what it appends.
    ///
    /// # Errors
    ///
    /// `AllocError` if memory is refused. The text may then end with a part of the line. The device is dropped.
    pub fn begin(
        alloc: Global,
        limits: Limits,
        device: Device,
        text: &mut Vec<u8>,
    ) -> Result<JournalWriter, AllocError>
        ensures { IfOk result (λ writer. (head : List ℕ) × (text.new.items ≡ text.old.items ++ head) × IsWritten limits device [] head writer) }
    {
        put_limits(text, limits)?;
        text.extend_from_slice(b"\n")?;
        Ok(JournalWriter {
            device,
            namings: Namings::new(),
            line: Vec::new(alloc),
            is_whole: true,
        })
    }

    /// Appends the line of an event with its answer to the text, or its comment. The text may begin with any part of
    /// the journal, or with none. Allocates what it appends, and what the device needs.
    ///
    /// # Errors
    ///
    /// `AllocError` if memory is refused. The text may then end with a part of the line, and nothing is to be written
    /// any more.
    pub fn write(&mut self, text: &mut Vec<u8>, event: &Event) -> Result<(), AllocError>
        ensures { OnOk result ((limits : SomeLimits) (first : DeviceValue) (events : List AnEvent) (front : List ℕ)
            → IsWritten limits first events (front ++ text.old.items) self.old
            → IsWritten limits first (events ++ event.now ∷ []) (front ++ text.new.items) self.new) }
    {
        if !self.is_whole {
            return write_comment(text, &mut self.line, &mut self.device, event);
        }
        if write_event(
            text,
            &mut self.line,
            &mut self.device,
            &mut self.namings,
            event,
        )? {
            return Ok(());
        }
        self.is_whole = false;
        write_comment(text, &mut self.line, &mut self.device, event)
    }

    /// Returns whether each event so far has a line. If more clients were open at once than there are labels, the other
    /// events have comments. Does not allocate.
    pub fn is_whole(&self) -> bool
        ensures { result ≡ self.now.is_whole }
    {
        self.is_whole
    }
}
