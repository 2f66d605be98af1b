//! The lines of events.

ghost use Rattle.std.specs.Prelude.{◌≡◌, ◌<◌, ◌++◌, OnOk, codes};
ghost use Rattle.std.specs.List.{flat_map};
ghost use Rattle.drm_table.specs.declared.events.Event.TheVariants.{Ask, Close};
ghost use Rattle.drm_script.specs.Lines.{number_behind};
ghost use Rattle.drm_checks.specs.Lines.{call_text, command_at, command_text, comment_text, label_text, limits_text, open_text, opening_text, spaced, words_text};

use drm_script::Label;
use drm_table::{Call, Event, Field, Limits, Opening};
use std::alloc::AllocError;

/// Writes a space and a number.
fn put_number(text: &mut Vec<u8>, number: u64) -> Result<(), AllocError>
    ensures { OnOk result (text.new.items ≡ text.old.items ++ spaced number) }
{
    let mut buffer = itoa::Buffer::new();
    text.extend_from_slice(b" ")?;
    text.extend_from_slice(buffer.format(number).as_bytes())
}

/// Writes each number after a space.
fn put_numbers(text: &mut Vec<u8>, numbers: &[u32]) -> Result<(), AllocError>
    ensures { OnOk result (text.new.items ≡ text.old.items ++ flat_map spaced numbers.now) }
{
    for number in numbers {
        put_number(text, u64::from(*number))?;
    }
    Ok(())
}

/// Writes a field after a word or another field.
fn put_field(text: &mut Vec<u8>, field: Field) -> Result<(), AllocError>
    ensures { OnOk result (text.new.items ≡ text.old.items ++ number_behind field) }
{
    put_number(text, field.number())
}

/// Writes each field after the one before.
fn put_fields(text: &mut Vec<u8>, fields: &[Field]) -> Result<(), AllocError>
    ensures { OnOk result (text.new.items ≡ text.old.items ++ flat_map number_behind fields.now) }
{
    for field in fields {
        put_field(text, *field)?;
    }
    Ok(())
}

/// Writes the letter of a label.
fn put_label(text: &mut Vec<u8>, place: usize) -> Result<(), AllocError>
    requires { place < Label.COUNT }
    ensures { OnOk result (text.new.items ≡ text.old.items ++ label_text place) }
{
    text.extend_from_slice(&[b'a' + place as u8])
}

/// Writes the line that sets the limits of a device.
pub(crate) fn put_limits(text: &mut Vec<u8>, limits: Limits) -> Result<(), AllocError>
    ensures { OnOk result (text.new.items ≡ text.old.items ++ limits_text limits) }
{
    let numbers = [
        limits.clients,
        limits.handles,
        limits.names,
        limits.tokens,
        limits.objects,
        limits.framebuffers,
        limits.lessees,
        limits.journal,
    ];
    text.extend_from_slice(b"limits")?;
    put_numbers(text, &numbers)
}

/// Returns the word of an opening, after which universal planes are on or off.
fn open_word(opening: Opening) -> &'static [u8]
    ensures { result.now ≡ open_text opening }
{
    match opening {
        Opening::Primary {
            universal: false,
            ..
        } => b"open2 ",
        Opening::Lease {
            universal: false,
            ..
        } => b"open2 ",
        _ => b"open ",
    }
}

/// Writes an opening after its label.
fn put_opening(text: &mut Vec<u8>, opening: Opening) -> Result<(), AllocError>
    ensures { OnOk result (text.new.items ≡ text.old.items ++ opening_text opening) }
{
    match opening {
        Opening::Primary { root: false, .. } => text.extend_from_slice(b" card"),
        Opening::Primary { root: true, .. } => text.extend_from_slice(b" root"),
        Opening::Render => text.extend_from_slice(b" render"),
        Opening::Lease {
            token,
            root: false,
            ..
        } => {
            text.extend_from_slice(b" lease")?;
            put_number(text, u64::from(token))
        }
        Opening::Lease {
            token,
            root: true,
            ..
        } => {
            text.extend_from_slice(b" rootlease")?;
            put_number(text, u64::from(token))
        }
    }
}

/// Writes a call after its label. A call without a row is written by its bare number.
pub(crate) fn put_call(text: &mut Vec<u8>, call: &Call) -> Result<(), AllocError>
    ensures { OnOk result (text.new.items ≡ text.old.items ++ call_text call.now) }
{
    match call.row() {
        Some((kind, fields)) => {
            text.extend_from_slice(b" ")?;
            text.extend_from_slice(kind.word())?;
            put_fields(text, fields.as_slice())
        }
        None => {
            text.extend_from_slice(b" raw")?;
            put_number(text, u64::from(call.number()))
        }
    }
}

/// Writes the line of an event, with the label of this place.
pub(crate) fn put_event(text: &mut Vec<u8>, place: usize, event: &Event) -> Result<(), AllocError>
    requires { place < Label.COUNT }
    ensures { OnOk result (text.new.items ≡ text.old.items ++ command_text (command_at place event.now)) }
{
    match event {
        Event::Open(opening) => {
            text.extend_from_slice(open_word(*opening))?;
            put_label(text, place)?;
            put_opening(text, *opening)
        }
        Event::Close(_) => {
            text.extend_from_slice(b"close ")?;
            put_label(text, place)
        }
        Event::Ask(_, call) => {
            put_label(text, place)?;
            put_call(text, call)
        }
    }
}

/// Writes a call of a client.
pub(crate) fn put_asked(text: &mut Vec<u8>, client: u32, call: &Call) -> Result<(), AllocError>
    ensures { OnOk result (text.new.items ≡ text.old.items ++ words_text (Ask client call.now)) }
{
    text.extend_from_slice(b"client")?;
    put_number(text, u64::from(client))?;
    put_call(text, call)
}

/// Writes the closing of a client.
fn put_closed(text: &mut Vec<u8>, client: u32) -> Result<(), AllocError>
    ensures { OnOk result (text.new.items ≡ text.old.items ++ words_text (Close client)) }
{
    text.extend_from_slice(b"close client")?;
    put_number(text, u64::from(client))
}

/// Appends an event in a script's words, with the client's number in place of a label, as `client 3 version`,
/// `open ? card` or `close client 3` (own). Allocates what it appends.
///
/// # Errors
///
/// `AllocError` if memory is refused. The text may then end with a part of the words.
pub fn put_words(text: &mut Vec<u8>, event: &Event) -> Result<(), AllocError>
    ensures { OnOk result (text.new.items ≡ text.old.items ++ words_text event.now) }
{
    match event {
        Event::Open(opening) => {
            text.extend_from_slice(open_word(*opening))?;
            text.extend_from_slice(b"?")?;
            put_opening(text, *opening)
        }
        Event::Close(client) => put_closed(text, *client),
        Event::Ask(client, call) => put_asked(text, *client, call),
    }
}

/// Writes the comment for an event.
pub(crate) fn put_comment(text: &mut Vec<u8>, event: &Event) -> Result<(), AllocError>
    ensures { OnOk result (text.new.items ≡ text.old.items ++ comment_text event.now) }
{
    text.extend_from_slice(b"# ")?;
    put_words(text, event)
}
