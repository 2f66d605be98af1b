//! Facts as sentences.

use drm_explanations::{At, Explanation, Labels, Subject, Value, line_about, put_form};
use drm_modes::{Kind, Topology};
use drm_refusals::{
    ClientFact, Fact, HandleFact, LeaseFact, LimitFact, MagicFact, ModeObjectFact, PublishedFact,
    Quantity, RequestFact, SizeFact,
};
use drm_rights::{Held, Key};
use std::alloc::{AllocError, Global};

/// The most handles of a client that a sentence lists.
const MOST_HANDLES: usize = 16;

/// The values that sentences are written from: the explanation, the device, and the clients of the labels.
#[derive(Drop)]
pub(crate) struct Page<'a> {
    pub(crate) explanation: &'a Explanation,
    pub(crate) topology: &'a Topology,
    pub(crate) labels: &'a Labels,
}

/// Writes the first of the handles that a client holds.
fn put_held(
    labels: &Labels,
    client: u64,
    held: &[Held],
    text: &mut String,
) -> Result<(), AllocError> {
    let name = Value::Client(client);
    let form = match held.len() {
        0 => return put_form(labels, "{} holds no handle", &[name], text),
        1 => "{} holds {} own handle: ",
        _ => "{} holds {} own handles: ",
    };
    put_form(
        labels,
        form,
        &[name, Value::Number(held.len() as u64)],
        text,
    )?;
    let mut between = "";
    for one in held.iter().take(MOST_HANDLES) {
        put_form(
            labels,
            "{}{}",
            &[Value::Word(between), Value::Number(one.handle)],
            text,
        )?;
        between = ", ";
    }
    if held.len() > MOST_HANDLES {
        text.push_str(", ..")?;
    }
    Ok(())
}

fn put_handle(labels: &Labels, fact: &HandleFact, text: &mut String) -> Result<(), AllocError> {
    match fact {
        HandleFact::GaveBack { client, handle, by } => {
            let At { step, call, .. } = *by;
            let (client, handle) = (Value::Client(*client), Value::Id(*handle));
            put_form(
                labels,
                "{} does not hold handle {}: it closed it at step {} ({})",
                &[client, handle, Value::Number(step), Value::Word(call)],
                text,
            )
        }
        HandleFact::NeverGiven { client, handle } => put_form(
            labels,
            "{} does not hold handle {}: no step assigned it",
            &[Value::Client(*client), Value::Id(*handle)],
            text,
        ),
        HandleFact::Holds { client, held } => put_held(labels, *client, held, text),
    }
}

/// The forms of the sentences about a key, each with the number of the key first.
#[derive(Drop)]
struct KeyForms {
    number: Value,
    never: &'static str,
    published: &'static str,
    withdrawn: &'static str,
}

fn key_forms(key: Key) -> KeyForms {
    match key {
        Key::Name(name) => KeyForms {
            number: Value::Number(name),
            never: "no buffer has name {}: no step allocated it",
            published: "name {} was allocated by {} at step {}",
            withdrawn: "no buffer has name {}: {} allocated it at step {}, and it was removed at step {} ({} by {})",
        },
        Key::Token(token) => KeyForms {
            number: Value::Number(token),
            never: "token {} is not open: no step allocated it",
            published: "token {} belongs to {}, which exported it at step {}",
            withdrawn: "token {} is not open: {} exported it at step {}, and it was closed at step {} ({} by {})",
        },
        Key::Framebuffer(framebuffer) => KeyForms {
            number: Value::Number(framebuffer),
            never: "framebuffer {} does not exist: no step added it",
            published: "framebuffer {} belongs to {}, which added it at step {}",
            withdrawn: "framebuffer {} does not exist: {} added it at step {}, and it was removed at step {} ({} by {})",
        },
    }
}

fn put_published(
    labels: &Labels,
    fact: PublishedFact,
    text: &mut String,
) -> Result<(), AllocError> {
    match fact {
        PublishedFact::Never { key } => {
            let KeyForms { number, never, .. } = key_forms(key);
            put_form(labels, never, &[number], text)
        }
        PublishedFact::Named {
            name,
            buffer,
            client,
            step,
            last,
        } => {
            let (client, step) = (Value::Client(client), Value::Number(step));
            put_form(
                labels,
                "no buffer has name {}: {} named buffer {} at step {}, and its last handle was closed",
                &[Value::Id(name), client, Value::Number(buffer), step],
                text,
            )?;
            let Some(At { step, client, call }) = last else {
                return Ok(());
            };
            let values = [
                Value::Number(step),
                Value::Word(call),
                Value::Client(client),
            ];
            put_form(labels, " at step {} ({} by {})", &values, text)
        }
        PublishedFact::Published { key, client, step } => {
            let KeyForms {
                number,
                published,
                ..
            } = key_forms(key);
            let values = [number, Value::Client(client), Value::Number(step)];
            put_form(labels, published, &values, text)
        }
        PublishedFact::Withdrawn {
            key,
            client,
            step,
            by,
        } => {
            let KeyForms {
                number,
                withdrawn,
                ..
            } = key_forms(key);
            let (client, step) = (Value::Client(client), Value::Number(step));
            let (last, call) = (Value::Number(by.step), Value::Word(by.call));
            let values = [number, client, step, last, call, Value::Client(by.client)];
            put_form(labels, withdrawn, &values, text)
        }
    }
}

fn put_magic(labels: &Labels, fact: MagicFact, text: &mut String) -> Result<(), AllocError> {
    match fact {
        MagicFact::OfClosed {
            magic,
            client,
            step,
            ..
        } => put_form(
            labels,
            "magic {} ended when {} closed at step {}",
            &[Value::Id(magic), Value::Client(client), Value::Number(step)],
            text,
        ),
        MagicFact::Spent {
            magic,
            client,
            by,
            step,
        } => put_form(
            labels,
            "magic {} belongs to {}, and {} spent it at step {} (auth_magic)",
            &[
                Value::Id(magic),
                Value::Client(client),
                Value::Client(by),
                Value::Number(step),
            ],
            text,
        ),
        MagicFact::Lost { magic, client, .. } => put_form(
            labels,
            "magic {} no longer belongs to {}, or is spent",
            &[Value::Id(magic), Value::Client(client)],
            text,
        ),
        MagicFact::Unknown { master, magic } => put_form(
            labels,
            "no client of master {} received magic {} (get_magic)",
            &[Value::Number(master), Value::Id(magic)],
            text,
        ),
    }
}

fn put_lease(labels: &Labels, fact: LeaseFact, text: &mut String) -> Result<(), AllocError> {
    match fact {
        LeaseFact::LacksPlane { client } => put_form(
            labels,
            "no plane is among the ids, and {} has universal planes on",
            &[Value::Client(client)],
            text,
        ),
        LeaseFact::LeasedOut { id, lease } => put_form(
            labels,
            "mode object {} is leased out to lessee {}",
            &[Value::Id(id), Value::Number(lease.id)],
            text,
        ),
        LeaseFact::NoLessee { lessee, .. } => put_form(
            labels,
            "there is no lessee {}: no create_lease under the same owner returned that id",
            &[Value::Id(lessee)],
            text,
        ),
        LeaseFact::OtherLessor {
            client,
            lessee,
            lessor,
            master,
        } => put_form(
            labels,
            "the lessor of lessee {} is master {}, and the master of {} is {}",
            &[
                Value::Id(lessee),
                Value::Number(lessor),
                Value::Client(client),
                Value::Number(master),
            ],
            text,
        ),
        LeaseFact::TokenUsed { token } => put_form(
            labels,
            "lease token {} is not open: it is spent, or its lease has ended",
            &[Value::Id(token)],
            text,
        ),
        LeaseFact::TokenUnknown { token } => put_form(
            labels,
            "lease token {} is not open: no create_lease returned it",
            &[Value::Id(token)],
            text,
        ),
    }
}

/// Returns the word for a kind, with its article.
fn kind_words(kind: Kind) -> Value {
    Value::Word(match kind {
        Kind::Crtc => "a CRTC",
        Kind::Plane => "a plane",
        Kind::Encoder => "an encoder",
        Kind::Connector => "a connector",
    })
}

fn put_mode_object(
    labels: &Labels,
    fact: ModeObjectFact,
    text: &mut String,
) -> Result<(), AllocError> {
    match fact {
        ModeObjectFact::Nothing { id, count } => put_form(
            labels,
            "there is no mode object {}: the ids are 1 to {}",
            &[Value::Id(id), Value::Id(count)],
            text,
        ),
        ModeObjectFact::OfKind { id, kind, wanted } => {
            let values = [Value::Id(id), kind_words(kind), kind_words(wanted)];
            put_form(labels, "mode object {} is {}, and not {}", &values, text)
        }
        ModeObjectFact::Encoder { id } => {
            put_form(
                labels,
                "mode object {} is an encoder",
                &[Value::Id(id)],
                text,
            )
        }
        ModeObjectFact::NotControlled { client, id, kind } => put_form(
            labels,
            "{} does not see mode object {}, {}: its master's lease does not include it",
            &[Value::Client(client), Value::Id(id), kind_words(kind)],
            text,
        ),
        ModeObjectFact::Hidden {
            client,
            plane,
            crtc,
        } => put_form(
            labels,
            "{} does not see plane {}: it is the primary or the cursor plane of CRTC {}",
            &[Value::Client(client), Value::Id(plane), Value::Id(crtc)],
            text,
        ),
        ModeObjectFact::EncoderOf {
            crtc,
            connector,
            encoder,
        } => put_form(
            labels,
            "CRTC {} is not a possible CRTC of encoder {}, which is that of connector {}",
            &[Value::Id(crtc), Value::Id(encoder), Value::Id(connector)],
            text,
        ),
    }
}

fn put_size(labels: &Labels, fact: SizeFact, text: &mut String) -> Result<(), AllocError> {
    match fact {
        SizeFact::OutOfRange { what, number, most } => {
            let form = match what {
                Quantity::Size => "the size is {} bytes, and not 1 to {}",
                Quantity::Width => "the width is {}, and not 1 to {}",
                Quantity::Height => "the height is {}, and not 1 to {}",
                Quantity::Bits => "the number of bits per pixel is {}, and not 1 to {}",
            };
            put_form(
                labels,
                form,
                &[Value::Number(number), Value::Number(most)],
                text,
            )
        }
        SizeFact::ShortPitch { pitch, least } => put_form(
            labels,
            "the pitch is {} bytes, and the pixels of a line take {}",
            &[Value::Id(pitch), Value::Number(least)],
            text,
        ),
        SizeFact::ShortBuffer {
            height,
            pitch,
            needed,
            handle,
            size,
        } => {
            let (needed, size) = (Value::Number(needed), Value::Number(size));
            put_form(
                labels,
                "{} lines of {} bytes are {}, and the buffer of handle {} has {}",
                &[
                    Value::Id(height),
                    Value::Id(pitch),
                    needed,
                    Value::Id(handle),
                    size,
                ],
                text,
            )
        }
    }
}

fn put_limit(labels: &Labels, fact: LimitFact, text: &mut String) -> Result<(), AllocError> {
    let (form, most) = match fact {
        LimitFact::Clients { count, most } => {
            let form = "{} clients are open, and the limit is {}";
            return put_form(labels, form, &[Value::Number(count), Value::Id(most)], text);
        }
        LimitFact::Handles {
            client,
            count,
            most,
        } => {
            let values = [Value::Client(client), Value::Number(count), Value::Id(most)];
            return put_form(
                labels,
                "{} holds {} handles, and the limit is {}",
                &values,
                text,
            );
        }
        LimitFact::Leases { lessees, tokens } => {
            let form =
                "all lessee ids of the owner are in use, 1 to {}, or all lease tokens are open, 1 to {}";
            return put_form(labels, form, &[Value::Id(lessees), Value::Id(tokens)], text);
        }
        LimitFact::Journal {
            used,
            most,
            clients,
        } => {
            let form =
                "the journal has {} steps of {}, and each of {} open clients reserves a step for its closing";
            let values = [Value::Number(used), Value::Id(most), Value::Number(clients)];
            return put_form(labels, form, &values, text);
        }
        LimitFact::Objects { most } => (
            "{} buffers exist, which is the limit; those that only a token or a framebuffer keeps count too",
            most,
        ),
        LimitFact::Names { most } => ("all names are in use, 1 to {}", most),
        LimitFact::Tokens { most } => ("all PRIME tokens are open, 1 to {}", most),
        LimitFact::Framebuffers { most } => ("{} framebuffers exist, which is the limit", most),
    };
    put_form(labels, form, &[Value::Id(most)], text)
}

fn put_request(labels: &Labels, fact: RequestFact, text: &mut String) -> Result<(), AllocError> {
    let (form, values) = match fact {
        RequestFact::NoCaller => {
            return text.push_str("no step opened a client with the label of the line");
        }
        RequestFact::LacksCrtc => return text.push_str("no CRTC is among the ids"),
        RequestFact::LacksConnector => return text.push_str("no connector is among the ids"),
        RequestFact::NoCall { number } => {
            let number = Value::Id(u32::from(number));
            return put_form(labels, "no call has number {}", &[number], text);
        }
        RequestFact::Repeated { id } => {
            return put_form(labels, "id {} occurs twice", &[Value::Id(id)], text);
        }
        RequestFact::NoCapability { capability } => {
            let form = "capability {} cannot be read: only 1 and 5 can";
            return put_form(labels, form, &[Value::Number(capability)], text);
        }
        RequestFact::OtherFields { number, kind } => {
            let word = str::from_utf8(kind.word()).unwrap_or("");
            let values = [Value::Id(u32::from(number)), Value::Word(word)];
            ("number {} is {}, which has other fields", values)
        }
        RequestFact::HalfRoute {
            framebuffer,
            connector,
        } => (
            "the framebuffer is {} and the connector {}: exactly one of them is 0",
            [Value::Id(framebuffer), Value::Id(connector)],
        ),
        RequestFact::PlaneRoute { crtc, plane } => (
            "CRTC {} is not a possible CRTC of plane {}",
            [Value::Id(crtc), Value::Id(plane)],
        ),
        RequestFact::NoValue { capability, value } => (
            "capability {} cannot be set to {}: only capability 2 can be set, to 0 or 1",
            [Value::Number(capability), Value::Number(value)],
        ),
    };
    put_form(labels, form, &values, text)
}

/// Writes the sentence of a fact, or the line of the explanation about a subject without its line end. It writes nothing
/// about a subject without a line. If memory is refused, it writes a front of the sentence.
fn put_fact(
    alloc: Global,
    page: &Page<'_>,
    fact: &Fact,
    text: &mut String,
) -> Result<(), AllocError> {
    let labels = page.labels;
    match fact {
        Fact::Client(ClientFact::Closed { client, step }) => {
            let values = [Value::Client(*client), Value::Number(*step)];
            put_form(
                labels,
                "{} is not open: it closed at step {}",
                &values,
                text,
            )
        }
        Fact::Client(ClientFact::NeverOpened { client }) => {
            let form = "{} is not open: no step opened it";
            put_form(labels, form, &[Value::Client(*client)], text)
        }
        Fact::Handle(fact) => put_handle(labels, fact, text),
        Fact::Published(fact) => put_published(labels, *fact, text),
        Fact::Magic(fact) => put_magic(labels, *fact, text),
        Fact::Lease(fact) => put_lease(labels, *fact, text),
        Fact::ModeObject(fact) => put_mode_object(labels, *fact, text),
        Fact::Size(fact) => put_size(labels, *fact, text),
        Fact::Limit(fact) => put_limit(labels, *fact, text),
        Fact::Request(fact) => put_request(labels, *fact, text),
        Fact::Told(subject) => {
            line_about(
                alloc,
                page.explanation,
                page.topology,
                labels,
                *subject,
                text,
            )?;
            let _ = text.pop();
            Ok(())
        }
    }
}

/// Returns the sentence of each fact, in order. A subject without a line in the explanation has no sentence.
pub(crate) fn sentences_of(
    alloc: Global,
    page: &Page<'_>,
    facts: &[Fact],
) -> Result<Vec<String>, AllocError> {
    let mut sentences = Vec::new(alloc);
    for fact in facts {
        let mut text = String::new(alloc);
        put_fact(alloc, page, fact, &mut text)?;
        if !text.is_empty() {
            sentences.push(text)?;
        }
    }
    Ok(sentences)
}
