//! Explanations as lines, each with one subject and the reason after a colon.

use crate::forms::{Value, put_form};
use crate::names::Labels;
use crate::rows::{
    At, AuthenticatedBy, ClientRow, Explanation, FrontRow, HandleRow, LeaseRow, LinkRow, Node,
    PublishedBy, PublishedRow,
};
use drm_modes::{Kind, Topology};
use std::alloc::{AllocError, Global};

/// The values that lines are written from: the whole explanation, the clients of the labels, and the kinds of mode
/// objects.
#[derive(Drop)]
struct Context<'a> {
    explanation: &'a Explanation,
    topology: &'a Topology,
    labels: &'a Labels,
}

/// Returns the explanation as lines: of the device, of each client with its handles, and of each lease (own).
///
/// If `only` names a client, the lines are of this client and of the leases that it created or redeemed. Allocates the
/// text.
///
/// # Errors
///
/// `AllocError` if memory is refused. There are then no lines.
///
/// # Examples
///
/// ```rust
/// use drm_explanations::{explain, lines_of};
/// use drm_modes::Topology;
/// use drm_rights::{Ledger, Step};
/// use drm_table::{Answer, Event, Opening};
///
/// let alloc = rt.alloc();
/// let answer = Answer::Opened { client: 1 };
/// let opened = Step { event: Event::Open(Opening::Render), answer };
/// let Ok(ledger) = Ledger::new(alloc).note(opened) else { return };
/// let Some(topology) = Topology::new(2, &[1, 2], &[3, 2], &[5, 6]) else { return };
/// let mut labels = [0; 26];
/// labels[0] = 1;
/// let Ok(explanation) = explain(alloc, &ledger, &topology, &labels, None) else { return };
/// let Ok(text) = lines_of(alloc, &explanation, &topology, &labels, None) else { return };
/// assert!(rt; text.as_str().contains("a is client 1: a render client, opened at step 1"));
/// ```
pub fn lines_of(
    alloc: Global,
    explanation: &Explanation,
    topology: &Topology,
    labels: &Labels,
    only: Option<u64>,
) -> Result<String, AllocError> {
    let context = &Context {
        explanation,
        topology,
        labels,
    };
    let mut text = String::new(alloc);
    if only.is_none() {
        device_line(context, &mut text)?;
    }
    for row in &explanation.clients {
        if only.is_none() || only == Some(row.client) {
            client_lines(alloc, context, row, &mut text)?;
        }
    }
    for row in &explanation.leases {
        if only.is_none() || only == Some(row.leased.client) || only == row.redeemed_by {
            lease_line(alloc, context, row, &mut text)?;
        }
    }
    Ok(text)
}

/// The subject of a line of an explanation (own). Clients and masters are numbers of steps.
///
/// # Examples
///
/// ```rust
/// use drm_explanations::Subject;
///
/// let subject = Subject::Client(1);
/// assert!(rt; matches!(subject, Subject::Client(1)));
/// ```
#[derive(Clone, Copy, Debug)]
pub enum Subject {
    /// The device's master.
    Device,
    /// How the client was opened.
    Client(u64),
    /// The reason the client is authenticated, or that it is not.
    Authentication(u64),
    /// The reason the client has universal planes off.
    UniversalPlanes(u64),
    /// The reason the client is a master, or whose master it has.
    Master(u64),
    /// The reason the client is current, or that it is not.
    Current(u64),
    /// The lease of the lessee.
    Lease(u64),
}

/// Appends the line of an explanation about a subject, or nothing if it has none (own). Allocates room in the text.
///
/// # Errors
///
/// `AllocError` if memory is refused. The text may then end with a front of the line.
pub fn line_about(
    alloc: Global,
    explanation: &Explanation,
    topology: &Topology,
    labels: &Labels,
    subject: Subject,
    text: &mut String,
) -> Result<(), AllocError> {
    let context = &Context {
        explanation,
        topology,
        labels,
    };
    let row = match subject {
        Subject::Device => return device_line(context, text),
        Subject::Lease(master) => {
            return match explanation.lease(master) {
                Some(row) => lease_line(alloc, context, row, text),
                None => Ok(()),
            };
        }
        Subject::Client(client)
        | Subject::Authentication(client)
        | Subject::UniversalPlanes(client)
        | Subject::Master(client)
        | Subject::Current(client) => explanation.client(client),
    };
    let Some(row) = row else {
        return Ok(());
    };
    match subject {
        Subject::Client(_) => identity_line(context, row, text),
        Subject::Authentication(_) => authenticated_line(context, row, text),
        Subject::UniversalPlanes(_) => universal_line(context, row, text),
        Subject::Master(_) => master_line(context, row, text),
        _ => current_line(context, row, text),
    }
}

/// Writes the device's master, and the step since which it has been that.
fn device_line(context: &Context<'_>, text: &mut String) -> Result<(), AllocError> {
    let device = &context.explanation.device;
    match device.master {
        Some(master) => put_form(
            context.labels,
            "the device's master is {}: ",
            &[Value::Number(master)],
            text,
        )?,
        None => text.push_str("the device has no master: ")?,
    }
    let Some(At { step, client, call }) = device.since else {
        return text.push_str("no client set one\n");
    };
    let form = match call {
        "open" => "{} founded it as it opened at step {}\n",
        "close" => "its client {} closed at step {}\n",
        "drop_master" => "{} dropped it at step {} ({})\n",
        _ => "{} set it at step {} ({})\n",
    };
    let values = [
        Value::Client(client),
        Value::Number(step),
        Value::Word(call),
    ];
    put_form(context.labels, form, &values, text)
}

/// Writes the lines of one client: how it was opened, and if it is open, its state, rights and handles.
fn client_lines(
    alloc: Global,
    context: &Context<'_>,
    row: &ClientRow,
    text: &mut String,
) -> Result<(), AllocError> {
    identity_line(context, row, text)?;
    if row.closed.is_some() {
        return Ok(());
    }
    authenticated_line(context, row, text)?;
    universal_line(context, row, text)?;
    master_line(context, row, text)?;
    current_line(context, row, text)?;
    may_set_line(alloc, context, row, text)?;
    for hold in &row.holds {
        hold_line(context, row.client, hold, text)?;
    }
    Ok(())
}

/// Writes how a client was opened, and when it was opened and closed.
fn identity_line(
    context: &Context<'_>,
    row: &ClientRow,
    text: &mut String,
) -> Result<(), AllocError> {
    let node = match row.node {
        Node::Primary => "primary",
        Node::Render => "render",
        Node::Lease => "lease",
    };
    let by_root = if row.root { " by root" } else { "" };
    let verb = if row.closed.is_some() { "was" } else { "is" };
    let client = Value::Number(row.client);
    let (identity, name) = match row.label {
        Some(_) => ("{} {} client {}: ", Value::Client(row.client)),
        None => ("client {} {} without a label: ", client),
    };
    let values = [name, Value::Word(verb), client];
    put_form(context.labels, identity, &values, text)?;
    let values = [Value::Word(node), Value::Word(by_root), client];
    put_form(
        context.labels,
        "a {} client, opened{} at step {}",
        &values,
        text,
    )?;
    match row.closed {
        Some(step) => put_form(
            context.labels,
            ", closed at step {}\n",
            &[Value::Number(step)],
            text,
        ),
        None => text.push_str("\n"),
    }
}

/// Writes the reason that a client is authenticated, or that it is not.
fn authenticated_line(
    context: &Context<'_>,
    row: &ClientRow,
    text: &mut String,
) -> Result<(), AllocError> {
    let name = Value::Client(row.client);
    let Some(reason) = &row.authenticated else {
        let form = match row.node {
            Node::Render => "{} is not authenticated: it is a render client\n",
            _ =>
                "{} is not authenticated: it didn't open by root, is no master, and no client named its magic (auth_magic)\n",
        };
        return put_form(context.labels, form, &[name], text);
    };
    let At { step, client, call } = reason.since;
    let step = Value::Number(step);
    match reason.by {
        AuthenticatedBy::Root => put_form(
            context.labels,
            "{} is authenticated: it opened by root at step {}\n",
            &[name, step],
            text,
        ),
        AuthenticatedBy::Master => put_form(
            context.labels,
            "{} is authenticated: it is a master\n",
            &[name],
            text,
        ),
        AuthenticatedBy::AuthMagic => {
            let magic = Value::Number(reason.magic.unwrap_or(0));
            put_form(
                context.labels,
                "{} is authenticated: {} named its magic {} at step {} ({})\n",
                &[name, Value::Client(client), magic, step, Value::Word(call)],
                text,
            )
        }
    }
}

/// Writes the reason that a client is a master, or whose master it has, or nothing if it has no master state.
fn master_line(
    context: &Context<'_>,
    row: &ClientRow,
    text: &mut String,
) -> Result<(), AllocError> {
    let Some(standing) = &row.standing else {
        return Ok(());
    };
    let name = Value::Client(row.client);
    let Some(master) = standing.master else {
        let form = "{} is no master: it is a render client\n";
        return put_form(context.labels, form, &[name], text);
    };
    let At { step, call, .. } = standing.since;
    if standing.is_master && matches!(row.node, Node::Lease) {
        let lessee = match context.explanation.lease(master) {
            Some(lease) => lease.lessee_id,
            None => 0,
        };
        let form = "{} is a master: it opened lessee {}, master {}, by its token at step {}\n";
        let values = [
            name,
            Value::Number(lessee),
            Value::Number(master),
            Value::Number(step),
        ];
        return put_form(context.labels, form, &values, text);
    }
    let form = match (standing.is_master, call) {
        (false, _) => "{} is no master: it joined master {} as it opened at step {}\n",
        (true, "open") =>
            "{} is a master: it founded master {} as it opened at step {}, when the device had none\n",
        (true, _) => "{} is a master: it founded master {} at step {} ({})\n",
    };
    let values = [
        name,
        Value::Number(master),
        Value::Number(step),
        Value::Word(call),
    ];
    put_form(context.labels, form, &values, text)
}

/// Writes the reason that a client has universal planes off, or nothing if it has them on.
fn universal_line(
    context: &Context<'_>,
    row: &ClientRow,
    text: &mut String,
) -> Result<(), AllocError> {
    let Some(universal) = &row.universal_planes else {
        return Ok(());
    };
    if universal.on {
        return Ok(());
    }
    let At { step, call, .. } = universal.since;
    let form = match call {
        "open" => "{} has universal planes off: it opened without them at step {}\n",
        _ => "{} has universal planes off: it turned them off at step {} ({})\n",
    };
    let values = [
        Value::Client(row.client),
        Value::Number(step),
        Value::Word(call),
    ];
    put_form(context.labels, form, &values, text)
}

/// Writes the reason that a client is current, or that it is not, or nothing if it has no master.
fn current_line(
    context: &Context<'_>,
    row: &ClientRow,
    text: &mut String,
) -> Result<(), AllocError> {
    let Some(standing) = &row.standing else {
        return Ok(());
    };
    let (Some(master), Some(owner)) = (standing.master, standing.owner) else {
        return Ok(());
    };
    let form = match (standing.is_master, standing.current, owner == master) {
        (false, _, _) => "{} is not current: it is no master\n",
        (true, true, true) => "{} is current: its master {} is the device's\n",
        (true, true, false) =>
            "{} is current: the owner of its master {} is {}, the device's master\n",
        (true, false, true) => "{} is not current: its master is {}",
        (true, false, false) => "{} is not current: the owner of its master {} is {}",
    };
    let values = [
        Value::Client(row.client),
        Value::Number(master),
        Value::Number(owner),
    ];
    put_form(context.labels, form, &values, text)?;
    if standing.current || !standing.is_master {
        return Ok(());
    }
    match context.explanation.device.master {
        Some(other) => put_form(
            context.labels,
            ", and the device's is {}\n",
            &[Value::Number(other)],
            text,
        ),
        None => text.push_str(", and the device has none\n"),
    }
}

/// Writes the CRTCs and planes that a client may set, and the reason, or nothing if it has no master state.
fn may_set_line(
    alloc: Global,
    context: &Context<'_>,
    row: &ClientRow,
    text: &mut String,
) -> Result<(), AllocError> {
    let Some(standing) = &row.standing else {
        return Ok(());
    };
    let name = Value::Client(row.client);
    if !standing.current {
        let form = "{} may set nothing: it is not current\n";
        return put_form(context.labels, form, &[name], text);
    }
    put_form(context.labels, "{} may set ", &[name], text)?;
    write_objects(context, &row.may_set, text)?;
    text.push_str(": ")?;
    let lease = match standing.master {
        Some(master) => context.explanation.lease(master),
        None => None,
    };
    match lease {
        None => text.push_str("it is current, and its master is no lessee\n"),
        Some(lease) => lease_chain(alloc, context, lease, text),
    }
}

fn kind_word(kind: Option<Kind>) -> &'static str {
    match kind {
        Some(Kind::Crtc) => "CRTC",
        Some(Kind::Plane) => "plane",
        Some(Kind::Encoder) => "encoder",
        Some(Kind::Connector) => "connector",
        None => "object",
    }
}

/// Writes mode objects by their kinds, or nothing if there are none.
fn write_objects(context: &Context<'_>, ids: &[u32], text: &mut String) -> Result<(), AllocError> {
    let Some((last, front)) = ids.split_last() else {
        return text.push_str("nothing");
    };
    let mut between = "";
    for id in front {
        let kind = kind_word(context.topology.kind(*id));
        let values = [Value::Word(between), Value::Word(kind), Value::Id(*id)];
        put_form(context.labels, "{}{} {}", &values, text)?;
        between = ", ";
    }
    let between = if front.is_empty() { "" } else { " and " };
    let kind = kind_word(context.topology.kind(*last));
    let values = [Value::Word(between), Value::Word(kind), Value::Id(*last)];
    put_form(context.labels, "{}{} {}", &values, text)
}

/// Writes a handle, and the chain by which the client obtained it. If an earlier line has the first links of the chain,
/// it writes that line's handle and the last step of these links.
fn hold_line(
    context: &Context<'_>,
    client: u64,
    hold: &HandleRow,
    text: &mut String,
) -> Result<(), AllocError> {
    let (object, handle) = (Value::Number(hold.object), Value::Number(hold.handle));
    let values = [Value::Client(client), object, handle];
    put_form(
        context.labels,
        "{} holds buffer {} as handle {}: ",
        &values,
        text,
    )?;
    if let Some(
        FrontRow {
            client,
            handle,
            step,
        },
    ) = &hold.front
    {
        let values = [
            Value::Number(*handle),
            Value::Client(*client),
            Value::Number(*step),
        ];
        put_form(
            context.labels,
            "as handle {} of {} up to step {}, ",
            &values,
            text,
        )?;
    }
    let mut between = "";
    for link in &hold.chain {
        text.push_str(between)?;
        link_words(context, link, text)?;
        between = ", ";
    }
    text.push_str("\n")
}

/// Writes how an object was published, and the handle that was assigned for that.
fn link_words(context: &Context<'_>, link: &LinkRow, text: &mut String) -> Result<(), AllocError> {
    let At { step, client, call } = link.given;
    let (name, step, call) = (
        Value::Client(client),
        Value::Number(step),
        Value::Word(call),
    );
    let Some(PublishedRow { by, number, at }) = &link.published else {
        let form = "made by {} at step {} ({})";
        return put_form(context.labels, form, &[name, step, call], text);
    };
    let form = match by {
        PublishedBy::Name => "named at step {} (name {}), opened by {} at step {}",
        PublishedBy::Token => "exported at step {} (token {}), imported by {} at step {}",
        PublishedBy::Framebuffer =>
            "added at step {} (framebuffer {}), returned to {} at step {} ({})",
    };
    let values = [
        Value::Number(at.step),
        Value::Number(*number),
        name,
        step,
        call,
    ];
    put_form(context.labels, form, &values, text)
}

/// Writes a lease: what it has, the leases above it, or the step that ended it.
fn lease_line(
    alloc: Global,
    context: &Context<'_>,
    row: &LeaseRow,
    text: &mut String,
) -> Result<(), AllocError> {
    let values = [Value::Number(row.lessee_id), Value::Number(row.master)];
    put_form(context.labels, "lessee {}, master {}, has ", &values, text)?;
    match row.ended {
        None => write_objects(context, &row.mode_objects, text)?,
        Some(_) => text.push_str("nothing")?,
    }
    text.push_str(": ")?;
    lease_chain(alloc, context, row, text)
}

/// Returns the lessees above one, by their leases, the nearest first. Each is older than the one below it. Leases are in
/// the order of their creation, so that no lessee is older than the first.
fn lessees_above(
    alloc: Global,
    explanation: &Explanation,
    lessor: Option<u64>,
) -> Result<Vec<u64>, AllocError> {
    let mut above = Vec::new(alloc);
    let Some(first) = explanation.leases.first() else {
        return Ok(above);
    };
    let mut lessor = lessor;
    for _ in 0..explanation.leases.len() {
        let Some(master) = lessor else {
            return Ok(above);
        };
        if master < first.master {
            return Ok(above);
        }
        let Some(lease) = explanation.lease(master) else {
            return Ok(above);
        };
        above.push(master)?;
        lessor = lease.lessor;
    }
    Ok(above)
}

/// Writes the leases above a lessee, from the one that an owner created on, and the step that ended the last.
fn lease_chain(
    alloc: Global,
    context: &Context<'_>,
    row: &LeaseRow,
    text: &mut String,
) -> Result<(), AllocError> {
    let above = lessees_above(alloc, context.explanation, row.lessor)?;
    for master in above.iter().rev() {
        if let Some(lease) = context.explanation.lease(*master) {
            lease_words(context, lease, text)?;
            text.push_str(", ")?;
        }
    }
    lease_words(context, row, text)?;
    let Some(At { step, client, call }) = row.ended else {
        return text.push_str("\n");
    };
    let (step, name, call_word) = (
        Value::Number(step),
        Value::Client(client),
        Value::Word(call),
    );
    match call {
        "close" => put_form(
            context.labels,
            ", ended at step {} as {} closed\n",
            &[step, name],
            text,
        ),
        _ => {
            let values = [step, call_word, name];
            put_form(
                context.labels,
                ", ended at step {} ({} by {})\n",
                &values,
                text,
            )
        }
    }
}

/// Writes the client that leased, the lessee's id, and the client that redeemed its token.
fn lease_words(context: &Context<'_>, row: &LeaseRow, text: &mut String) -> Result<(), AllocError> {
    let At { step, client, .. } = row.leased;
    let (lessee, token) = (Value::Number(row.lessee_id), Value::Number(row.token));
    let values = [Value::Client(client), Value::Number(step), lessee, token];
    let form = "leased by {} at step {} (lessee {}, token {})";
    put_form(context.labels, form, &values, text)?;
    match row.redeemed_by {
        Some(client) => {
            let values = [Value::Client(client), Value::Number(client)];
            put_form(context.labels, ", redeemed by {} at step {}", &values, text)
        }
        None => text.push_str(", not redeemed"),
    }
}
