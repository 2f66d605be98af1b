//! The rows of an explanation. Steps, clients and masters are numbers, and a missing value is `None`.

use serde::Serialize;

/// A step with its caller and its call, or with `open` or `close` (own).
#[derive(Clone, Copy, Debug, Serialize)]
pub struct At {
    /// The number of the step, from 1.
    pub step: u64,
    /// The caller, or the client that was opened or closed.
    pub client: u64,
    /// The word of the call in a script, or `open` or `close`.
    pub call: &'static str,
}

/// The device's master (drm(7)).
///
/// # Examples
///
/// ```rust
/// use drm_explanations::{At, DeviceRow};
///
/// let opened = At { step: 1, client: 1, call: "open" };
/// let device = DeviceRow { master: Some(1), since: Some(opened) };
/// assert!(rt; device.master == Some(1));
/// ```
#[derive(Debug, Drop, Serialize)]
pub struct DeviceRow {
    /// The master, or `None` if there is none.
    pub master: Option<u64>,
    /// The step since which it has been that, or `None` if it never changed.
    pub since: Option<At>,
}

/// The kind of a client's opening (drm-uapi, render nodes; lease tokens are own).
#[derive(Clone, Copy, Debug, Serialize)]
#[serde(rename_all = "snake_case")]
pub enum Node {
    Primary,
    Render,
    Lease,
}

/// The reason a client is authenticated (drm(7)).
#[derive(Clone, Copy, Debug, Serialize)]
#[serde(rename_all = "snake_case")]
pub enum AuthenticatedBy {
    Root,
    Master,
    AuthMagic,
}

/// The authentication of a client (drm(7)).
///
/// # Examples
///
/// ```rust
/// use drm_explanations::{At, Authenticated, AuthenticatedBy};
///
/// let opened = At { step: 1, client: 1, call: "open" };
/// let authenticated = Authenticated { by: AuthenticatedBy::Root, since: opened, magic: None };
/// assert!(rt; authenticated.magic.is_none());
/// ```
#[derive(Debug, Drop, Serialize)]
pub struct Authenticated {
    /// The reason.
    pub by: AuthenticatedBy,
    /// The step since which the client is authenticated.
    pub since: At,
    /// The magic that AUTH_MAGIC named, if that is the reason.
    pub magic: Option<u64>,
}

/// The universal-planes capability of a client (drm-uapi).
#[derive(Debug, Drop, Serialize)]
pub struct UniversalRow {
    /// Whether universal planes are on.
    pub on: bool,
    /// The step since which they are.
    pub since: At,
}

/// The master state of a client (drm(7)).
///
/// # Examples
///
/// ```rust
/// use drm_explanations::{At, StandingRow};
///
/// let opened = At { step: 1, client: 1, call: "open" };
/// let standing = StandingRow {
///     is_master: true,
///     master: Some(1),
///     owner: Some(1),
///     current: true,
///     since: opened,
/// };
/// assert!(rt; standing.current);
/// ```
#[derive(Debug, Drop, Serialize)]
pub struct StandingRow {
    /// Whether the client has an own master.
    pub is_master: bool,
    /// The client's master, its own or one that it joined.
    pub master: Option<u64>,
    /// The top of that master's chain of lessors.
    pub owner: Option<u64>,
    /// Whether the client is current.
    pub current: bool,
    /// The step since which the client has this master.
    pub since: At,
}

/// The kind of key under which an object was published (drm-gem(7), drm-mm, drm-uapi).
#[derive(Clone, Copy, Debug, Serialize)]
#[serde(rename_all = "snake_case")]
pub enum PublishedBy {
    Name,
    Token,
    Framebuffer,
}

/// A step that published an object (own).
///
/// # Examples
///
/// ```rust
/// use drm_explanations::{At, PublishedBy, PublishedRow};
///
/// let opened = At { step: 1, client: 1, call: "open" };
/// let published = PublishedRow { by: PublishedBy::Name, number: 1, at: opened };
/// assert!(rt; published.number == 1);
/// ```
#[derive(Debug, Drop, Serialize)]
pub struct PublishedRow {
    /// The kind of the key.
    pub by: PublishedBy,
    /// The name, token or framebuffer id.
    pub number: u64,
    /// The step.
    pub at: At,
}

/// A link of a chain: a step that assigned a handle to a client (own).
///
/// # Examples
///
/// ```rust
/// use drm_explanations::{At, LinkRow};
///
/// let opened = At { step: 1, client: 1, call: "open" };
/// let link = LinkRow { published: None, handle: 1, given: opened };
/// assert!(rt; link.published.is_none());
/// ```
#[derive(Debug, Drop, Serialize)]
pub struct LinkRow {
    /// The step that published the object before, or `None` if this step created the object.
    pub published: Option<PublishedRow>,
    /// The handle.
    pub handle: u64,
    /// The step that assigned the handle.
    pub given: At,
}

/// The first links of a chain, which an earlier row has (own).
///
/// # Examples
///
/// ```rust
/// use drm_explanations::FrontRow;
///
/// let front = FrontRow { client: 1, handle: 2, step: 3 };
/// assert!(rt; front.handle == 2);
/// ```
#[derive(Debug, Drop, Serialize)]
pub struct FrontRow {
    /// The client of the earlier row.
    pub client: u64,
    /// The handle of the earlier row.
    pub handle: u64,
    /// The step of the last of these links, from 1.
    pub step: u64,
}

/// A handle of a buffer, and the chain by which the client obtained it (own).
///
/// If a chain has more than four links, those that an earlier row has are left out, except the last four. `front` names
/// that row.
///
/// # Examples
///
/// ```rust
/// use drm_explanations::HandleRow;
///
/// let alloc = rt.alloc();
/// let chain = Vec::new(alloc);
/// let held = HandleRow { handle: 1, object: 2, front: None, chain };
/// assert!(rt; held.object == 2);
/// ```
#[derive(Debug, Drop, Serialize)]
pub struct HandleRow {
    /// The handle.
    pub handle: u64,
    /// The buffer, by the number of the step that created it.
    pub object: u64,
    /// The row that has the first links, if they are left out.
    pub front: Option<FrontRow>,
    /// The links, with the step that created the object first.
    pub chain: Vec<LinkRow>,
}

/// A client (own). The row of a closed client has no rights and handles.
///
/// # Examples
///
/// ```rust
/// use drm_explanations::{Node, explain};
/// use drm_modes::Topology;
/// use drm_rights::{Ledger, Step};
/// use drm_table::{Answer, Event, Opening};
///
/// let alloc = rt.alloc();
/// let answer = Answer::Opened { client: 1 };
/// let opened = Step { event: Event::Open(Opening::Render), answer };
/// let Ok(ledger) = Ledger::new(alloc).note(opened) else { return };
/// let Some(topology) = Topology::new(2, &[1, 2], &[3, 2], &[5, 6]) else { return };
/// let mut labels = [0; 26];
/// labels[0] = 1;
/// let Ok(explanation) = explain(alloc, &ledger, &topology, &labels, None) else { return };
/// let Some(row) = explanation.client(1) else { return };
/// assert!(rt; row.label == Some('a') && matches!(row.node, Node::Render));
/// ```
#[derive(Debug, Drop, Serialize)]
pub struct ClientRow {
    /// The client.
    pub client: u64,
    /// The label that names it.
    pub label: Option<char>,
    /// The kind of its opening.
    pub node: Node,
    /// Whether it opened as root.
    pub root: bool,
    /// The step that closed it, or `None` if it is open.
    pub closed: Option<u64>,
    /// The reason it is authenticated, or `None` if it is not.
    pub authenticated: Option<Authenticated>,
    /// Its universal-planes capability.
    pub universal_planes: Option<UniversalRow>,
    /// Its master state.
    pub standing: Option<StandingRow>,
    /// The CRTCs and planes that it may set, in rising order.
    pub may_set: Vec<u32>,
    /// Its handles, in rising order.
    pub holds: Vec<HandleRow>,
}

/// A lease (drm-uapi, leases). Its lessee is a master, named by the step that created it.
///
/// # Examples
///
/// ```rust
/// use drm_explanations::{At, LeaseRow};
///
/// let opened = At { step: 1, client: 1, call: "open" };
/// let alloc = rt.alloc();
/// let lease = LeaseRow {
///     master: 2,
///     lessee_id: 1,
///     lessor: Some(1),
///     leased: opened,
///     token: 1,
///     mode_objects: Vec::new(alloc),
///     redeemed_by: None,
///     ended: None,
/// };
/// assert!(rt; lease.redeemed_by.is_none());
/// ```
#[derive(Debug, Drop, Serialize)]
pub struct LeaseRow {
    /// The lessee, by the number of the step.
    pub master: u64,
    /// The id of the lessee, from 1.
    pub lessee_id: u64,
    /// The lessor.
    pub lessor: Option<u64>,
    /// The step that created the lease.
    pub leased: At,
    /// The token of the lease.
    pub token: u64,
    pub mode_objects: Vec<u32>,
    /// The client that redeemed the token.
    pub redeemed_by: Option<u64>,
    /// The step that ended the lease, or `None` if it has not ended.
    pub ended: Option<At>,
}

/// The rights that a history grants, and the steps that granted them (own).
///
/// # Examples
///
/// ```rust
/// use drm_explanations::explain;
/// use drm_modes::Topology;
/// use drm_rights::{Ledger, Step};
/// use drm_table::{Answer, Event, Opening};
///
/// let alloc = rt.alloc();
/// let answer = Answer::Opened { client: 1 };
/// let opened = Step { event: Event::Open(Opening::Render), answer };
/// let Ok(ledger) = Ledger::new(alloc).note(opened) else { return };
/// let Some(topology) = Topology::new(2, &[1, 2], &[3, 2], &[5, 6]) else { return };
/// let mut labels = [0; 26];
/// labels[0] = 1;
/// let Ok(mut explanation) = explain(alloc, &ledger, &topology, &labels, None) else { return };
/// explanation.retain_client(2);
/// assert!(rt; explanation.clients.is_empty());
/// ```
#[derive(Debug, Drop, Serialize)]
pub struct Explanation {
    /// The number of steps.
    pub steps: u64,
    /// The device's master.
    pub device: DeviceRow,
    /// The clients, in the order of their openings.
    pub clients: Vec<ClientRow>,
    /// The leases, in the order of their creation.
    pub leases: Vec<LeaseRow>,
}
