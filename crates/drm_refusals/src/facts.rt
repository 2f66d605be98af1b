//! The facts that explain a denial.

use drm_explanations::{At, Subject};
use drm_modes::Kind;
use drm_rights::{Held, Key, Lease};
use drm_table::CallKind;

/// A fact that explains a denial (own). Clients and masters are named by the numbers of their steps.
///
/// # Examples
///
/// ```rust
/// use drm_refusals::{ClientFact, Fact};
///
/// let fact = Fact::Client(ClientFact::NeverOpened { client: 1 });
/// assert!(rt; matches!(fact, Fact::Client(ClientFact::NeverOpened { client: 1 })));
/// ```
#[derive(Debug, Drop)]
pub enum Fact {
    Client(ClientFact),
    Handle(HandleFact),
    Published(PublishedFact),
    Magic(MagicFact),
    Lease(LeaseFact),
    ModeObject(ModeObjectFact),
    Size(SizeFact),
    Limit(LimitFact),
    Request(RequestFact),
    /// The line of the explanation about a subject.
    Told(Subject),
}

/// A client that is not open (own).
#[derive(Clone, Copy, Debug)]
pub enum ClientFact {
    /// The step closed the client.
    Closed { client: u64, step: u64 },
    /// No step opened the client.
    NeverOpened { client: u64 },
}

/// The handles of a client (own).
///
/// # Examples
///
/// ```rust
/// use drm_refusals::HandleFact;
///
/// let fact = HandleFact::NeverGiven { client: 1, handle: 5 };
/// assert!(rt; matches!(fact, HandleFact::NeverGiven { handle: 5, .. }));
/// ```
#[derive(Debug, Drop)]
pub enum HandleFact {
    /// The client closed the handle, and no later step assigned it.
    GaveBack { client: u64, handle: u32, by: At },
    /// No step assigned the client this handle.
    NeverGiven { client: u64, handle: u32 },
    /// The client holds these handles, in rising order, and no other.
    Holds { client: u64, held: Vec<Held> },
}

/// A name, a PRIME token or a framebuffer (own).
///
/// # Examples
///
/// ```rust
/// use drm_refusals::PublishedFact;
/// use drm_rights::Key;
///
/// let fact = PublishedFact::Never { key: Key::Name(1) };
/// assert!(rt; matches!(fact, PublishedFact::Never { key: Key::Name(1) }));
/// ```
#[derive(Clone, Copy, Debug)]
pub enum PublishedFact {
    /// No step published anything under the key.
    Never {
        key: Key,
    },
    /// The step was the last that assigned the name, to this buffer. `last` is a later step that removed a handle of
    /// the buffer.
    Named {
        name: u32,
        buffer: u64,
        client: u64,
        step: u64,
        last: Option<At>,
    },
    /// The client published under the key, and nothing withdrew it.
    Published {
        key: Key,
        client: u64,
        step: u64,
    },
    /// The client published under the key, and `by` is the first later step that withdrew it.
    Withdrawn {
        key: Key,
        client: u64,
        step: u64,
        by: At,
    },
}

/// A magic of a master (own).
///
/// # Examples
///
/// ```rust
/// use drm_refusals::MagicFact;
///
/// let fact = MagicFact::Unknown { master: 1, magic: 7 };
/// assert!(rt; matches!(fact, MagicFact::Unknown { magic: 7, .. }));
/// ```
#[derive(Clone, Copy, Debug)]
pub enum MagicFact {
    /// The client that last received the master's magic was closed by the step.
    OfClosed {
        master: u64,
        magic: u32,
        client: u64,
        step: u64,
    },
    /// The step of `by` spent the client's magic.
    Spent {
        magic: u32,
        client: u64,
        by: u64,
        step: u64,
    },
    /// The client was the last that received the master's magic.
    Lost {
        master: u64,
        magic: u32,
        client: u64,
    },
    /// No client received the master's magic.
    Unknown {
        master: u64,
        magic: u32,
    },
}

/// A lease, or what is missing for one (own).
///
/// # Examples
///
/// ```rust
/// use drm_refusals::LeaseFact;
///
/// let fact = LeaseFact::TokenUnknown { token: 3 };
/// assert!(rt; matches!(fact, LeaseFact::TokenUnknown { token: 3 }));
/// ```
#[derive(Clone, Copy, Debug)]
pub enum LeaseFact {
    /// The client has universal planes on.
    LacksPlane {
        client: u64,
    },
    /// The lease has not ended, and has the mode object.
    LeasedOut {
        id: u32,
        lease: Lease,
    },
    /// No lease under the owner of the client's master has the id.
    NoLessee {
        client: u64,
        lessee: u32,
    },
    /// The lessor of the lessee is not the client's master.
    OtherLessor {
        client: u64,
        lessee: u32,
        lessor: u64,
        master: u64,
    },
    /// A lease has the token.
    TokenUsed {
        token: u32,
    },
    /// No lease has the token.
    TokenUnknown {
        token: u32,
    },
}

/// A mode object of another kind than the call requires, or one that the client does not see (own).
///
/// # Examples
///
/// ```rust
/// use drm_refusals::ModeObjectFact;
///
/// let fact = ModeObjectFact::Nothing { id: 9, count: 8 };
/// assert!(rt; matches!(fact, ModeObjectFact::Nothing { id: 9, .. }));
/// ```
#[derive(Clone, Copy, Debug)]
pub enum ModeObjectFact {
    /// No mode object has the id. The ids are 1 to `count`.
    Nothing {
        id: u32,
        count: u32,
    },
    /// The mode object is of another kind than the call requires.
    OfKind {
        id: u32,
        kind: Kind,
        wanted: Kind,
    },
    Encoder {
        id: u32,
    },
    /// The client's master does not control the mode object.
    NotControlled {
        client: u64,
        id: u32,
        kind: Kind,
    },
    /// The plane is the primary or the cursor plane of the CRTC, and the client has universal planes off.
    Hidden {
        client: u64,
        plane: u32,
        crtc: u32,
    },
    /// The connector has the encoder.
    EncoderOf {
        crtc: u32,
        connector: u32,
        encoder: u32,
    },
}

/// A number of a request (own).
///
/// # Examples
///
/// ```rust
/// use drm_refusals::Quantity;
///
/// let quantity = Quantity::Width;
/// assert!(rt; matches!(quantity, Quantity::Width));
/// ```
#[derive(Clone, Copy, Debug)]
pub enum Quantity {
    /// The size of a buffer in bytes.
    Size,
    /// The width in pixels.
    Width,
    /// The height in pixels.
    Height,
    /// The bits of each pixel.
    Bits,
}

/// A number that is out of its range (own).
///
/// # Examples
///
/// ```rust
/// use drm_refusals::SizeFact;
///
/// let fact = SizeFact::ShortPitch { pitch: 4, least: 8 };
/// assert!(rt; matches!(fact, SizeFact::ShortPitch { least: 8, .. }));
/// ```
#[derive(Clone, Copy, Debug)]
pub enum SizeFact {
    /// The number is 0, or greater than `most`.
    OutOfRange {
        what: Quantity,
        number: u64,
        most: u64,
    },
    /// The pitch is less than the bytes of a row of pixels.
    ShortPitch {
        pitch: u32,
        least: u64,
    },
    /// The buffer has fewer bytes than the rows need.
    ShortBuffer {
        height: u32,
        pitch: u32,
        needed: u64,
        handle: u32,
        size: u64,
    },
}

/// A limit that is reached (own).
///
/// # Examples
///
/// ```rust
/// use drm_refusals::LimitFact;
///
/// let fact = LimitFact::Names { most: 65_535 };
/// assert!(rt; matches!(fact, LimitFact::Names { most: 65_535 }));
/// ```
#[derive(Clone, Copy, Debug)]
pub enum LimitFact {
    Clients { count: u64, most: u32 },
    /// The client has this number of handles, which is at least the limit.
    Handles { client: u64, count: u64, most: u32 },
    Objects { most: u32 },
    Names { most: u32 },
    Tokens { most: u32 },
    Framebuffers { most: u32 },
    Leases { lessees: u32, tokens: u32 },
    /// The journal has this number of steps.
    Journal { used: u64, most: u32, clients: u64 },
}

/// A fault of the request itself (own).
///
/// # Examples
///
/// ```rust
/// use drm_refusals::RequestFact;
///
/// let fact = RequestFact::Repeated { id: 7 };
/// assert!(rt; matches!(fact, RequestFact::Repeated { id: 7 }));
/// ```
#[derive(Clone, Copy, Debug)]
pub enum RequestFact {
    /// No client was opened by the caller's label.
    NoCaller,
    /// The number is that of a call with other fields.
    OtherFields { number: u16, kind: CallKind },
    /// No call has the number.
    NoCall { number: u16 },
    Repeated { id: u32 },
    LacksCrtc,
    LacksConnector,
    /// Exactly one of the framebuffer and the connector is 0.
    HalfRoute { framebuffer: u32, connector: u32 },
    PlaneRoute { crtc: u32, plane: u32 },
    NoCapability { capability: u64 },
    NoValue { capability: u64, value: u64 },
}
