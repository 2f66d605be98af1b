//! The rows of an audit.

ghost use Rattle.std.specs.Prelude.{◌≡◌, ◌≤◌, ◌<◌, [], ◌∷◌, ◌++◌, length};

use arrayvec::ArrayVec;
use std::marker::Model;

/// The kind of rows that an audit shows (own).
///
/// # Examples
///
/// ```rust
/// use drm_table::AuditKind;
///
/// let kind = AuditKind::Object;
/// assert!(rt; kind.number() == 3);
/// ```
#[derive(Clone, Copy, PartialEq, Debug)]
pub enum AuditKind {
    /// Open clients: client, flags, master, magic.
    Client,
    /// Masters: master, lessor, lessee id, open lease token.
    Master,
    /// Objects: object, size in bytes, handles, tokens and framebuffers.
    Object,
    /// Flink names: name, object.
    Name,
    /// PRIME tokens: token, exporter, object.
    Token,
    /// Handles: client, handle, object, export order.
    Hold,
    /// Leased objects: master, mode object.
    Grant,
    /// Framebuffers: id, client, object.
    Framebuffer,
    /// What is shown: CRTC or plane, framebuffer.
    Shown,
    /// The device: its master, the last PRIME token, the last lease token, the journal's length.
    Device,
}

impl AuditKind {
    ghost use Rattle.drm_table.specs.Audits.{kind_number, kind_name, kind_of, kinds};

    /// The ten kinds, in rising order of their numbers.
    pub const ALL: [AuditKind; 10] = [
        AuditKind::Client,
        AuditKind::Master,
        AuditKind::Object,
        AuditKind::Name,
        AuditKind::Token,
        AuditKind::Hold,
        AuditKind::Grant,
        AuditKind::Framebuffer,
        AuditKind::Shown,
        AuditKind::Device,
    ];

    /// Returns the number of the kind, 1 to 10 (own).
    #[tactic(auto, unfolding(crate::specs::Audits::kind_number))]
    pub fn number(self) -> u32
        ensures number { result ≡ kind_number self }
        ensures least { 1 ≤ result }
        ensures greatest { result ≤ 10 }
    {
        match self {
            AuditKind::Client => 1,
            AuditKind::Master => 2,
            AuditKind::Object => 3,
            AuditKind::Name => 4,
            AuditKind::Token => 5,
            AuditKind::Hold => 6,
            AuditKind::Grant => 7,
            AuditKind::Framebuffer => 8,
            AuditKind::Shown => 9,
            AuditKind::Device => 10,
        }
    }

    /// Returns the kind with this number, or `None` if the number is not 1 to 10.
    #[tactic(auto, unfolding(crate::specs::Audits::kind_of, crate::specs::Audits::kind_number))]
    pub fn of_number(number: u32) -> Option<AuditKind>
        ensures { result ≡ kind_of number }
    {
        match number {
            1 => Some(AuditKind::Client),
            2 => Some(AuditKind::Master),
            3 => Some(AuditKind::Object),
            4 => Some(AuditKind::Name),
            5 => Some(AuditKind::Token),
            6 => Some(AuditKind::Hold),
            7 => Some(AuditKind::Grant),
            8 => Some(AuditKind::Framebuffer),
            9 => Some(AuditKind::Shown),
            10 => Some(AuditKind::Device),
            _ => None,
        }
    }

    /// Returns the name that a listing shows (own).
    #[tactic(auto, unfolding(crate::specs::Audits::kind_name))]
    pub fn name(self) -> &'static str
        ensures { result.now ≡ kind_name self }
    {
        match self {
            AuditKind::Client => "client",
            AuditKind::Master => "master",
            AuditKind::Object => "object",
            AuditKind::Name => "name",
            AuditKind::Token => "token",
            AuditKind::Hold => "hold",
            AuditKind::Grant => "grant",
            AuditKind::Framebuffer => "framebuffer",
            AuditKind::Shown => "shown",
            AuditKind::Device => "device",
        }
    }
}

/// A row of an audit (own). [`AuditKind`] lists the numbers of each kind in order. 0 means none.
#[derive(Clone, Copy, PartialEq, Debug, Default)]
pub struct AuditRow {
    /// The first number.
    pub a: u64,
    /// The second number, or 0 if the kind has one number.
    pub b: u64,
    /// The third number, or 0.
    pub c: u64,
    /// The fourth number, or 0.
    pub d: u64,
}

/// A page of at most 16 rows of an audit. Contracts see the list of rows.
///
/// # Examples
///
/// ```rust
/// use drm_table::{AuditPage, AuditRow};
///
/// let mut page = AuditPage::new();
/// page.push(AuditRow { a: 1, b: 2, c: 0, d: 0 });
/// assert!(rt; page.rows().len() == 1);
/// ```
#[derive(PartialEq, Debug, Drop)]
pub struct AuditPage {
    rows: ArrayVec<AuditRow, 16>,
}

impl Model for AuditPage {
    ghost use Rattle.std.specs.Prelude.{List};
    ghost use Rattle.drm_table.specs.declared.audits.AuditRow.{AuditRow};

    ghost Value = { List AuditRow };

    ghost view = { λ page. page.rows.items };

    ghost inverse = { λ rows. record { rows = record { items = rows } } };
}

impl AuditPage {
    /// Creates a page without rows.
    pub fn new() -> AuditPage
        ensures { result ≡ [] }
    {
        AuditPage {
            rows: ArrayVec::new(),
        }
    }

    /// Appends a row. The page must have fewer than 16 rows.
    pub fn push(&mut self, row: AuditRow)
        requires { length self.old < 16 }
        ensures { self.new ≡ self.old ++ row ∷ [] }
    {
        self.rows.push(row);
    }

    /// Returns the rows in order, 16 at most.
    pub fn rows(&self) -> &[AuditRow]
        ensures rows { result.now ≡ self.now }
        ensures within { length self.now ≤ 16 }
    {
        self.rows.as_slice()
    }
}
