//! The conditions under which a denied request would pass.

use drm_table::{Apart, Rule};

/// Returns the condition under which a rule would pass.
pub(crate) fn remedy(rule: Rule) -> &'static str {
    match rule {
        Rule::Unknown => "a call had the number",
        Rule::Layout => "the fields were those of the call",
        Rule::NoClient => "the client were open",
        Rule::RootOnly => "the caller had opened the root node",
        Rule::Auth => {
            "the caller had opened the root node or were a master, or if a current client of its master had authenticated it (auth_magic)"
        }
        Rule::Master | Rule::NotCurrent => {
            "the caller were current: a master whose owner is the device's master (set_master, while the device has none)"
        }
        Rule::RenderAllow => "the caller had opened the card or the root node",
        Rule::NoHandle | Rule::NoHandleToClose => "the caller held the handle",
        Rule::NoName => "an object had the name (gem_flink)",
        Rule::NoToken => "the token were open (prime_export), and, to be closed, the caller's",
        Rule::NoMagic =>
            "a client of the caller's master had the magic (get_magic), and it were not spent",
        Rule::MasterPerm => "the caller had opened the root node, or had been a master before",
        Rule::MasterBusy =>
            "the device had no master: after drop_master, or after its master's client is closed",
        Rule::IsLessee => "the caller's master were no lessee",
        Rule::NoModeObject => "each id were that of such a mode object, and the caller saw it",
        Rule::NotLeasable => "each id were that of a CRTC, a plane or a connector",
        Rule::Repeated => "no id were listed twice",
        Rule::LeaseShape =>
            "a CRTC, a connector and, with universal planes on, a plane were among the ids",
        Rule::LeasedOut =>
            "no other lease had it: after revoke_lease, or after the lessee's client is closed",
        Rule::SubLease => "the caller's master had fewer lessors above it",
        Rule::NoLessee => "the owner had a lessee of that id",
        Rule::NotYourLessee => "the caller were a client of the lessee's lessor",
        Rule::NoFb => "the framebuffer existed, and, to be removed, were the caller's",
        Rule::BadSize => "the numbers were in their ranges",
        Rule::BadRoute =>
            "the CRTC were a possible one, and neither or both of framebuffer and connector were 0",
        Rule::BadCap => "the capability existed, and could have the value",
        Rule::NoLeaseToken => "the lease token were open",
        Rule::Full => "something of its kind were freed, or the limit were greater",
    }
}

/// Returns the condition under which a step that ended in a fault would be made.
pub(crate) fn remedy_apart(apart: Apart) -> &'static str {
    match apart {
        Apart::JournalFull => "the journal's limit were greater",
        Apart::NoMemory => "memory were available",
        Apart::Worn => "a ticket were left",
    }
}
