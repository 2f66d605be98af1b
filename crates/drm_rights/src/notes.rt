//! The entries of a ledger, and look-ups in them. Entries are never removed: of several for the same item, the last one
//! counts.

ghost use Rattle.std.specs.Prelude.{◌≡◌, ◌<◌, ◌≤◌, find, length, IfSome};
ghost use Rattle.std.specs.List.{AllWithin};
ghost use Rattle.drm_index_array.specs.Chains as chains;
ghost use Rattle.drm_rights.specs.Ledgers as ledgers;
ghost use Rattle.drm_rights.specs.Ledgers.{authentication_of, capability_of, is_named_noted, is_root_noted, magic_of, master_state_of};
ghost use Rattle.drm_rights.specs.Leases as lending;
ghost use Rattle.drm_rights.specs.Leases.{is_ended_by, lessor_noted};

/// The master state of a client from a step on: whether it has an own master, and which master it has (drm(7)).
///
/// # Examples
///
/// ```rust
/// use drm_rights::MasterState;
///
/// let master_state = MasterState { step: 1, client: 1, is_master: true, master: Some(1) };
/// assert!(rt; master_state.is_master);
/// ```
#[derive(Clone, Copy, PartialEq, Debug)]
pub struct MasterState {
    /// The number of the step, from 1.
    pub step: u64,
    /// The client.
    pub client: u64,
    /// Whether the client has an own master.
    pub is_master: bool,
    /// The client's master, its own or one that it joined.
    pub master: Option<u64>,
}

/// A lease (drm-uapi, leases). Its lessee is a master, named by the step that created it.
///
/// # Examples
///
/// ```rust
/// use drm_rights::Lease;
///
/// let lease = Lease { master: 2, client: 1, lessor: Some(1), owner: 1, id: 1, token: 1, universal: true };
/// assert!(rt; lease.lessor == Some(1));
/// ```
#[derive(Clone, Copy, PartialEq, Debug)]
pub struct Lease {
    /// The lessee, by the number of the step.
    pub master: u64,
    /// The client that leased.
    pub client: u64,
    /// The master of the client that leased.
    pub lessor: Option<u64>,
    /// The top of that master's chain of lessors. The id is unique under it.
    pub owner: u64,
    /// The id of the lessee, from 1.
    pub id: u64,
    /// The token of the lease.
    pub token: u64,
    /// Whether the client that leased had universal planes on.
    pub universal: bool,
}

/// The end of a master and of all masters below it.
#[derive(Clone, Copy, PartialEq, Debug)]
pub struct End {
    /// The number of the step.
    pub step: u64,
    /// The master.
    pub master: u64,
}

/// A magic that a client of a master received (drm(7)).
///
/// # Examples
///
/// ```rust
/// use drm_rights::Magic;
///
/// let magic = Magic { step: 2, master: 1, number: 1, client: 1 };
/// assert!(rt; magic.client == 1);
/// ```
#[derive(Clone, Copy, PartialEq, Debug)]
pub struct Magic {
    /// The number of the step.
    pub step: u64,
    /// The master.
    pub master: u64,
    /// The magic.
    pub number: u64,
    /// The client.
    pub client: u64,
}

/// An AUTH_MAGIC that named the magic of a client (drm(7)).
///
/// # Examples
///
/// ```rust
/// use drm_rights::Authentication;
///
/// let authentication = Authentication { step: 4, client: 2, by: 1, magic: 1 };
/// assert!(rt; authentication.by == 1);
/// ```
#[derive(Clone, Copy, PartialEq, Debug)]
pub struct Authentication {
    /// The number of the step.
    pub step: u64,
    /// The authenticated client.
    pub client: u64,
    /// The client that named the magic.
    pub by: u64,
    /// The magic.
    pub magic: u64,
}

/// The universal-planes capability of a client from a step on (drm-uapi).
///
/// # Examples
///
/// ```rust
/// use drm_rights::Capability;
///
/// let capability = Capability { step: 1, client: 1, universal: true };
/// assert!(rt; capability.universal);
/// ```
#[derive(Clone, Copy, PartialEq, Debug)]
pub struct Capability {
    /// The number of the step.
    pub step: u64,
    /// The client.
    pub client: u64,
    /// Whether universal planes are on.
    pub universal: bool,
}

/// Returns the client's last capability.
pub(crate) fn last_capability(capabilities: &[Capability], client: u64) -> Option<Capability>
    ensures { result ≡ capability_of capabilities.now client }
{
    capabilities
        .iter()
        .rev()
        .copied()
        .find(|capability| capability.client == client)
}

/// Returns the client's last master state.
pub(crate) fn last_master_state(standings: &[MasterState], client: u64) -> Option<MasterState>
    ensures { result ≡ master_state_of standings.now client }
{
    standings
        .iter()
        .rev()
        .copied()
        .find(|master_state| client == master_state.client)
}

/// Returns whether a master state is that of a client opened by the token of the lessee.
fn is_redemption(master_state: MasterState, lessee: u64) -> bool
    ensures { result ≡ ledgers.is_redemption lessee master_state }
{
    let is_of_lessee = match master_state.master {
        Some(master) => master == lessee,
        None => false,
    };
    master_state.step == master_state.client
        && master_state.is_master
        && is_of_lessee
        && master_state.client != lessee
}

/// Returns the first master state of a client opened by the token of the lessee.
pub(crate) fn first_redemption(standings: &[MasterState], lessee: u64) -> Option<MasterState>
    ensures { result ≡ find (ledgers.is_redemption lessee) standings.now }
{
    for master_state in standings {
        if is_redemption(*master_state, lessee) {
            return Some(*master_state);
        }
    }
    None
}

/// Returns the number of leases that were created before this step.
fn older_leases(leases: &[Lease], master: u64) -> usize
    requires { lending.LeasesRise leases.now }
    ensures bound { result ≤ length leases.now }
    ensures older { AllWithin (λ lease. lease.master < master) leases.now 0 result }
    ensures others { AllWithin (λ lease. master ≤ lease.master) leases.now result (length leases.now) }
{
    leases.partition_point(|lease| lease.master < master)
}

/// Returns the lease that this step created. It uses a binary search.
pub(crate) fn lease_at(leases: &[Lease], master: u64) -> Option<Lease>
    requires { lending.LeasesRise leases.now }
    ensures { result ≡ lending.lease_at leases.now master }
{
    let place = older_leases(leases, master);
    let Some(lease) = leases.get(place) else {
        return None;
    };
    let lease = *lease;
    if lease.master == master {
        return Some(lease);
    }
    None
}

/// Returns the last lease with this token.
pub(crate) fn lease_of_token(leases: &[Lease], token: u64) -> Option<Lease>
    ensures { result ≡ lending.lease_of_token leases.now token }
{
    leases
        .iter()
        .rev()
        .copied()
        .find(|lease| lease.token == token)
}

/// Returns the last lease with this id under this owner.
pub(crate) fn lease_of_id(leases: &[Lease], owner: u64, id: u64) -> Option<Lease>
    ensures { result ≡ lending.lease_of_id leases.now owner id }
{
    leases
        .iter()
        .rev()
        .copied()
        .find(|lease| lease.id == id && lease.owner == owner)
}

/// Returns the last entry of this magic under a master.
pub(crate) fn last_magic(magics: &[Magic], master: u64, number: u64) -> Option<Magic>
    ensures { result ≡ magic_of magics.now master number }
{
    magics
        .iter()
        .rev()
        .copied()
        .find(|magic| magic.number == number && magic.master == master)
}

/// Returns whether the client opened as root.
pub(crate) fn is_root(roots: &[u64], client: u64) -> bool
    ensures { result ≡ is_root_noted roots.now client }
{
    roots.iter().any(|root| *root == client)
}

/// Returns whether AUTH_MAGIC named the client's magic.
pub(crate) fn is_named(authentications: &[Authentication], client: u64) -> bool
    ensures { result ≡ is_named_noted authentications.now client }
{
    authentications
        .iter()
        .any(|authentication| authentication.client == client)
}

/// Returns the first AUTH_MAGIC that named the client's magic.
pub(crate) fn first_authentication(
    authentications: &[Authentication],
    client: u64,
) -> Option<Authentication>
    ensures { result ≡ authentication_of authentications.now client }
{
    authentications
        .iter()
        .copied()
        .find(|authentication| authentication.client == client)
}

/// Returns the lessor of a master. The lessor is older, since it existed when the lease was created.
pub(crate) fn lessor_of(leases: &[Lease], master: u64) -> Option<u64>
    requires { lending.LeasesRise leases.now }
    ensures lessor { result ≡ lessor_noted leases.now master }
    ensures older { IfSome result (λ lessor. lessor < master) }
{
    match lease_at(leases, master) {
        Some(lease) => if_older(lease.lessor, master),
        None => None,
    }
}

/// Returns the lessor if it is less than the master.
fn if_older(lessor: Option<u64>, master: u64) -> Option<u64>
    ensures lessor { result ≡ lending.if_older master lessor }
    ensures older { IfSome result (λ lessor. lessor < master) }
{
    match lessor {
        Some(lessor) if lessor < master => Some(lessor),
        _ => None,
    }
}

/// Returns the top of a master's chain of lessors.
pub(crate) fn top_of(leases: &[Lease], master: u64) -> u64
    requires { lending.LeasesRise leases.now }
    ensures { result ≡ chains.top_of (lessor_noted leases.now) master }
{
    let mut top = master;
    'lessors: while let Some(lessor) = lessor_of(leases, top) {
        top = lessor;
    }
    top
}

/// Returns whether a master is `top` or below it.
pub(crate) fn is_under(leases: &[Lease], top: u64, master: u64) -> bool
    requires { lending.LeasesRise leases.now }
    ensures { result ≡ chains.is_under (lessor_noted leases.now) top master }
{
    let mut at = master;
    'lessors: loop {
        if at == top {
            return true;
        }
        match lessor_of(leases, at) {
            Some(lessor) => at = lessor,
            None => return false,
        }
    }
}

/// Returns whether an end is that of a master that was created before.
fn is_end_of(leases: &[Lease], end: End, master: u64) -> bool
    requires { lending.LeasesRise leases.now }
    ensures { result ≡ is_ended_by leases.now master end }
{
    master < end.step && is_under(leases, end.master, master)
}

/// Returns the number of ends up to this step.
fn older_ends(ends: &[End], step: u64) -> usize
    requires { lending.EndsRise ends.now }
    ensures bound { result ≤ length ends.now }
    ensures older { AllWithin (λ end. end.step ≤ step) ends.now 0 result }
{
    ends.partition_point(|end| end.step <= step)
}

/// Returns the first end of a master, or of one above it, since its creation. It does not look at earlier ends.
pub(crate) fn first_end(leases: &[Lease], ends: &[End], master: u64) -> Option<End>
    requires leases { lending.LeasesRise leases.now }
    requires ends { lending.EndsRise ends.now }
    ensures { result ≡ find (is_ended_by leases.now master) ends.now }
{
    let place = older_ends(ends, master);
    let (_older, later) = ends.split_at(place);
    for end in later {
        if is_end_of(leases, *end, master) {
            return Some(*end);
        }
    }
    None
}
