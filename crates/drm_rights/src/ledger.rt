//! A history with an index of what each step did.

ghost use Rattle.std.specs.Prelude.{◌≡◌, ◌&&◌, ◌∷◌, ◌++◌, ℕ, not, List, [], IfOk, option_and_then};
ghost use Rattle.std.specs.List.Sorted.{IsNonDecreasing};
ghost use Rattle.std.specs.Option.{is_some, option_map_or};
ghost use Rattle.drm_index_array.specs.Numbers as numbers;
ghost use Rattle.drm_trails.specs.Effects.{effect_of};
ghost use Rattle.drm_trails.specs.Steps.{history_of};
ghost use Rattle.drm_rights.specs.Leases as lending;
ghost use Rattle.drm_rights.specs.Leases.{end_with, ended_at, leases_in, lent_in, listed_in, new_lease};
ghost use Rattle.drm_rights.specs.Ledgers as ledgers;
ghost use Rattle.drm_rights.specs.Ledgers.{authentication_of, authentications_in, capabilities_in, capability_of, controls_in, is_current_in, is_same_master, new_capability, new_root, owner_since_in, lease_client_in, master_state_of, standings_in};

use crate::notes::{
    Authentication, Capability, End, Lease, Magic, MasterState, first_authentication, first_end,
    first_redemption, is_named, is_root, last_capability, last_magic, last_master_state, lease_at,
    lease_of_id, lease_of_token, lessor_of, top_of,
};
use drm_modes::Topology;
use drm_trails::{Effect, Step, Trail, with_item};
use std::alloc::{AllocError, Global};
use std::marker::Model;

/// The steps of a history, with their effects on masters, leases, authentication and capabilities (own).
///
/// Entries are never removed. Contracts see only the history.
///
/// # Examples
///
/// ```rust
/// use drm_rights::{Ledger, Step};
/// use drm_table::{Answer, Event, Opening};
///
/// let alloc = rt.alloc();
/// let opening = Opening::Primary { root: true, universal: true };
/// let answer = Answer::Opened { client: 1 };
/// let step = Step { event: Event::Open(opening), answer };
/// let Ok(ledger) = Ledger::new(alloc).note(step) else { return };
/// assert!(rt; ledger.is_current(1));
/// ```
#[derive(Drop)]
pub struct Ledger {
    trail: Trail,
    /// The device's master, and the step since which it has been that.
    owner: Option<u64>,
    owner_since: u64,
    standings: Vec<MasterState>,
    leases: Vec<Lease>,
    ends: Vec<End>,
    magics: Vec<Magic>,
    authentications: Vec<Authentication>,
    /// The clients that opened as root.
    roots: Vec<u64>,
    capabilities: Vec<Capability>,
}

impl Model for Ledger {
    ghost use Rattle.std.specs.Prelude.{List};
    ghost use Rattle.drm_history.specs.History.{AnsweredEvent};
    ghost use Rattle.drm_trails.specs.Steps.{history_of};
    ghost use Rattle.drm_rights.specs.Ledgers.{IsLedger};

    ghost Value = { List AnsweredEvent };

    ghost view = { λ l. history_of l.trail };

    ghost invariant = { λ l. IsLedger (history_of l.trail) l.owner l.owner_since l.standings.items l.leases.items l.ends.items l.magics.items l.authentications.items l.roots.items l.capabilities.items };
}

impl Ledger {
    ghost use Rattle.std.specs.Prelude.{◌≡◌, Some, None, false, if◌then◌else◌};
    ghost use Rattle.drm_history.specs.History as past;
    ghost use Rattle.drm_history.specs.MasterState.{is_master_in, lease_in, master_in, caller_master_in, owner_in, master_state, transition};
    ghost use Rattle.drm_history.specs.Shown.{is_universal_in};
    ghost use Rattle.drm_history.specs.Magics.{is_named_in, is_root_in, known, magic_in};
    ghost use Rattle.drm_history.specs.Lessees as lessees;
    ghost use Rattle.drm_history.specs.Lessees.{granted, has_ended, lessee_in, lessor_in, top_in};
    ghost use Rattle.drm_rights.specs.Ledgers.{new_authentication, new_magic, new_master_state};
    ghost use Rattle.drm_trails.specs.Steps.{entry_of, history_of};

    /// Returns a ledger without steps. Does not allocate.
    pub fn new(alloc: Global) -> Ledger
        ensures { result ≡ [] }
    {
        Ledger {
            trail: Trail::new(alloc),
            owner: None,
            owner_since: 0,
            standings: Vec::new(alloc),
            leases: Vec::new(alloc),
            ends: Vec::new(alloc),
            magics: Vec::new(alloc),
            authentications: Vec::new(alloc),
            roots: Vec::new(alloc),
            capabilities: Vec::new(alloc),
        }
    }

    /// Returns the ledger with one more step at the end. Allocates entries of the index.
    ///
    /// # Errors
    ///
    /// `AllocError` if memory is refused. The ledger is then dropped.
    pub fn note(self, step: Step) -> Result<Ledger, AllocError>
        ensures { IfOk result (λ ledger. ledger ≡ entry_of step ∷ self) }
    {
        let number = self.next_number();
        let effect = step.effect();
        let owner = self.owner_after(effect, number);
        let master_state = self.master_state_by(effect, number);
        let lease = self.lease_by(effect);
        let end = self.end_by(effect);
        let magic = self.magic_by(effect, number);
        let authentication = self.authentication_by(effect, number);
        let owner_since = self.owner_since_after(owner);
        Ok(Ledger {
            trail: self.trail.push(step)?,
            owner,
            owner_since,
            standings: with_item(self.standings, master_state)?,
            leases: with_item(self.leases, lease)?,
            ends: with_item(self.ends, end)?,
            magics: with_item(self.magics, magic)?,
            authentications: with_item(self.authentications, authentication)?,
            roots: with_item(self.roots, root_by(effect, number))?,
            capabilities: with_item(self.capabilities, capability_by(effect, number))?,
        })
    }

    /// Returns the device's master after a step. A primary client founds it if there is none. It ends with its client.
    fn owner_after(&self, effect: Effect, number: u64) -> Option<u64>
        ensures { (ids : List ℕ) → result ≡ (transition (effect_of ids effect) number (lease_in self.now) (master_state self.now)).owner }
    {
        let owner = self.owner();
        match effect {
            Effect::OpensPrimary { .. } => owner.or(Some(number)),
            Effect::SetsMaster { client } => owner.or(self.set_by(client, number)),
            Effect::DropsMaster => None,
            Effect::Closes { client } => {
                if self.is_master(client) && owner == self.master_of(client) {
                    None
                } else {
                    owner
                }
            }
            _ => owner,
        }
    }

    /// Returns the step since which the device's master has been the same, after the next step.
    fn owner_since_after(&self, owner: Option<u64>) -> u64
        ensures { result ≡ (if is_same_master (owner_in self.now) owner then owner_since_in self.now else past.next_number self.now) }
    {
        if is_same_master(self.owner(), owner) {
            self.owner_since()
        } else {
            self.next_number()
        }
    }

    /// Returns the master that a client sets: its own, or a new one named by this step.
    fn set_by(&self, client: u64, number: u64) -> Option<u64>
        ensures { result ≡ (if is_master_in self.now client then master_in self.now client else Some number) }
    {
        if self.is_master(client) {
            self.master_of(client)
        } else {
            Some(number)
        }
    }

    /// Returns the client's master state from the step on, if the step changes it.
    fn master_state_by(&self, effect: Effect, number: u64) -> Option<MasterState>
        ensures { (ids : List ℕ) → result ≡ new_master_state (effect_of ids effect) number (lease_in self.now) (master_state self.now) }
    {
        match effect {
            Effect::OpensPrimary { .. } => Some(opened(number, self.owner())),
            Effect::OpensRender => Some(noted(number, number, false, None)),
            Effect::Redeems { token, .. } => Some(noted(
                number,
                number,
                true,
                self.lessee_of(token),
            )),
            Effect::SetsMaster { client } => {
                if self.is_master(client) {
                    None
                } else {
                    Some(noted(number, client, true, Some(number)))
                }
            }
            _ => None,
        }
    }

    /// Returns the lessee of the last lease with this token.
    fn lessee_of(&self, token: u64) -> Option<u64>
        ensures { result ≡ lease_in self.now token }
    {
        match lease_of_token(&self.leases, token) {
            Some(lease) => Some(lease.master),
            None => None,
        }
    }

    /// Returns the client that last received this magic under a master, or `None`. Does not allocate.
    pub fn client_of(&self, master: u64, magic: u64) -> Option<u64>
        ensures { result ≡ magic_in self.now master magic }
    {
        match last_magic(&self.magics, master, magic) {
            Some(told) => Some(told.client),
            None => None,
        }
    }

    fn lease_by(&self, effect: Effect) -> Option<Lease>
        ensures { (ids : List ℕ) → result ≡ new_lease (effect_of ids effect) self.now }
    {
        match effect {
            Effect::Leases {
                client,
                lessee,
                token,
            } => Some(Lease {
                master: self.next_number(),
                client,
                lessor: self.master_of(client),
                owner: self.owner_of(self.master_or_none(client)),
                id: lessee,
                token,
                universal: self.has_universal(client),
            }),
            _ => None,
        }
    }

    /// Returns the master that a step ends: the revoked lessee, or the own master of a closed client.
    fn ended_by(&self, effect: Effect) -> Option<u64>
        ensures { (ids : List ℕ) → result ≡ lessees.ended_by (effect_of ids effect) self.now }
    {
        match effect {
            Effect::Revokes { client, lessee } => {
                let owner = self.owner_of(self.master_or_none(client));
                self.lessee_of_id(owner, lessee)
            }
            Effect::Closes { client } => self.own_master(client),
            _ => None,
        }
    }

    fn end_by(&self, effect: Effect) -> Option<End>
        ensures { (ids : List ℕ) → result ≡ end_with self.now (lessees.ended_by (effect_of ids effect) self.now) }
    {
        match self.ended_by(effect) {
            Some(master) => Some(End {
                step: self.next_number(),
                master,
            }),
            None => None,
        }
    }

    /// Returns the lessee of the last lease with this id under this owner.
    fn lessee_of_id(&self, owner: u64, id: u64) -> Option<u64>
        ensures { result ≡ lessee_in self.now owner id }
    {
        match lease_of_id(&self.leases, owner, id) {
            Some(lease) => Some(lease.master),
            None => None,
        }
    }

    fn magic_by(&self, effect: Effect, number: u64) -> Option<Magic>
        ensures { (ids : List ℕ) → result ≡ new_magic (effect_of ids effect) number (caller_master_in self.now) }
    {
        match effect {
            Effect::GetsMagic { client, magic } => Some(Magic {
                step: number,
                master: self.master_or_none(client),
                number: magic,
                client,
            }),
            _ => None,
        }
    }

    fn authentication_by(&self, effect: Effect, number: u64) -> Option<Authentication>
        ensures { (ids : List ℕ) → result ≡ new_authentication (effect_of ids effect) number (caller_master_in self.now) (magic_in self.now) }
    {
        match effect {
            Effect::Authenticates { client, magic } => {
                match self.client_of(self.master_or_none(client), magic) {
                    Some(named) => Some(Authentication {
                        step: number,
                        client: named,
                        by: client,
                        magic,
                    }),
                    None => None,
                }
            }
            _ => None,
        }
    }

    /// Returns the client's master, or 0 if it has none.
    fn master_or_none(&self, client: u64) -> u64
        ensures { result ≡ caller_master_in self.now client }
    {
        self.master_of(client).unwrap_or(0)
    }

    /// Returns the client's own master, or `None`.
    fn own_master(&self, client: u64) -> Option<u64>
        ensures { result ≡ (if is_master_in self.now client then master_in self.now client else None) }
    {
        if self.is_master(client) {
            self.master_of(client)
        } else {
            None
        }
    }

    /// Returns the number of the next step.
    fn next_number(&self) -> u64
        ensures { result ≡ past.next_number self.now }
    {
        self.steps().len() as u64 + 1
    }

    /// Returns the steps, the oldest first. Does not allocate.
    pub fn steps(&self) -> &[Step]
        ensures { history_of result.now ≡ self.now }
    {
        self.trail.steps()
    }

    /// Returns the steps with the index by which chains are found. Does not allocate.
    pub fn trail(&self) -> &Trail
        ensures { history_of result.now ≡ self.now }
    {
        &self.trail
    }

    /// Returns the device's master, or `None`. Does not allocate.
    pub fn owner(&self) -> Option<u64>
        ensures { result ≡ owner_in self.now }
    {
        self.owner
    }

    /// Returns the step since which the device's master has been the same, or 0 if it never changed. Does not allocate.
    pub fn owner_since(&self) -> u64
        ensures { result ≡ owner_since_in self.now }
    {
        self.owner_since
    }

    /// Returns the client's master state and the step since which it has it, or `None` if the client was never opened.
    /// Does not allocate.
    pub fn master_state(&self, client: u64) -> Option<MasterState>
        ensures note { result ≡ master_state_of (standings_in self.now) client }
        ensures is_master { option_map_or (λ master_state. master_state.is_master) result false ≡ is_master_in self.now client }
        ensures master { option_and_then (λ master_state. master_state.master) result ≡ master_in self.now client }
    {
        last_master_state(&self.standings, client)
    }

    /// Returns whether the client has an own master. Does not allocate.
    pub fn is_master(&self, client: u64) -> bool
        ensures { result ≡ is_master_in self.now client }
    {
        match self.master_state(client) {
            Some(master_state) => master_state.is_master,
            None => false,
        }
    }

    /// Returns the client's master, its own or the one that it joined. Does not allocate.
    pub fn master_of(&self, client: u64) -> Option<u64>
        ensures { result ≡ master_in self.now client }
    {
        match self.master_state(client) {
            Some(master_state) => master_state.master,
            None => None,
        }
    }

    /// Returns the lessor of a master, or `None` if the master is no lessee. Does not allocate.
    pub fn lessor_of(&self, master: u64) -> Option<u64>
        ensures { result ≡ lessor_in self.now master }
    {
        lessor_of(&self.leases, master)
    }

    /// Returns the top of a master's chain of lessors. Does not allocate.
    pub fn owner_of(&self, master: u64) -> u64
        ensures { result ≡ top_in self.now master }
    {
        top_of(&self.leases, master)
    }

    /// Returns whether the client is current: it is a master whose owner is the device's master. Does not allocate.
    pub fn is_current(&self, client: u64) -> bool
        ensures { result ≡ is_current_in self.now client }
    {
        match self.own_master(client) {
            Some(master) => self.owner() == Some(self.owner_of(master)),
            None => false,
        }
    }

    /// Returns the leases in the order of their creation, with those that ended. Does not allocate.
    pub fn leases(&self) -> &[Lease]
        ensures { result.now ≡ leases_in self.now }
    {
        &self.leases
    }

    /// Returns the lease of a lessee, or `None` if the master is no lessee. Does not allocate.
    pub fn lease_of(&self, master: u64) -> Option<Lease>
        ensures { result ≡ lending.lease_at (leases_in self.now) master }
    {
        lease_at(&self.leases, master)
    }

    /// Returns the first step that ended a master or one above it, or `None`. Does not allocate.
    pub fn ended(&self, master: u64) -> Option<u64>
        ensures step { result ≡ ended_at self.now master }
        ensures ended { is_some result ≡ has_ended self.now master }
    {
        match first_end(&self.leases, &self.ends, master) {
            Some(end) => Some(end.step),
            None => None,
        }
    }

    /// Returns whether a step before this one ended a master.
    fn is_ended_before(&self, master: u64, step: u64) -> bool
        ensures { result ≡ lending.is_ended_before self.now master step }
    {
        match self.ended(master) {
            Some(ended) => ended < step,
            None => false,
        }
    }

    /// Returns the mode objects that a step listed for a lease. Empty if it created no lease.
    fn listed(&self, master: u64) -> &[u32]
        ensures { result.now ≡ listed_in self.now master }
    {
        listed_at(self.trail.steps(), master)
    }

    /// Returns whether the step with the number `lessee` lent a mode object (drm-uapi, leases). Does not allocate.
    ///
    /// The step lends what it listed, if the lessor's master controlled it. For a client with universal planes off, it
    /// also lends the primary and the cursor plane of a listed CRTC.
    pub fn lends(&self, topology: &Topology, lessee: u64, mode_object: u32) -> bool
        ensures { result ≡ lent_in topology.now self.now lessee mode_object }
    {
        let mut master = lessee;
        'lessors: loop {
            let Some(lease) = self.lease_of(master) else {
                return false;
            };
            let listed = self.listed(master);
            if is_among(listed, mode_object) {
                return true;
            }
            if !comes_along(topology, lease.universal, listed, mode_object) {
                return false;
            }
            let Some(lessor) = self.lessor_of(master) else {
                return false;
            };
            if self.lessor_of(lessor).is_none() {
                return true;
            }
            if self.is_ended_before(lessor, master) {
                return false;
            }
            master = lessor;
        }
    }

    /// Returns whether a step lent a plane that it did not list.
    fn is_brought(&self, topology: &Topology, master: u64, plane: u32) -> bool
        ensures { result ≡ (not (numbers.is_among (listed_in self.now master) plane) && lent_in topology.now self.now master plane) }
    {
        !is_among(self.listed(master), plane) && self.lends(topology, master, plane)
    }

    /// Returns the mode objects that the step with this number lent, in rising order. Empty if it created no lease.
    /// Allocates the list.
    ///
    /// # Errors
    ///
    /// `AllocError` if memory is refused.
    pub fn leased(
        &self,
        alloc: Global,
        topology: &Topology,
        master: u64,
    ) -> Result<Vec<u32>, AllocError>
        ensures lent { IfOk result (λ ids. (x : ℕ) → numbers.is_among ids.items x ≡ lent_in topology.now self.now master x) }
        ensures rising { IfOk result (λ ids. IsNonDecreasing ids.items) }
    {
        let listed = self.listed(master);
        let planes = topology.planes_of(listed);
        let mut ids = Vec::new(alloc);
        ids.extend_from_slice(listed)?;
        for plane in planes.ids() {
            if self.is_brought(topology, master, *plane) {
                ids.push(*plane)?;
            }
        }
        ids.sort_unstable();
        Ok(ids)
    }

    /// Returns whether a lease has a mode object: its step lent it, and no later one ended the lease. Does not
    /// allocate.
    pub fn is_granted(&self, topology: &Topology, master: u64, mode_object: u32) -> bool
        ensures { result ≡ granted topology.now self.now master mode_object }
    {
        self.ended(master).is_none() && self.lends(topology, master, mode_object)
    }

    /// Returns whether the client's master controls a mode object (drm-uapi, leases). Does not allocate.
    ///
    /// A master without a lessor controls all. A lessee controls what its lease has.
    pub fn controls(&self, topology: &Topology, client: u64, mode_object: u32) -> bool
        ensures { result ≡ controls_in topology.now self.now client mode_object }
    {
        match self.master_of(client) {
            Some(master) => {
                self.lessor_of(master).is_none() || self.is_granted(topology, master, mode_object)
            }
            None => false,
        }
    }

    /// Returns whether a client has universal planes on, and the step since which it does, or `None` if it was never
    /// opened. Does not allocate.
    pub fn capability(&self, client: u64) -> Option<Capability>
        ensures note { result ≡ capability_of (capabilities_in self.now) client }
        ensures universal { option_map_or (λ capability. capability.universal) result false ≡ is_universal_in self.now client }
    {
        last_capability(&self.capabilities, client)
    }

    /// Returns whether a client has universal planes on. Does not allocate.
    pub fn has_universal(&self, client: u64) -> bool
        ensures { result ≡ is_universal_in self.now client }
    {
        match self.capability(client) {
            Some(capability) => capability.universal,
            None => false,
        }
    }

    /// Returns the client that redeemed the lease of a lessee, or `None`. It has had this master since the step that
    /// opened it. Does not allocate.
    pub fn lease_client(&self, lessee: u64) -> Option<u64>
        ensures { result ≡ lease_client_in self.now lessee }
    {
        match first_redemption(&self.standings, lessee) {
            Some(master_state) => Some(master_state.client),
            None => None,
        }
    }

    /// Returns whether the client opened as root. Does not allocate.
    pub fn is_root(&self, client: u64) -> bool
        ensures { result ≡ is_root_in self.now client }
    {
        is_root(&self.roots, client)
    }

    /// Returns whether an AUTH_MAGIC named the client's magic. Does not allocate.
    pub fn is_named(&self, client: u64) -> bool
        ensures { result ≡ is_named_in self.now client }
    {
        is_named(&self.authentications, client)
    }

    /// Returns the first AUTH_MAGIC that named the client's magic, or `None`. Does not allocate.
    pub fn authentication(&self, client: u64) -> Option<Authentication>
        ensures { result ≡ authentication_of (authentications_in self.now) client }
    {
        first_authentication(&self.authentications, client)
    }

    /// Returns whether the client is authenticated: it opened as root, is a master, or AUTH_MAGIC named its magic
    /// (drm(7)). Does not allocate.
    pub fn is_known(&self, client: u64) -> bool
        ensures { result ≡ known self.now client }
    {
        self.is_root(client) || self.is_master(client) || self.is_named(client)
    }
}

/// Returns the mode objects that a step listed for a lease. Empty if it created no lease.
fn listed_at(steps: &[Step], number: u64) -> &[u32]
    ensures { result.now ≡ listed_in (history_of steps.now) number }
{
    if number == 0 || number > steps.len() as u64 {
        return &[];
    }
    let place = number as usize - 1;
    steps[place].listed()
}

fn is_among(ids: &[u32], id: u32) -> bool
    ensures { result ≡ numbers.is_among ids.now id }
{
    ids.contains(&id)
}

/// Returns whether a lease of these also has a mode object that it does not list. With universal planes off, it has the
/// primary and the cursor plane of each CRTC.
fn comes_along(topology: &Topology, universal: bool, listed: &[u32], mode_object: u32) -> bool
    ensures { result ≡ lending.comes_along topology.now universal listed.now mode_object }
{
    if universal {
        return false;
    }
    match topology.crtc_of_plane(mode_object) {
        Some(crtc) => is_among(listed, crtc),
        None => false,
    }
}

/// Returns whether the device's master is the same.
fn is_same_master(one: Option<u64>, other: Option<u64>) -> bool
    ensures { result ≡ ledgers.is_same_master one other }
{
    match (one, other) {
        (None, None) => true,
        (Some(one), Some(other)) => one == other,
        _ => false,
    }
}

/// Returns the master state of a client from a step on.
fn noted(number: u64, client: u64, is_master: bool, master: Option<u64>) -> MasterState
    ensures { result ≡ ledgers.noted number client is_master master }
{
    MasterState {
        step: number,
        client,
        is_master,
        master,
    }
}

/// Returns the master state of a newly opened primary client. It founds a master if the device has none, and else joins
/// it.
fn opened(number: u64, owner: Option<u64>) -> MasterState
    ensures { result ≡ ledgers.opened number owner }
{
    match owner {
        None => noted(number, number, true, Some(number)),
        Some(owner) => noted(number, number, false, Some(owner)),
    }
}

/// Returns the client that a step opens as root. Its number is that of the step.
fn root_by(effect: Effect, number: u64) -> Option<u64>
    ensures { (ids : List ℕ) → result ≡ new_root (effect_of ids effect) number }
{
    let root = match effect {
        Effect::OpensPrimary { root, .. } => root,
        Effect::Redeems { root, .. } => root,
        _ => false,
    };
    if root { Some(number) } else { None }
}

/// The number of `DRM_CLIENT_CAP_UNIVERSAL_PLANES` (drm-uapi).
const UNIVERSAL_PLANES: u64 = 2;

/// Returns the capability of a client from a step on.
fn capable(number: u64, client: u64, universal: bool) -> Capability
    ensures { result ≡ ledgers.capable number client universal }
{
    Capability {
        step: number,
        client,
        universal,
    }
}

/// Returns whether a step turns universal planes on or off, by an opening or by SET_CLIENT_CAP.
fn capability_by(effect: Effect, number: u64) -> Option<Capability>
    ensures { (ids : List ℕ) → result ≡ new_capability (effect_of ids effect) number }
{
    match effect {
        Effect::OpensPrimary { universal, .. } => Some(capable(number, number, universal)),
        Effect::OpensRender => Some(capable(number, number, true)),
        Effect::Redeems { universal, .. } => Some(capable(number, number, universal)),
        Effect::SetsCapability {
            client,
            capability,
            on,
        } => {
            if capability == UNIVERSAL_PLANES {
                Some(capable(number, client, on))
            } else {
                None
            }
        }
        _ => None,
    }
}
