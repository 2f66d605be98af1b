//! The leases.

ghost use Rattle.std.specs.Prelude.{◌≡◌, ℕ, ◌≤◌, ◌<◌, [], true, false, None, find, slice_get, length, IfSome, IfNone, OnErr};
ghost use Rattle.std.specs.Option.{is_some, option_map, option_map_or, option_and_then};
ghost use Rattle.drm_masters.specs.Masters as masters_sets;
ghost use Rattle.drm_masters.specs.Calls as masters_calls;
ghost use Rattle.drm_leases.specs.Leases as sets;
ghost use Rattle.drm_leases.specs.Calls as calls;
ghost use Rattle.drm_leases.specs.Masks.{has_object, objects_in, is_empty};
ghost use Rattle.drm_leases.specs.Rules as rules;
ghost use Rattle.drm_leases.specs.Agreed.{AreAgreed};
ghost use Rattle.drm_leases.specs.Views.{AreControlled};
ghost use Rattle.drm_table.specs.Permit.{first_failing};

use crate::endings::{end_leases, end_leases_below, release_open, release_open_below};
use crate::faults::LeaseFault;
use crate::granted::Granted;
use crate::lists::passing;
use crate::masks;
use crate::rows::{Grant, Leased};
use crate::rules::{are_leasable, are_seen, is_lease, may_lease, planes_along, stand_once};
use crate::searches::{any_leased_out, controlled, is_leased_out, lessee_mask, nth_grant};
use crate::tokens::LeaseTokens;
use crate::views::View;
use crate::writes::listed_mask;
use drm_masters::{LesseeFault, MasterKey, Masters, NoMemory};
use drm_modes::Modes;
use drm_table::{Rule, ShownList};
use std::alloc::Global;
use std::marker::Model;

/// The number of an audit's rows of grants (own).
const GRANT_KIND: u32 = 7;

/// The mode objects that lessees control, and the open lease tokens (drm-uapi, leases; tokens are own).
///
/// Masters are named by their keys. A lease that ended is not found by its lessee's key, so a reused key finds no old
/// lease. Contracts see flat lists, in the order of the lessees, which they name by the numbers of the steps that
/// created them.
///
/// # Examples
///
/// ```rust
/// use drm_leases::{Grant, Leased, Leases};
/// use drm_masters::Masters;
/// use drm_modes::{Modes, Topology};
///
/// let alloc = rt.alloc();
/// let Some(topology) = Topology::new(2, &[1, 2], &[3, 2], &[5, 6]) else { return };
/// let modes = Modes::new(alloc, topology, 4);
/// let mut masters = Masters::new(alloc, 4, 4);
/// let Ok(_first) = masters.on_open(1, 1) else { return };
/// let mut leases = Leases::new(alloc, 8);
/// let Ok(leased) = leases.create(&mut masters, &modes, 1, true, &[1, 3, 7], 2) else { return };
/// let Leased { m, id, token } = leased;
/// assert!(rt; id == 1 && leases.nth_grant(0) == Some(Grant { master: 2, mode_object: 1 }));
/// assert!(rt; leases.redeem(token) == Some(m));
/// ```
pub struct Leases {
    granted: Granted,
    tokens: LeaseTokens,
}

// Written out, so that it is proved once: a derived one is proved again in each crate that drops such a value.
impl Drop for Leases {
    fn drop(self) {
        let Leases { granted, tokens } = self;
        drop(granted);
        drop(tokens);
    }
}

impl Model for Leases {
    ghost use Rattle.drm_leases.specs.Leases.{LeaseSet};

    ghost Value = { LeaseSet };

    ghost use Rattle.drm_leases.specs.Fields.{set_of, IsSound};

    ghost view = { set_of };

    ghost invariant = { IsSound };
}

impl Leases {
    /// Creates a table without leases. It can allocate the tokens from 1 to `last`. Does not allocate memory.
    pub fn new(alloc: Global, last: u32) -> Leases
        requires { 1 ≤ last }
        ensures { result ≡ sets.no_leases last }
    {
        Leases {
            granted: Granted::new(alloc),
            tokens: LeaseTokens::new(alloc, last),
        }
    }

    /// States the facts that always hold for leases. Calling it does nothing.
    pub fn laws(&self)
        ensures { sets.AreLeases self.now }
    {
        let _ = &self.granted;
    }

    /// Creates a lessee of a client's master, a lease of the listed mode objects, and the token that opens it
    /// (drm-uapi, CREATE_LEASE).
    ///
    /// If the client has universal planes off, the lease also has the primary and the cursor plane of each listed CRTC
    /// that the master controls (own). No master may have this birth yet. The birth of the client's master must be
    /// lower.
    ///
    /// # Errors
    ///
    /// `Denied` with the first failing rule, in the order 35, 30 to 34, 43. Each rule is over all ids, and 34 over the
    /// added planes too. `NoMemory` if no rule denies it, and memory is refused. The state is then unchanged.
    pub fn create(
        &mut self,
        masters: &mut Masters,
        modes: &Modes,
        client: u32,
        universal: bool,
        ids: &[u32],
        birth: u32,
    ) -> Result<Leased, LeaseFault>
        requires open_client { is_some (masters_sets.member_of masters.old.members client) ≡ true }
        requires new_step_number { is_some (masters_sets.master_at masters.old.masters birth) ≡ false }
        requires later { IfSome (masters_sets.member_of masters.old.members client) (λ x. x.master < birth) }
        requires agreed { AreAgreed self.old masters.old }
        ensures created { IfSome (masters_sets.member_of masters.old.members client) (λ x. calls.Created self.old masters.old modes.now x.master universal ids.now birth result self.new masters.new) }
        ensures err { OnErr result ((self.new ≡ self.old) × (masters.new ≡ masters.old)) }
        ensures agreed { AreAgreed self.new masters.new }
    {
        let Some(member) = masters.member(client) else {
            unreachable!()
        };
        let planes = self.brought_along(masters, modes, member.master, universal, ids);
        let along = planes.ids();
        if let Some(rule) = self.denied(masters, modes, member.master, universal, ids, along) {
            return Err(LeaseFault::Denied(rule));
        }
        let Some(lessor) = masters.master(member.master) else {
            unreachable!()
        };
        let objects = listed_mask(modes, ids, along);
        match self.lend(masters, lessor.key, objects, birth) {
            Ok(made) => Ok(made),
            Err(LesseeFault::Full) => Err(LeaseFault::Denied(Rule::Full)),
            Err(LesseeFault::NoMemory) => Err(LeaseFault::NoMemory),
        }
    }

    /// Returns the first rule that denies [`create`](Leases::create), or `None` if it creates a lease, for which it
    /// needs memory. Returns `None` too if the client belongs to no master. Does not allocate.
    #[cold]
    pub fn create_refusal(
        &self,
        masters: &Masters,
        modes: &Modes,
        client: u32,
        universal: bool,
        ids: &[u32],
    ) -> Option<Rule>
        requires { AreAgreed self.now masters.now }
        ensures { result ≡ option_and_then (λ x. first_failing (rules.lease_checks self.now masters.now modes.now x.master universal ids.now)) (masters_sets.member_of masters.now.members client) }
    {
        let Some(member) = masters.member(client) else {
            return None;
        };
        let planes = self.brought_along(masters, modes, member.master, universal, ids);
        let along = planes.ids();
        if let Some(rule) = self.denied(masters, modes, member.master, universal, ids, along) {
            return Some(rule);
        }
        let Some(_id) = masters.free_lessee(member.master) else {
            return Some(Rule::Full);
        };
        None
    }

    /// Returns whether the lease of a lessee has a mode object. Returns `false` if no lessee with a lease has the key.
    /// Does not allocate.
    pub fn holds(&self, master: MasterKey, mode_object: u32) -> bool
        ensures { result ≡ option_map_or (λ m. sets.is_granted self.now.grants m mode_object) (sets.lessee_at self.now.lendings master) false }
    {
        match self.granted.lessee(master) {
            Some(lessee) => masks::has(self.granted.objects(lessee), mode_object),
            None => false,
        }
    }

    /// Returns what a client of a master sees of the fixed mode objects (drm-uapi, leases and universal planes).
    /// `master` is the number of the step that created it. Does not allocate.
    pub fn view(&self, masters: &Masters, master: u32, universal: bool) -> View
        ensures controlled { AreControlled self.now.grants masters.now.masters master result.controlled }
        ensures universal { result.universal ≡ universal }
    {
        View {
            controlled: controlled(&self.granted, masters, master),
            universal,
        }
    }

    /// Returns whether the lease of a direct lessee of the master has a mode object. Does not allocate.
    pub fn leased_out(&self, masters: &Masters, master: MasterKey, mode_object: u32) -> bool
        requires there { masters_sets.is_there masters.now.masters master ≡ true }
        requires agreed { AreAgreed self.now masters.now }
        ensures { result ≡ sets.is_leased_out self.now.grants masters.now.masters (masters_sets.step_number_at masters.now.masters master) mode_object }
    {
        let Some(lessor) = masters.of_key(master) else {
            unreachable!()
        };
        is_leased_out(&self.granted, masters, lessor.step_number, mode_object)
    }

    /// Returns the ids of the direct lessees of the master whose lease is not empty, in rising order (drm-uapi, leases;
    /// the order is own). Does not allocate.
    pub fn list(&self, masters: &Masters, master: MasterKey) -> ShownList
        requires { masters_sets.is_there masters.now.masters master ≡ true }
        ensures { result ≡ sets.lessee_ids self.now.grants masters.now.masters masters.now.last_lessee (masters_sets.step_number_at masters.now.masters master) }
    {
        let Some(lessor) = masters.of_key(master) else {
            unreachable!()
        };
        masters.laws();
        let lessees = lessee_mask(&self.granted, masters, lessor.step_number);
        passing(masters.last_lessee(), |id| masks::has(lessees, id))
    }

    /// Returns the mode objects in the lease of a lessee, in rising order. The list is empty if no lessee with a lease
    /// has the key. Does not allocate.
    pub fn objects_of(&self, master: MasterKey) -> ShownList
        ensures { result ≡ option_map_or (sets.granted_objects self.now.grants) (sets.lessee_at self.now.lendings master) [] }
    {
        match self.granted.lessee(master) {
            Some(lessee) => self.granted.objects_of(lessee),
            None => ShownList::new(),
        }
    }

    /// Returns the lessee that a token opens, if the token is open. Does not allocate.
    pub fn token_master(&self, token: u32) -> Option<MasterKey>
        ensures { result ≡ option_and_then (sets.key_at self.now.lendings) (sets.token_master self.now.tokens token) }
    {
        let lessee = self.tokens.lessee(token)?;
        self.granted.key(lessee)
    }

    /// Returns the open token of a lessee, if it has one. The lessee is named by the number of the step that created
    /// it. Does not allocate.
    pub fn token_of(&self, master: u32) -> Option<u32>
        ensures { result ≡ sets.token_of self.now.tokens master }
    {
        self.tokens.of(master)
    }

    /// Spends an open token, and returns the lessee that it opens. If the token is not open, nothing changes. Does not allocate.
    pub fn redeem(&mut self, token: u32) -> Option<MasterKey>
        ensures master { result ≡ option_and_then (sets.key_at self.old.lendings) (sets.token_master self.old.tokens token) }
        ensures spent { self.new ≡ calls.without_token token self.old }
        ensures none { IfNone result (self.new ≡ self.old) }
    {
        let lessee = self.tokens.spend(token)?;
        self.granted.key(lessee)
    }

    /// Ends the leases of a master and of all below it (drm-uapi, leases; tokens are own). Does not allocate.
    ///
    /// It removes their open tokens, and releases each lessee whose token it removes. Such a lessee is freed unless a
    /// client or a lessee below it holds it. No other master is released: the own master of a client that closed
    /// stays until [`Masters::release`].
    pub fn revoke(&mut self, masters: &mut Masters, master: MasterKey)
        requires there { masters_sets.is_there masters.old.masters master ≡ true }
        requires agreed { AreAgreed self.old masters.old }
        ensures leases { self.new ≡ calls.ended masters.old.masters (masters_sets.step_number_at masters.old.masters master) self.old }
        ensures masters { masters.new ≡ masters_sets.swept (masters_calls.released (calls.is_opened_under self.old.tokens masters.old.masters (masters_sets.step_number_at masters.old.masters master)) masters.old) }
        ensures agreed { AreAgreed self.new masters.new }
    {
        let Some(top) = masters.of_key(master) else {
            unreachable!()
        };
        end_leases(&mut self.granted, masters, top.step_number);
        release_open(&mut self.tokens, masters, top.step_number);
    }

    /// Ends the leases of all below a master (drm-uapi, leases; tokens are own). Does not allocate.
    ///
    /// It removes their open tokens, and releases each lessee whose token it removes. The master's own lease and open
    /// token remain, and no other master is released.
    pub fn revoke_below(&mut self, masters: &mut Masters, master: MasterKey)
        requires there { masters_sets.is_there masters.old.masters master ≡ true }
        requires agreed { AreAgreed self.old masters.old }
        ensures leases { self.new ≡ calls.ended_below masters.old.masters (masters_sets.step_number_at masters.old.masters master) self.old }
        ensures masters { masters.new ≡ masters_sets.swept (masters_calls.released (calls.is_opened_below self.old.tokens masters.old.masters (masters_sets.step_number_at masters.old.masters master)) masters.old) }
        ensures agreed { AreAgreed self.new masters.new }
    {
        let Some(top) = masters.of_key(master) else {
            unreachable!()
        };
        end_leases_below(&mut self.granted, masters, top.step_number);
        release_open_below(&mut self.tokens, masters, top.step_number);
    }

    /// Returns the token that was allocated last, or `None` before the first.
    pub fn last_given(&self) -> Option<u32>
        ensures { result ≡ self.now.last_given }
    {
        self.tokens.last_given()
    }

    /// Returns the row at a position, from 0, of the rows of an audit's kind (own). Grants are kind 7, in the order of
    /// lessees and of ids in a lease. No other kind has rows here. Does not allocate.
    pub fn nth(&self, kind: u32, i: usize) -> Option<Grant>
        ensures { result ≡ sets.nth_row self.now kind i }
    {
        if kind != GRANT_KIND {
            return None;
        }
        self.nth_grant(i)
    }

    /// Returns the grant at a position, from 0, in the order of lessees and of ids in a lease. Does not allocate.
    pub fn nth_grant(&self, position: usize) -> Option<Grant>
        ensures { result ≡ slice_get self.now.grants position }
    {
        nth_grant(&self.granted, position)
    }

    // creates a lessee of a master, with a lease of these mode objects and a token, if a lessee id is free
    fn lend(
        &mut self,
        masters: &mut Masters,
        lessor: MasterKey,
        objects: u64,
        birth: u32,
    ) -> Result<Leased, LesseeFault>
        requires there { masters_sets.is_there masters.old.masters lessor ≡ true }
        requires new_step_number { is_some (masters_sets.master_at masters.old.masters birth) ≡ false }
        requires later { masters_sets.step_number_at masters.old.masters lessor < birth }
        requires some { is_empty (objects_in objects) ≡ false }
        requires unlent { (x : ℕ) → has_object objects x ≡ true → sets.is_leased_out self.old.grants masters.old.masters (masters_sets.step_number_at masters.old.masters lessor) x ≡ false }
        requires token { is_some (sets.next_token self.old) ≡ true }
        requires agreed { AreAgreed self.old masters.old }
        ensures lent { calls.Lends self.old masters.old (masters_sets.step_number_at masters.old.masters lessor) (objects_in objects) birth result self.new masters.new }
        ensures err { OnErr result ((self.new ≡ self.old) × (masters.new ≡ masters.old)) }
        ensures agreed { AreAgreed self.new masters.new }
    {
        masters.laws();
        let Some(above) = masters.of_key(lessor) else {
            unreachable!()
        };
        let made = masters.make_lessee(lessor, birth)?;
        self.granted.laws();
        if let Err(NoMemory) = self.granted.add(birth, above.step_number, made.0, objects) {
            masters.release(made.0);
            return Err(LesseeFault::NoMemory);
        }
        let Ok(token) = self.tokens.give(birth) else {
            self.granted.remove(birth);
            masters.release(made.0);
            return Err(LesseeFault::NoMemory);
        };
        Ok(Leased {
            m: made.0,
            id: made.1,
            token,
        })
    }

    // the planes that are added to a lease for its CRTCs
    #[inline(always)]
    fn brought_along(
        &self,
        masters: &Masters,
        modes: &Modes,
        master: u32,
        universal: bool,
        ids: &[u32],
    ) -> ShownList
        ensures { result ≡ rules.brought_along self.now.grants masters.now.masters modes.now.topology master universal ids.now }
    {
        planes_along(&self.granted, masters, modes, master, universal, ids)
    }

    // returns the first rule that denies a lease to a master, if a lessee id is free
    fn denied(
        &self,
        masters: &Masters,
        modes: &Modes,
        master: u32,
        universal: bool,
        ids: &[u32],
        along: &[u32],
    ) -> Option<Rule>
        requires agreed { AreAgreed self.now masters.now }
        requires along { along.now ≡ rules.brought_along self.now.grants masters.now.masters modes.now.topology master universal ids.now }
        ensures { result ≡ first_failing (rules.lease_rules self.now masters.now modes.now master universal ids.now (is_some (sets.next_token self.now))) }
    {
        if !may_lease(masters, master) {
            return Some(Rule::SubLease);
        }
        if !are_seen(&self.granted, masters, modes, master, universal, ids) {
            return Some(Rule::NoModeObject);
        }
        if !are_leasable(modes, ids) {
            return Some(Rule::NotLeasable);
        }
        if !stand_once(ids) {
            return Some(Rule::Repeated);
        }
        if !is_lease(modes, universal, ids) {
            return Some(Rule::LeaseShape);
        }
        if any_leased_out(&self.granted, masters, master, ids)
            || any_leased_out(&self.granted, masters, master, along)
        {
            return Some(Rule::LeasedOut);
        }
        if self.tokens.is_full() {
            return Some(Rule::Full);
        }
        None
    }
}
