//! The masters, and the clients that belong to them.

ghost use Rattle.std.specs.Prelude.{◌≡◌, ◌<◌, ◌≤◌, ◌&&◌, ◌||◌, true, false, None, Some, [], find, length, slice_get, OnOk, OnErr, IfOk, IfSome, IsOk, not};
ghost use Rattle.std.specs.Option.{is_some, option_map, option_map_or, option_and_then};
ghost use Rattle.drm_masters.specs.Masters as sets;
ghost use Rattle.drm_masters.specs.Calls as calls;

use crate::faults::{LesseeFault, SetDone, SetFault};
use crate::members::Members;
use crate::rows::{Master, MasterKey, MasterRow, Member};
use crate::searches::{
    depth_of, find_open_magic, free_magic, is_current_among, lessor_of, owner_of,
};
use crate::sweeps::sweep_up;
use crate::table::MasterTable;
use crate::writes::{
    device_without, founded_master, lease_client, lessee, non_master, owner, with_magic,
};
use drm_id_alloc::NoMemory;
use drm_table::Rule;
use std::alloc::Global;
use std::marker::Model;

/// The numbers of an audit's rows of clients and of masters (own).
const CLIENT_KIND: u32 = 1;

const MASTER_KIND: u32 = 2;

/// The masters, the clients that belong to them, and which master is the device's (drm(7); drm-uapi, leases). A master
/// stays while it, or one below it, is kept or named by a client. Contracts see flat lists: clients in the order of
/// their numbers, masters in the order in which they were created.
///
/// # Examples
///
/// ```rust
/// use drm_masters::Masters;
///
/// let alloc = rt.alloc();
/// let mut masters = Masters::new(alloc, 4, 4);
/// let Ok(_first) = masters.on_open(1, 1) else { return };
/// let Some(owner) = masters.master(1) else { return };
/// let Ok((lessee, _id)) = masters.make_lessee(owner.key, 2) else { return };
/// let Ok(()) = masters.on_redeem(3, lessee) else { return };
/// assert!(rt; masters.is_current(3));
/// ```
pub struct Masters {
    members: Members,
    masters: MasterTable,
    device_master: Option<u32>,
    last_magic: u32,
    last_lessee: u32,
}

// Written out, so that it is proved once: a derived one is proved again in each crate that drops such a value.
impl Drop for Masters {
    fn drop(self) {
        let Masters {
            members,
            masters,
            device_master: _,
            last_magic: _,
            last_lessee: _,
        } = self;
        drop(members);
        drop(masters);
    }
}

impl Model for Masters {
    ghost use Rattle.drm_masters.specs.Masters.{MasterSet};

    ghost Value = { MasterSet };

    ghost use Rattle.drm_masters.specs.Fields.{set_of, IsSound};

    ghost view = { set_of };

    ghost invariant = { IsSound };
}

impl Masters {
    /// Creates a table without clients and masters. Does not allocate.
    ///
    /// It can hold at most `clients` clients, whose magics are 1 to `clients`. The lessee ids under each owner are 1 to
    /// `lessees`, at most 64.
    pub fn new(alloc: Global, clients: u32, lessees: u32) -> Masters
        requires few { lessees ≤ 64 }
        ensures { result ≡ record { members = []; masters = []; device_master = None; last_magic = clients; last_lessee = lessees } }
    {
        Masters {
            members: Members::new(alloc),
            masters: MasterTable::new(alloc),
            device_master: None,
            last_magic: clients,
            last_lessee: lessees,
        }
    }

    /// States the facts that always hold for the clients and the masters. Calling it does nothing.
    pub fn laws(&self)
        ensures { sets.AreMasters self.now }
    {
        let _ = &self.members;
    }

    /// Returns a client's relation to its master, if it belongs to one. Does not allocate.
    pub fn member(&self, client: u32) -> Option<Member>
        ensures member { result ≡ sets.member_of self.now.members client }
        ensures are { sets.AreMasters self.now }
    {
        self.members.get(client)
    }

    /// Returns the key of a client's master, if it belongs to one. Does not allocate.
    pub fn master_of(&self, client: u32) -> Option<MasterKey>
        ensures { result ≡ option_and_then (λ x. sets.key_of self.now.masters x.master) (sets.member_of self.now.members client) }
    {
        let member = self.members.get(client)?;
        let master = self.masters.at(member.master)?;
        Some(master.key)
    }

    /// Returns the master with a step number, if it exists. Does not allocate.
    pub fn master(&self, step_number: u32) -> Option<Master>
        ensures master { result ≡ sets.master_at self.now.masters step_number }
        ensures keyed { IfSome result (λ x. sets.IsKeyOf self.now.masters step_number x.key) }
    {
        self.masters.at(step_number)
    }

    /// Returns the master that a key names, if it exists. Does not allocate.
    pub fn of_key(&self, master: MasterKey) -> Option<Master>
        ensures { result ≡ find (sets.is_key master) self.now.masters }
    {
        self.masters.of_key(master)
    }

    /// Returns the depth of a master below its owner: 0 without a lessor, else one more than its lessor's (own).
    /// `master` is the number of the step that created it. Does not allocate.
    pub fn depth(&self, master: u32) -> u32
        ensures { result ≡ sets.depth_of self.now.masters master }
    {
        depth_of(&self.masters, master)
    }

    /// Returns the key of a master's lessor, if it is a lessee. Does not allocate.
    pub fn lessor_of(&self, master: MasterKey) -> Option<MasterKey>
        requires { sets.is_there self.now.masters master ≡ true }
        ensures { result ≡ option_and_then (sets.key_of self.now.masters) (sets.lessor_of self.now.masters (sets.step_number_at self.now.masters master)) }
    {
        let step_number = self.masters.of_key(master)?.step_number;
        let lessor = lessor_of(&self.masters, step_number)?;
        Some(self.masters.at(lessor)?.key)
    }

    /// Returns the direct lessee of a master at a position, from 0, in the order in which they were created. Masters
    /// are named by the numbers of the steps that created them. Does not allocate.
    pub fn nth_lessee(&self, lessor: u32, position: usize) -> Option<u32>
        ensures { result ≡ slice_get (sets.lessees_of self.now.masters lessor) position }
    {
        self.masters.nth_lessee(lessor, position)
    }

    /// Returns the number of the step that created the device's master, if the device has one.
    pub fn device_master(&self) -> Option<u32>
        ensures { result ≡ self.now.device_master }
    {
        self.device_master
    }

    /// Returns whether the client is current (`drm_is_current_master`; for a lessee drm-uapi, leases). It is if it is a
    /// master and the owner of its master is the device's. A client without a master is not. Does not allocate.
    pub fn is_current(&self, client: u32) -> bool
        ensures { result ≡ sets.is_current self.now client }
    {
        let Some(member) = self.members.get(client) else {
            return false;
        };
        is_current_among(&self.masters, self.device_master, member)
    }

    /// Returns whether a client is current ([`is_current`](Masters::is_current)), for one whose row is at hand
    /// ([`member`](Masters::member)), so that it need not be found again. Does not allocate.
    pub fn is_current_member(&self, member: Member) -> bool
        ensures { result ≡ sets.is_current_member self.now member }
    {
        is_current_among(&self.masters, self.device_master, member)
    }

    /// Adds a client that opened the primary node (drm(7)). No client may have this number yet, and no master this
    /// birth.
    ///
    /// If the device has no master, the client owns a new one with this birth, which becomes the device's. The function
    /// then returns `true`. Otherwise the client belongs to the device's master and is no master itself. The function
    /// then returns `false`.
    ///
    /// # Errors
    ///
    /// If memory is refused, nothing changes.
    pub fn on_open(&mut self, client: u32, birth: u32) -> Result<bool, NoMemory>
        requires new_client { is_some (sets.member_of self.old.members client) ≡ false }
        requires room { length self.old.members < self.old.last_magic }
        requires new_step_number { is_some (sets.master_at self.old.masters birth) ≡ false }
        ensures made { IfOk result (λ made. made ≡ not (is_some self.old.device_master)) }
        ensures ok { OnOk result (calls.Opened self.old client birth self.old.device_master self.new) }
        ensures err { OnErr result (self.new ≡ self.old) }
    {
        if let Some(master) = self.device_master {
            if let Err(NoMemory) = self.members.add(non_master(client, master)) {
                return Err(NoMemory);
            }
            return Ok(false);
        }
        if let Err(NoMemory) = self.masters.insert(founded_master(birth)) {
            return Err(NoMemory);
        }
        let founder = owner(client, birth);
        if let Err(NoMemory) = self.members.add(founder) {
            self.masters.remove(birth);
            return Err(NoMemory);
        }
        self.device_master = Some(birth);
        Ok(true)
    }

    /// Adds the client that redeems a lessee, which is no longer kept (drm-uapi, leases). No client may have this
    /// number yet. The client is a master, but this does not count as having been a master once (own).
    ///
    /// # Errors
    ///
    /// If memory is refused, nothing changes.
    pub fn on_redeem(&mut self, client: u32, master: MasterKey) -> Result<(), NoMemory>
        requires new_client { is_some (sets.member_of self.old.members client) ≡ false }
        requires room { length self.old.members < self.old.last_magic }
        requires unredeemed { option_map_or (λ x. x.kept && is_some x.lessor) (find (sets.is_key master) self.old.masters) false ≡ true }
        ensures ok { OnOk result (self.new ≡ calls.redeemed client (sets.step_number_at self.old.masters master) self.old) }
        ensures err { OnErr result (self.new ≡ self.old) }
    {
        let Some(redeemed) = self.masters.of_key(master) else {
            unreachable!()
        };
        let member = lease_client(client, redeemed.step_number);
        if let Err(NoMemory) = self.members.add(member) {
            return Err(NoMemory);
        }
        self.masters.set_kept(redeemed.step_number, false);
        Ok(())
    }

    /// Makes a client current (SET_MASTER, drm-uapi). No master may have the birth `birth` yet.
    ///
    /// The rules, in order:
    ///
    /// - A client that was never a master and is not root is denied (26).
    /// - For a client that is current, nothing changes.
    /// - While the device has a master, any other client is denied (27).
    /// - A client that is no master gets a new one, with this birth, and loses its magic.
    /// - A lessee is denied (29).
    /// - For any other client, its own master is set again.
    ///
    /// # Errors
    ///
    /// `Denied` with the rule, or `NoMemory` if memory for a new master is refused. The state is then unchanged.
    #[tactic(auto, unfolding(crate::specs::Calls::set_checks))]
    pub fn set(&mut self, client: u32, root: bool, birth: u32) -> Result<SetDone, SetFault>
        requires open_client { is_some (sets.member_of self.old.members client) ≡ true }
        requires new_step_number { is_some (sets.master_at self.old.masters birth) ≡ false }
        ensures set { IfSome (sets.member_of self.old.members client) (λ x. calls.SetOf self.old x root birth result self.new) }
        ensures err { OnErr result (self.new ≡ self.old) }
    {
        let Some(member) = self.members.get(client) else {
            unreachable!()
        };
        if !is_permitted(member, root) {
            return Err(SetFault::Denied(Rule::MasterPerm));
        }
        if is_current_among(&self.masters, self.device_master, member) {
            return Ok(SetDone::Already);
        }
        if self.device_master.is_some() {
            return Err(SetFault::Denied(Rule::MasterBusy));
        }
        if !member.is_master {
            if let Err(NoMemory) = self.found(client, birth) {
                return Err(SetFault::NoMemory);
            }
            return Ok(SetDone::Made);
        }
        if lessor_of(&self.masters, member.master).is_some() {
            return Err(SetFault::Denied(Rule::IsLessee));
        }
        self.device_master = Some(member.master);
        Ok(SetDone::Again)
    }

    /// Returns whether [`set`](Masters::set) creates a master for a client, which is what it needs memory for. Returns
    /// `false` if the client belongs to no master. Does not allocate.
    pub fn sets_new(&self, client: u32, root: bool) -> bool
        ensures { result ≡ option_map_or (λ x. calls.sets_new self.now x root) (sets.member_of self.now.members client) false }
    {
        let Some(member) = self.members.get(client) else {
            return false;
        };
        if member.is_master {
            return false;
        }
        if self.device_master.is_some() {
            return false;
        }
        is_permitted(member, root)
    }

    /// Leaves the device without a master (DROP_MASTER, drm-uapi). The client keeps its own master.
    ///
    /// # Errors
    ///
    /// These rules, in order. The state is then unchanged.
    ///
    /// - 26: the client was never a master and is not root.
    /// - 28: the client is not current.
    /// - 29: the client is a lessee.
    #[tactic(auto, unfolding(crate::specs::Calls::drop_checks))]
    pub fn drop_master(&mut self, client: u32, root: bool) -> Result<(), Rule>
        requires { is_some (sets.member_of self.old.members client) ≡ true }
        ensures dropped { IfSome (sets.member_of self.old.members client) (λ x. calls.DroppedBy self.old x root result self.new) }
        ensures err { OnErr result (self.new ≡ self.old) }
    {
        let Some(member) = self.members.get(client) else {
            unreachable!()
        };
        if !is_permitted(member, root) {
            return Err(Rule::MasterPerm);
        }
        if !is_current_among(&self.masters, self.device_master, member) {
            return Err(Rule::NotCurrent);
        }
        if lessor_of(&self.masters, member.master).is_some() {
            return Err(Rule::IsLessee);
        }
        self.device_master = None;
        Ok(())
    }

    /// Returns the client's magic: its number under its master (GET_MAGIC, drm(7)).
    ///
    /// If the client has none, it gets the lowest free one. There are as many numbers as clients, so one is free. Does
    /// not allocate.
    ///
    /// # Errors
    ///
    /// If memory is refused, nothing changes.
    pub fn magic(&mut self, client: u32) -> Result<u32, NoMemory>
        requires { is_some (sets.member_of self.old.members client) ≡ true }
        ensures given { IfOk result (λ n. IfSome (sets.member_of self.old.members client) (λ x. calls.GaveMagic self.old x x.magic n self.new)) }
        ensures always { IsOk result }
    {
        let Some(member) = self.members.get(client) else {
            unreachable!()
        };
        if let Some(magic) = member.magic {
            return Ok(magic.number);
        }
        let Some(number) = free_magic(&self.members, member.master, self.last_magic) else {
            unreachable!()
        };
        self.members.set(with_magic(member, number, false));
        Ok(number)
    }

    /// Spends a magic under the caller's master, and returns the client that it authenticates (AUTH_MAGIC, drm(7)).
    /// Does not allocate.
    ///
    /// # Errors
    ///
    /// Rule 25 if no client has the number there, or the number is spent. The state is then unchanged.
    pub fn auth(&mut self, client: u32, number: u32) -> Result<u32, Rule>
        requires { is_some (sets.member_of self.old.members client) ≡ true }
        ensures authenticated { IfSome (sets.member_of self.old.members client) (λ x. calls.AuthenticatedBy self.old x.master number result self.new) }
        ensures err { OnErr result (self.new ≡ self.old) }
    {
        let Some(member) = self.members.get(client) else {
            unreachable!()
        };
        let Some(found) = find_open_magic(&self.members, member.master, number) else {
            return Err(Rule::NoMagic);
        };
        self.members.set(with_magic(found, number, true));
        Ok(found.client)
    }

    /// Removes a client with its magic. Does not allocate.
    ///
    /// The client's own master is returned and stays until its release. If it was the device's, the device has none.
    /// Any other master is freed if nothing else holds it. For a client without a master, nothing changes.
    pub fn on_close(&mut self, client: u32) -> Option<MasterKey>
        ensures { calls.ClosedBy self.old (sets.member_of self.old.members client) result self.new }
    {
        let member = self.members.get(client)?;
        self.members.remove(client);
        if !member.is_master {
            sweep_up(&self.members, &mut self.masters, member.master);
            return None;
        }
        let Some(master) = self.masters.at(member.master) else {
            unreachable!()
        };
        self.masters.set_kept(member.master, true);
        self.device_master = device_without(self.device_master, member.master);
        Some(master.key)
    }

    /// Creates a lessee of a master with the lowest id that is free under the master's owner (drm-uapi, leases; ids
    /// own), and returns its key and its id.
    ///
    /// The lessee stays until it is redeemed or released. No master may have this birth yet. The lessor's birth must be
    /// lower.
    ///
    /// # Errors
    ///
    /// `Full` if each id is taken under the owner, `NoMemory` if memory is refused. The state is then unchanged.
    pub fn make_lessee(
        &mut self,
        master: MasterKey,
        birth: u32,
    ) -> Result<(MasterKey, u32), LesseeFault>
        requires there { sets.is_there self.old.masters master ≡ true }
        requires new_step_number { is_some (sets.master_at self.old.masters birth) ≡ false }
        requires later { sets.step_number_at self.old.masters master < birth }
        ensures made { calls.MadeLessee self.old (sets.step_number_at self.old.masters master) birth result self.new }
        ensures err { OnErr result (self.new ≡ self.old) }
    {
        let Some(lessor) = self.masters.of_key(master) else {
            unreachable!()
        };
        let Some(id) = self.free_lessee(lessor.step_number) else {
            return Err(LesseeFault::Full);
        };
        let key = match self.masters.insert(lessee(birth, lessor.step_number, id)) {
            Ok(key) => key,
            Err(NoMemory) => return Err(LesseeFault::NoMemory),
        };
        Ok((key, id))
    }

    /// Returns the lessee with this id under the owner of `master`. Does not allocate.
    pub fn lessee(&self, master: MasterKey, id: u32) -> Option<MasterKey>
        requires { sets.is_there self.now.masters master ≡ true }
        ensures lessee { result ≡ option_map (λ x. x.key) (sets.lessee_of self.now.masters (sets.step_number_at self.now.masters master) id) }
        ensures keyed { IfSome (sets.lessee_of self.now.masters (sets.step_number_at self.now.masters master) id) (λ x. sets.IsKeyOf self.now.masters x.step_number x.key) }
    {
        let step_number = self.masters.of_key(master)?.step_number;
        let owner = owner_of(&self.masters, step_number);
        Some(self.masters.lessee(owner, id)?.key)
    }

    /// Returns the highest id that a lessee may have.
    pub fn last_lessee(&self) -> u32
        ensures { result ≡ self.now.last_lessee }
    {
        self.last_lessee
    }

    /// Returns the lowest id that no lessee of the master's owner has, or `None` if each is taken. Does not allocate.
    #[inline(always)]
    pub fn free_lessee(&self, master: u32) -> Option<u32>
        ensures { result ≡ sets.free_lessee self.now master }
    {
        let owner = owner_of(&self.masters, master);
        self.masters.free_id(owner, self.last_lessee)
    }

    /// Releases a kept master. It is freed, and so are those above it, as far as nothing else holds them. Does not
    /// allocate.
    pub fn release(&mut self, master: MasterKey)
        requires { sets.is_there self.old.masters master ≡ true }
        ensures { self.new ≡ sets.swept (calls.with_kept (sets.step_number_at self.old.masters master) false self.old) }
    {
        let Some(released) = self.masters.of_key(master) else {
            unreachable!()
        };
        self.masters.set_kept(released.step_number, false);
        sweep_up(&self.members, &mut self.masters, released.step_number);
    }

    /// Returns the client at a position, from 0, in the order of their numbers, among those that belong to a master.
    /// Does not allocate.
    pub fn nth_member(&self, position: usize) -> Option<Member>
        ensures { result ≡ slice_get self.now.members position }
    {
        self.members.nth(position)
    }

    /// Returns the master at a position, from 0, in the order in which they were created. Does not allocate.
    pub fn nth_master(&self, position: usize) -> Option<Master>
        ensures { result ≡ slice_get self.now.masters position }
    {
        self.masters.nth(position)
    }

    /// Returns the row at a position, from 0, of the rows of an audit's kind (own). Does not allocate.
    ///
    /// Clients that belong to a master are kind 1, in the order of their numbers. Masters are kind 2, in the order in
    /// which they were created. No other kind has rows here.
    pub fn nth(&self, kind: u32, i: usize) -> Option<MasterRow>
        ensures { result ≡ sets.nth_row self.now kind i }
    {
        match kind {
            CLIENT_KIND => Some(MasterRow::Client(self.nth_member(i)?)),
            MASTER_KIND => Some(MasterRow::Master(self.nth_master(i)?)),
            _ => None,
        }
    }

    // a new master of a client that is no master, under this key; the device has none
    fn found(&mut self, client: u32, step_number: u32) -> Result<MasterKey, NoMemory>
        requires none { self.old.device_master ≡ None }
        requires new_step_number { is_some (sets.master_at self.old.masters step_number) ≡ false }
        requires open_client { is_some (sets.member_of self.old.members client) ≡ true }
        ensures ok { IfOk result (λ key. self.new ≡ calls.remade client key step_number self.old) }
        ensures free { IfOk result (λ key. calls.IsFreeKey self.old key) }
        ensures err { OnErr result (self.new ≡ self.old) }
    {
        let Some(old) = self.members.get(client) else {
            unreachable!()
        };
        let key = match self.masters.insert(founded_master(step_number)) {
            Ok(key) => key,
            Err(NoMemory) => return Err(NoMemory),
        };
        let founder = owner(client, step_number);
        if let Err(NoMemory) = self.members.remake(founder) {
            self.masters.remove(step_number);
            return Err(NoMemory);
        }
        self.device_master = Some(step_number);
        sweep_up(&self.members, &mut self.masters, old.master);
        Ok(key)
    }
}

/// Returns whether a client was ever a master by its opening or SET_MASTER, or is root.
fn is_permitted(member: Member, root: bool) -> bool
    ensures { result ≡ (member.once_master || root) }
{
    member.once_master || root
}
