//! Searches among the clients and the masters.

ghost use Rattle.std.specs.Prelude.{◌≡◌, ◌==◌, ℕ, None, Some, find, not, slice_get};
ghost use Rattle.std.specs.List.{list_any, AllByRecursion};
ghost use Rattle.drm_index_array.specs.Least.{least};
ghost use Rattle.drm_masters.specs.Masters as sets;
ghost use Rattle.drm_masters.specs.Tables.{members_in};

use crate::members::Members;
use crate::rows::{Master, Member};
use crate::table::MasterTable;

/// Returns the lessor of a master, if it is a lessee.
pub fn lessor_of(masters: &MasterTable, step_number: u32) -> Option<u32>
    ensures { result ≡ sets.lessor_of masters.now.items step_number }
{
    match masters.at(step_number) {
        Some(master) => master.lessor,
        None => None,
    }
}

/// Returns the top of a master's chain of lessors.
pub fn owner_of(masters: &MasterTable, step_number: u32) -> u32
    requires older { AllByRecursion (sets.HasOlderLessor masters.now.items) masters.now.items }
    ensures { result ≡ sets.owner_of masters.now.items step_number }
{
    match lessor_of(masters, step_number) {
        Some(lessor) => owner_of(masters, lessor),
        None => step_number,
    }
}

/// Returns whether a client is current: it is a master, and the owner of its master is the device's, which has no
/// lessor.
pub fn is_current_among(masters: &MasterTable, device: Option<u32>, member: Member) -> bool
    requires older { AllByRecursion (sets.HasOlderLessor masters.now.items) masters.now.items }
    requires top { (m : ℕ) → device ≡ Some m → sets.lessor_of masters.now.items m ≡ None }
    ensures { result ≡ sets.is_current_among masters.now.items device member }
{
    if is_option(member.master, device) {
        return member.is_master;
    }
    member.is_master && is_option(owner_of(masters, member.master), device)
}

/// Returns the number of lessors above a master. It is at most the master's step number, since each is older.
pub fn depth_of(masters: &MasterTable, step_number: u32) -> u32
    requires older { AllByRecursion (sets.HasOlderLessor masters.now.items) masters.now.items }
    ensures { result ≡ sets.depth_of masters.now.items step_number }
{
    match lessor_of(masters, step_number) {
        Some(lessor) => depth_of(masters, lessor) + 1,
        None => 0,
    }
}

/// Returns whether the option is this number.
pub fn is_option(number: u32, option: Option<u32>) -> bool
    ensures { result ≡ sets.is_option number option }
{
    match option {
        Some(named) => named == number,
        None => false,
    }
}

/// Returns the client that has the number under the master, unspent.
pub fn find_open_magic(members: &Members, master: u32, number: u32) -> Option<Member>
    ensures { result ≡ find (sets.has_open_magic master number) members.now.items }
{
    for position in 0..members.len() {
        let Some(member) = members.nth(position) else {
            unreachable!()
        };
        if has_open_magic(member, master, number) {
            return Some(member);
        }
    }
    None
}

fn has_open_magic(member: Member, master: u32, number: u32) -> bool
    ensures { result ≡ sets.has_open_magic master number member }
{
    match member.magic {
        Some(magic) => member.master == master && magic.number == number && !magic.spent,
        None => false,
    }
}

fn has_magic(member: Member, master: u32, number: u32) -> bool
    ensures { result ≡ sets.has_magic master number member }
{
    match member.magic {
        Some(magic) => member.master == master && magic.number == number,
        None => false,
    }
}

/// Returns whether a client has the number under the master.
pub fn is_magic(members: &Members, master: u32, number: u32) -> bool
    ensures { result ≡ list_any (sets.has_magic master number) members.now.items }
{
    for position in 0..members.len() {
        let Some(member) = members.nth(position) else {
            unreachable!()
        };
        if has_magic(member, master, number) {
            return true;
        }
    }
    false
}

/// Returns the lowest number up to the last that no client has under the master.
pub fn free_magic(members: &Members, master: u32, last: u32) -> Option<u32>
    ensures { result ≡ least (λ n. not (list_any (sets.has_magic master n) members.now.items)) 1 last }
{
    for number in 1..=last {
        if !is_magic(members, master, number) {
            return Some(number);
        }
    }
    None
}
