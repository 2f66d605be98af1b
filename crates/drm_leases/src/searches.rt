//! Searches among grants.

ghost use Rattle.std.specs.Prelude.{◌≡◌, ◌≤◌, ℕ, ◌==◌, ◌+◌, ◌&&◌, ◌||◌, false, find, slice_get, unwrap_or};
ghost use Rattle.std.specs.List.{list_any, AllByRecursion};
ghost use Rattle.std.specs.Option.{option_map_or};
ghost use Rattle.drm_masters.specs.Masters as masters_sets;
ghost use Rattle.drm_leases.specs.Leases as sets;
ghost use Rattle.drm_leases.specs.Agreed.{IsAgreed};
ghost use Rattle.drm_leases.specs.Masks.{grants_in, has_object, lendings_in};
ghost use Rattle.drm_leases.specs.Views.{AreControlled};

use crate::granted::Granted;
use crate::masks;
use crate::rows::Grant;
use crate::views::Controlled;
use drm_masters::Masters;

/// Returns the mode objects that a master controls. A master without a lessor controls all, a lessee those of its lease.
pub fn controlled(granted: &Granted, masters: &Masters, master: u32) -> Controlled
    ensures { AreControlled (grants_in granted.now.rows) masters.now.masters master result }
{
    if lessor_of(masters, master).is_none() {
        return Controlled::All;
    }
    Controlled::Lease(granted.objects(master))
}

/// Returns whether one of the mode objects is in the lease of a direct lessee of the master.
pub fn any_leased_out(granted: &Granted, masters: &Masters, master: u32, ids: &[u32]) -> bool
    requires { AllByRecursion (IsAgreed masters.now.members masters.now.masters) (lendings_in granted.now.rows) }
    ensures { result ≡ list_any (sets.is_leased_out (grants_in granted.now.rows) masters.now.masters master) ids.now }
{
    for id in ids {
        if is_leased_out(granted, masters, master, *id) {
            return true;
        }
    }
    false
}

/// Returns whether the lease of a direct lessee of the master has the mode object. Leases and masters agree on which
/// lessor a lessee has.
pub fn is_leased_out(granted: &Granted, masters: &Masters, master: u32, mode_object: u32) -> bool
    requires { AllByRecursion (IsAgreed masters.now.members masters.now.masters) (lendings_in granted.now.rows) }
    ensures { result ≡ sets.is_leased_out (grants_in granted.now.rows) masters.now.masters master mode_object }
{
    masks::has(granted.lent_by(master), mode_object)
}

/// Returns the grant at a position, from 0, in the order of lessees and of ids in a lease.
pub fn nth_grant(granted: &Granted, position: usize) -> Option<Grant>
    ensures { result ≡ slice_get (grants_in granted.now.rows) position }
{
    let mut left = position;
    for at in 0..granted.len() {
        let Some(lease) = granted.nth(at) else {
            unreachable!()
        };
        let objects = masks::objects_of(lease.objects);
        if let Some(mode_object) = objects.ids().get(left) {
            return Some(Grant {
                master: lease.lessee,
                mode_object: *mode_object,
            });
        }
        left -= objects.ids().len();
    }
    None
}

/// Returns the lessor of a master, if it is a lessee.
pub fn lessor_of(masters: &Masters, master: u32) -> Option<u32>
    ensures { result ≡ masters_sets.lessor_of masters.now.masters master }
{
    match masters.master(master) {
        Some(row) => row.lessor,
        None => None,
    }
}

/// Returns a mask of the ids of the direct lessees of the master that have a lease. It looks at each lease once.
pub fn lessee_mask(granted: &Granted, masters: &Masters, master: u32) -> u64
    ensures { (id : ℕ) → 1 ≤ id → id ≤ 64 → has_object result id ≡ sets.has_lease (grants_in granted.now.rows) masters.now.masters master id }
{
    granted.laws();
    let mut mask = 0;
    for position in 0..granted.len() {
        let Some(lease) = granted.nth(position) else {
            unreachable!()
        };
        mask = with_lessee(mask, masters, master, lease.lessee);
    }
    mask
}

/// Returns the mask with the id of a master that is a direct lessee of the other.
fn with_lessee(mask: u64, masters: &Masters, master: u32, lessee: u32) -> u64
    ensures { (id : ℕ) → 1 ≤ id → id ≤ 64 → has_object result id ≡ (has_object mask id || option_map_or (sets.is_direct_lessee master id) (masters_sets.master_at masters.now.masters lessee) false) }
{
    let Some(row) = masters.master(lessee) else {
        return mask;
    };
    if !is_option(master, row.lessor) {
        return mask;
    }
    masks::with_number(mask, row.lessee_id)
}

fn is_option(number: u32, option: Option<u32>) -> bool
    ensures { result ≡ masters_sets.is_option number option }
{
    match option {
        Some(named) => named == number,
        None => false,
    }
}
