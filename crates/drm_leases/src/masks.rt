//! Sets of fixed mode objects, as words of 64 bits: bit x - 1 is object x (own).

ghost use Rattle.std.specs.Prelude.{◌≡◌, ◌≤◌, ◌==◌, ◌↔◌, ℕ, ◌&&◌, ◌||◌, not, IsTrue};
ghost use Rattle.std.specs.List.{AllByRecursion};
ghost use Rattle.drm_index_array.specs.Numbers.{is_among};
ghost use Rattle.drm_leases.specs.Masks.{has_object, objects_in, IsFixed};

use crate::lists::passing;
use drm_table::ShownList;

/// Returns whether a mask has a mode object.
pub fn has(mask: u64, mode_object: u32) -> bool
    ensures { result ≡ has_object mask mode_object }
{
    1 <= mode_object && mode_object <= 64 && mask >> (mode_object - 1) & 1 == 1
}

/// Returns the mask with a number, if it is one from 1 to 64.
pub fn with_number(mask: u64, number: u32) -> u64
    ensures { (x : ℕ) → 1 ≤ x → x ≤ 64 → has_object result x ≡ (has_object mask x || (number == x)) }
{
    if !is_fixed(number) {
        return mask;
    }
    mask | 1 << (number - 1)
}

fn is_fixed(number: u32) -> bool
    ensures { IsTrue result ↔ IsFixed number }
{
    1 <= number && number <= 64
}

/// Returns the mask of these mode objects.
pub fn mask_of(ids: &[u32]) -> u64
    requires { AllByRecursion IsFixed ids.now }
    ensures { (x : ℕ) → has_object result x ≡ is_among ids.now x }
{
    let mut mask = 0;
    for id in ids {
        mask |= 1 << (*id - 1);
    }
    mask
}

/// Returns the mode objects of either mask.
pub fn union(mask: u64, other: u64) -> u64
    ensures { (x : ℕ) → has_object result x ≡ (has_object mask x || has_object other x) }
{
    mask | other
}

/// Returns the mode objects of the first mask that the second does not have.
pub fn without(mask: u64, other: u64) -> u64
    ensures { (x : ℕ) → has_object result x ≡ (has_object mask x && not (has_object other x)) }
{
    mask & !other
}

/// Returns the mode objects of a mask, in rising order.
pub fn objects_of(mask: u64) -> ShownList
    ensures { result ≡ objects_in mask }
{
    passing(64, |id| has(mask, id))
}
