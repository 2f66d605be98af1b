//! What is freed with a handle.

ghost use Rattle.std.specs.Prelude.{ℕ, List, ◌∷◌};
ghost use Rattle.drm_state.specs.Invariants.{AreCounted, AreNamed, Leaves};

use drm_gem::{ObjectKey, Objects};
use drm_share::Names;

/// Removes a handle from an object's count (drm-gem(7)). The object's name is removed with the last handle of any
/// client, the object is freed with its last reference. Does not allocate.
pub fn release(names: &mut Names, objects: &mut Objects, object: ObjectKey)
    requires invariants { (keys : List ℕ) × (refs : List ℕ) × AreCounted (object ∷ keys) refs objects.old.objects }
    ensures leaves { (keys refs : List ℕ) → AreCounted (object ∷ keys) refs objects.old.objects → AreNamed (object ∷ keys) names.old.names → Leaves names.old objects.old keys refs names.new objects.new }
{
    let is_last = objects.holds(object) == 1;
    if is_last {
        names.forget(object);
    }
    let _dead = objects.unhold(object);
}
